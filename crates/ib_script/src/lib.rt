//! The grammar of scripts: what each line says, which line is the first bad one, and what all lines ask for.
#![tactic(auto)]

mod builder;
mod generated;
mod laws;
mod lists;
mod load;
mod pair_line;
mod reader;
mod script;
mod script_line;
mod tally;

pub use generated::generate;
pub use laws::script_law;
pub use load::{Load, MOST_GENERATED};
pub use pair_line::PairLines;
pub use reader::{LineReader, PlainLines};
pub use script::{Script, read_pair_script, read_script};
pub use script_line::{MOST_COMMANDS, MOST_SCANS, ScriptLine, reading_of};
