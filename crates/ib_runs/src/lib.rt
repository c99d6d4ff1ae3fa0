//! How the commands of a script's sessions are run: each session as work of its own, on what all of them share.
#![tactic(auto)]

mod access;
mod beside;
mod descents;
mod first_log;
mod gate;
mod guessing;
mod laws;
mod ran;
mod script_run;
mod session;
mod session_out;
mod session_text;
mod shared;
mod shared_index;
mod turns;

pub use access::Access;
pub use beside::{Beside, Nobody};
pub use descents::Descents;
pub use gate::{Gate, OpenGate};
pub use laws::alone_law;
pub use ran::{Ran, pairs_of};
pub use script_run::run_script;
pub use session::run_session;
pub use session_out::SessionOut;
pub use session_text::print_sessions;
pub use shared::Shared;
