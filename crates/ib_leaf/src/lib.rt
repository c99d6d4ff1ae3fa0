//! A change of the key's leaf alone, by a session that holds it, however it came there (row0ins, btr0cur).
#![tactic(auto)]

mod answer;
mod leaf;
mod path_value;
mod session;

pub use answer::changed;
pub use leaf::{Looked, ROOT, Work, look_in, put_in, take_out};
pub use path_value::value_in;
pub use session::facts_of_session;
