//! Texts of what a run gives: keys and pairs, records, the chunks of scans, sessions' parts, logs and maps.
#![tactic(auto)]

mod chunk_text;
mod key;
mod laws;
mod log_part;
mod map_part;
mod record_part;
mod scan_text;
mod session_part;
mod span_part;
mod spelling;

pub use chunk_text::ChunkText;
pub use key::{key_in, print_key};
pub use laws::key_text_law;
pub use log_part::{ChangeLog, print_log};
pub use map_part::{all_pairs, print_map};
pub use record_part::print_record_line;
pub use scan_text::ScanText;
pub use session_part::print_session;
