//! Why a page refuses.

use thiserror::Error;

/// Why a page does not take a record in, or does not give one. The page is then as it was.
#[derive(Clone, Copy, Debug, PartialEq, Eq, Error)]
pub enum PageFault {
    /// An insert of a key that is there, whether the page is full or not (`DB_DUPLICATE_KEY`).
    #[error("the key is there")]
    Duplicate,
    /// An insert of a further key where there are `MOST_RECORDS` records: the page must be split.
    #[error("the page is full")]
    PageFull,
    /// A removal of a key that is not there (`DB_RECORD_NOT_FOUND`).
    #[error("the key is not there")]
    Missing,
}
