//! Why a change of a tree is refused.

use thiserror::Error;

/// Why a change of a tree is not planned.
#[derive(Clone, Copy, Debug, PartialEq, Eq, Error)]
pub enum TreeFault {
    #[error("the key is there")]
    Duplicate,
    #[error("the key is not there")]
    Missing,
    #[error("{need} pages are needed, and {free} are free")]
    NeedPages { free: u32, need: u32 },
    #[error("the root would be raised at the highest level")]
    TooHigh,
}
