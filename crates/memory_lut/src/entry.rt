//! An entry of the table of posted requests.
use pmsi_model::Kind;

/// A posted request and its stamp: of two that stand, the one that was posted later has the greater.
#[derive(Clone, Copy)]
pub struct Entry {
    pub core: u32,
    pub line: u32,
    pub kind: Kind,
    pub stamp: u64,
}
