//! Where a line stands.

/// Where a line stands: its space, and the next addresses of both.
#[derive(Clone, Copy, Debug, PartialEq, Eq)]
pub struct Place {
    /// Whether it goes to data, or else to text.
    pub in_data: bool,
    /// The next address of text, in bytes.
    pub text_at: u32,
    /// The next address of data, in bytes. Behind an `.org` it may lie below data that stands already.
    pub data_at: u32,
}
