//! A line in its place.

use asm_parse::Statement;

/// A line with instructions or numbers: its number, from 1 on, and the address where it begins in its space.
#[derive(Debug, Drop)]
pub(crate) struct Step<'a> {
    pub(crate) number: u32,
    pub(crate) in_data: bool,
    pub(crate) address: u32,
    pub(crate) does: Statement<'a>,
}
