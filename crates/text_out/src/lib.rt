//! Texts as bytes: the digits of numbers, and functions that append to the bytes written so far. Every printer and every
//! line that is told is made of these. A call that appends fails where memory runs out, and nothing else makes it fail.
//! Texts that are read are cut into lines here too.
#![tactic(auto)]

mod digits;
mod lines;
mod pieces;

pub use digits::{hex_byte, hex_digit, hex_word};
pub use lines::next_line;
pub use pieces::{
    push_field, push_hex, push_hex_byte, push_hex_bytes, push_hex_field, push_newline, push_number,
    push_signed, push_text,
};
