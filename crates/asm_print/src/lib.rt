//! Instructions and images as assembly text.
#![tactic(auto)]

mod image_text;
mod line;
mod mnemonics;
mod operands;
mod printer;

pub use image_text::listing_of;
pub use printer::print_instr;

#[cfg(test)]
mod tests;
