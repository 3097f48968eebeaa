//! Laws of lines: a function has an empty body, and its contract is the law. Those of tokens are in `asm_operands`.

ghost use Rattle.asm_parse.specs.Laws.{LinesAreCut};

pub use asm_operands::laws::spans;

/// A line ends at the first newline, and one byte 13 in front of it is dropped; what stands after the last newline is
/// a line only where it isn't empty.
pub fn cuts()
    ensures { LinesAreCut }
{}
