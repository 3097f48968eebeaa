//! Worked examples: each function has an empty body, and its contract says what the definitions give for small sources.

ghost use Rattle.asm_parse.specs.Examples.{ReadsInstructions, ReadsData, FindsFaults, Assembles};

/// Instructions and pseudo-instructions stand for those of the table.
pub fn reads_instructions()
    ensures { ReadsInstructions }
{}

/// Data has the bytes that its lines name.
pub fn reads_data()
    ensures { ReadsData }
{}

/// The first fault of a source.
pub fn finds_faults()
    ensures { FindsFaults }
{}

/// A source and its image.
pub fn assembles()
    ensures { Assembles }
{}
