//! Laws of traces: each function has an empty body, and its contract is the law.

ghost use Rattle.trace_text.specs.Laws.{ReadIsWritten, WrittenIsRead};

/// The text of a trace says that trace, and no other bytes say it.
pub fn one_text()
    ensures written { WrittenIsRead }
    ensures read { ReadIsWritten }
{}
