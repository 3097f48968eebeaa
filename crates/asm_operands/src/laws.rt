//! Laws of tokens: a function has an empty body, and its contract is the law.

ghost use Rattle.asm_operands.specs.Laws.{TokensAreApart, TokensStandAtTheirStarts};

/// A line's tokens have bytes, lie within it, and none begins before the one in front of it ends.
pub fn spans()
    ensures apart { TokensAreApart }
    ensures starts { TokensStandAtTheirStarts }
{}
