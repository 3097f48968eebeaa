//! Of several forms, the one that fits.

ghost use Rattle.std.specs.Prelude.{◌≡◌, List};
ghost use Rattle.asm_operands.specs.Operands.{Stuck};
ghost use Rattle.asm_operands.specs.Meanings.{lexemes};
ghost use Rattle.asm_parse.specs.Mnemonics.{Item, further};

use asm_operands::Lexeme;

/// Of two ways to read the same tokens, the one that fits, or the one that goes further.
macro_rules! further {
    ($one:expr, $other:expr) => {
        match $one {
            Ok(instrs) => Ok(instrs),
            Err(left) => match $other {
                Ok(instrs) => Ok(instrs),
                Err(other_left) => Err($crate::forms::fewer(left, other_left)),
            },
        }
    };
}

pub(crate) use further;

/// Of what two ways left, the fewer tokens.
pub(crate) fn fewer<'x, 'a>(one: &'x [Lexeme<'a>], other: &'x [Lexeme<'a>]) -> &'x [Lexeme<'a>]
    ensures { further {A = List Item} (Stuck (lexemes one.now)) (Stuck (lexemes other.now)) ≡ Stuck (lexemes result.now) }
{
    if one.len() < other.len() { one } else { other }
}
