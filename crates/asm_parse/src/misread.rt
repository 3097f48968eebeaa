//! What is wrong with a line by itself.

ghost use Rattle.std.specs.Prelude.{◌≡◌};
ghost use Rattle.asm_parse.specs.declared.misread.Misread.TheVariants.{Operand};
ghost use Rattle.asm_operands.specs.Meanings.{lexemes};
ghost use Rattle.asm_parse.specs.Readings.{first_column};

use crate::fault::{AsmCause, AsmFault};
use asm_operands::Lexeme;

/// Why a line isn't read.
#[derive(Clone, Copy)]
pub(crate) enum Misread {
    /// No mnemonic and no directive stands at this column, where one must stand.
    Word(u32),
    /// The token at this column doesn't fit, or else the line ends too early.
    Operand(Option<u32>),
    /// A number at this column is misspelt or out of its range.
    Number(u32),
    /// Memory ran out.
    NoMemory,
}

impl From<&[Lexeme<'_>]> for Misread {
    ghost from_gives = { λ left e. e ≡ Operand (first_column (lexemes left.now)) };

    /// The first of the tokens that are left doesn't fit.
    fn from(left: &[Lexeme<'_>]) -> Misread {
        Misread::Operand(left.first().map(|token| token.column))
    }
}

impl Misread {
    ghost use Rattle.std.specs.Prelude.{◌≡◌, ◌≢◌, [], ◌∷◌, Some};
    ghost use Rattle.asm_parse.specs.Assembly.{Asked, at_line, first_of, word_fault, operand_fault, number_fault};
    ghost use Rattle.asm_parse.specs.Readings.{IsMisread};

    /// As the fault of the line of this number, which ends at this column.
    #[tactic(auto, using(crate::proofs::Misreads::word_first, crate::proofs::Misreads::operand_first, crate::proofs::Misreads::number_first))]
    pub(crate) fn at_line(self, number: u32, end: u32) -> AsmFault
        ensures { (asks : Asked) → IsMisread self asks → result ≢ AsmFault.NoMemory →
            at_line number (first_of (word_fault asks ∷ operand_fault end asks ∷ number_fault asks ∷ [])) ≡ Some result }
    {
        let cause = match self {
            Misread::Word(column) => AsmCause::Word(column),
            Misread::Operand(column) => AsmCause::Operand(column.unwrap_or(end)),
            Misread::Number(column) => AsmCause::Number(column),
            Misread::NoMemory => return AsmFault::NoMemory,
        };
        AsmFault::At(number, cause)
    }
}
