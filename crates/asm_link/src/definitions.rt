//! Defines the names of a line.

ghost use Rattle.std.specs.Prelude.{◌≢◌, ◌≤◌, [], ◌∷◌, IfErr, OnOk};
ghost use Rattle.pmsi_model.specs.declared.limits.TheConstants.{MAX_MEMORY};
ghost use Rattle.asm_operands.specs.Meanings.{lexeme, lexemes};
ghost use Rattle.asm_parse.specs.Items.{statement_of};
ghost use Rattle.asm_parse.specs.Assembly.{defined_by};
ghost use Rattle.asm_link.specs.Defined.{Defines, DefinesConstant, DefinesOne, RefusesTwice, labelled};

use asm_parse::{AsmCause, AsmFault, Lexeme, Named, Names, Number, Statement};

/// Defines labels, in their order, as this address.
pub(crate) fn define_labels<'a>(
    names: &mut Names<'a>,
    number: u32,
    labels: &[Lexeme<'a>],
    address: u32,
) -> Result<(), AsmFault>
    requires { address ≤ MAX_MEMORY }
    ensures ok { OnOk result (Defines names.old names.new (lexemes labels.now) (labelled (lexemes labels.now) address) []) }
    ensures twice { IfErr result (λ e. e ≢ AsmFault.NoMemory → RefusesTwice names.old number (lexemes labels.now) e) }
{
    for label in labels {
        let value = Named {
            value: Number::new(i64::from(address)),
            constant: false,
        };
        define(names, number, label, value)?;
    }
    Ok(())
}

/// Defines the name of an `.equ`.
pub(crate) fn define_constant<'a>(
    names: &mut Names<'a>,
    number: u32,
    does: &Statement<'a>,
) -> Result<(), AsmFault>
    ensures ok { OnOk result (DefinesConstant names.old names.new (statement_of does.now)) }
    ensures twice { IfErr result (λ e. e ≢ AsmFault.NoMemory → RefusesTwice names.old number (defined_by (statement_of does.now)) e) }
{
    let Statement::Define(name, value) = does else {
        return Ok(());
    };
    let value = Named {
        value: *value,
        constant: true,
    };
    define(names, number, name, value)
}

/// Defines a name that isn't defined yet.
fn define<'a>(
    names: &mut Names<'a>,
    number: u32,
    name: &Lexeme<'a>,
    value: Named,
) -> Result<(), AsmFault>
    ensures ok { OnOk result (DefinesOne names.old names.new name.now value) }
    ensures twice { IfErr result (λ e. e ≢ AsmFault.NoMemory → RefusesTwice names.old number (lexeme name.now ∷ []) e) }
{
    if names.get(name.text).is_some() {
        return Err(AsmFault::At(number, AsmCause::Twice(name.column)));
    }
    names.define(name.text, value)?;
    Ok(())
}
