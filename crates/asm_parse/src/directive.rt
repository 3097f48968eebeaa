//! Directives: what each asks for.

ghost use Rattle.std.specs.Prelude.{◌≡◌, ◌<◌, ◌≤◌, Bool, false, true, option_map, IfOk, IfSome};
ghost use Rattle.asm_operands.specs.Numbers.{is_number};
ghost use Rattle.pmsi_model.specs.declared.limits.TheConstants.{MAX_MEMORY};
ghost use Rattle.asm_operands.specs.declared.token.TokenKind.TheVariants.{Word};
ghost use Rattle.asm_operands.specs.Operands.{then_take, take_kind, take_literal, ends};
ghost use Rattle.asm_parse.specs.Items.{IsSound, bytes_in, fits_in};
ghost use Rattle.asm_parse.specs.Assembly.{Nothing, Switch, MoveTo, Zeros, Asks, aligned, directive_named, is_size, is_alignment, read_definition, read_numbers, take_definition};
ghost use Rattle.asm_operands.specs.Meanings.{lexeme, lexemes, whole};
ghost use Rattle.asm_parse.specs.Readings.{directive_meaning, IsNumberRead, IsPlainRead, IsRead};

use crate::checks::{check_alignment, check_numbers, check_size, check_value};
use crate::item::Width;
use crate::misread::Misread;
use crate::place::Place;
use crate::statement::Statement;
use asm_operands::{
    Lexeme, Literal, Stop, TokenKind, Whole, take_exprs, take_kind, take_literal, taken, value_in,
    whole,
};
use std::alloc::Global;

/// A directive, or several that ask for the same.
#[derive(Clone, Copy)]
pub(crate) enum Directive {
    /// `.text` or `.data`.
    Switch { to_data: bool },
    /// `.org`.
    Origin,
    /// `.balign`.
    Align,
    /// `.word`, `.half` or `.byte`.
    Numbers(Width),
    /// `.zero`.
    Zeros,
    /// `.equ`.
    Define,
    /// `.globl` or `.global`.
    Global,
}

impl Directive {
    ghost use Rattle.std.specs.Prelude.{◌≡◌};
    ghost use Rattle.asm_parse.specs.Readings.{directive_meaning};

    /// Whether it stands among data alone.
    pub(crate) fn is_for_data(self) -> bool
        ensures { result ≡ (directive_meaning self).data_only }
    {
        match self {
            Directive::Origin | Directive::Align | Directive::Zeros => true,
            Directive::Numbers(width) => width != Width::Word,
            _ => false,
        }
    }
}

/// The directives.
const DIRECTIVES: [(&str, Directive); 11] = [
    (".text", Directive::Switch { to_data: false }),
    (".data", Directive::Switch { to_data: true }),
    (".org", Directive::Origin),
    (".balign", Directive::Align),
    (".word", Directive::Numbers(Width::Word)),
    (".half", Directive::Numbers(Width::Half)),
    (".byte", Directive::Numbers(Width::Byte)),
    (".zero", Directive::Zeros),
    (".equ", Directive::Define),
    (".globl", Directive::Global),
    (".global", Directive::Global),
];

/// The directive of this name, if there is one.
pub(crate) fn directive_named(name: &str) -> Option<Directive>
    ensures { option_map directive_meaning result ≡ directive_named name.now }
{
    value_in(&DIRECTIVES, name)
}

/// What a directive does in this place, by its operands.
pub(crate) fn read_directive<'a>(
    alloc: Global,
    directive: Directive,
    place: Place,
    tokens: &[Lexeme<'a>],
) -> Result<Statement<'a>, Misread>
    requires { place.data_at ≤ MAX_MEMORY }
    ensures read { IsRead result (Asks ((directive_meaning directive).reads place (lexemes tokens.now))) }
    ensures sound { IfOk result (λ does. (in_data : Bool) → (in_data ≡ false → (directive_meaning directive).data_only ≡ false) → IsSound in_data does) }
{
    match directive {
        Directive::Switch { to_data } => {
            read_end(tokens)?;
            Ok(Statement::Switch { to_data })
        }
        Directive::Origin => Ok(Statement::MoveTo(read_size(tokens)?)),
        Directive::Align => Ok(Statement::MoveTo(aligned(place.data_at, read_alignment(tokens)?))),
        Directive::Numbers(width) => read_numbers(alloc, width, tokens),
        Directive::Zeros => Ok(Statement::Zeros(read_size(tokens)?)),
        Directive::Define => read_definition(tokens),
        Directive::Global => {
            read_global(tokens)?;
            Ok(Statement::Nothing)
        }
    }
}

/// One number, up to the line's end.
fn take_number<'x, 'a>(tokens: &'x [Lexeme<'a>]) -> Whole<'x, 'a, Literal>
    ensures { whole (λ n. n) result ≡ then_take (take_literal (lexemes tokens.now)) ends }
{
    let (n, tokens) = taken!(take_literal(tokens));
    whole!(n, tokens)
}

/// A number of bytes, or an address.
fn read_size(tokens: &[Lexeme<'_>]) -> Result<u32, Misread>
    ensures { IsNumberRead result is_size (lexemes tokens.now) }
{
    let n = taken!(take_number(tokens));
    check_size(n).map_err(Misread::Number)
}

/// What the next address of data is a multiple of.
fn read_alignment(tokens: &[Lexeme<'_>]) -> Result<u32, Misread>
    ensures number { IsNumberRead result is_alignment (lexemes tokens.now) }
    ensures within { IfOk result (λ n. (0 < n) × (n ≤ 64)) }
{
    let n = taken!(take_number(tokens));
    check_alignment(n).map_err(Misread::Number)
}

/// The least multiple of a number that isn't below an address.
#[tactic(auto, using(crate::proofs::Multiples::is_aligned))]
fn aligned(address: u32, to: u32) -> u32
    requires address { address ≤ MAX_MEMORY }
    requires to { (0 < to) × (to ≤ 64) }
    ensures { result ≡ aligned address to }
{
    address.next_multiple_of(to)
}

/// A name and its value.
fn take_definition<'x, 'a>(tokens: &'x [Lexeme<'a>]) -> Whole<'x, 'a, (Lexeme<'a>, Literal)>
    ensures definition { whole (λ d. (lexeme d.0, d.1)) result ≡ take_definition (lexemes tokens.now) }
    ensures range { IfOk result (λ d. IfSome d.1.value (λ n. is_number n ≡ true)) }
{
    let (name, tokens) = take_kind(TokenKind::Word, tokens)?;
    let (_, tokens) = take_kind(TokenKind::Comma, tokens)?;
    let (n, tokens) = taken!(take_literal(tokens));
    whole!((name, n), tokens)
}

/// The definition of a name.
fn read_definition<'a>(tokens: &[Lexeme<'a>]) -> Result<Statement<'a>, Misread>
    ensures read { IsRead result (Asks (read_definition (take_definition (lexemes tokens.now)))) }
    ensures sound { IfOk result (λ does. (in_data : Bool) → IsSound in_data does) }
{
    let (name, n) = taken!(take_definition(tokens));
    match check_value(n) {
        Ok(value) => Ok(Statement::Define(name, value)),
        Err(column) => Err(Misread::Number(column)),
    }
}

/// A name, which no other source asks for: it has no effect.
#[tactic(auto, unfolding(asm_operands::specs::Operands::take_kind))]
fn read_global(tokens: &[Lexeme<'_>]) -> Result<(), Misread>
    ensures { IsPlainRead result Nothing (then_take (take_kind Word (lexemes tokens.now)) (λ _ left. ends Nothing left)) }
{
    let (_, tokens) = take_kind(TokenKind::Word, tokens)?;
    read_end(tokens)
}

/// The line's end.
fn read_end(tokens: &[Lexeme<'_>]) -> Result<(), Misread>
    ensures { (does : _) → IsPlainRead result does (ends does (lexemes tokens.now)) }
{
    match tokens {
        [] => Ok(()),
        _ => Err(Misread::from(tokens)),
    }
}

/// Numbers of data.
#[tactic(auto, using(crate::proofs::Taken::numbers_read))]
fn read_numbers<'a>(
    alloc: Global,
    width: Width,
    tokens: &[Lexeme<'a>],
) -> Result<Statement<'a>, Misread>
    ensures read { IsRead result (Asks (read_numbers (bytes_in width) (fits_in width) (lexemes tokens.now))) }
    ensures sound { IfOk result (λ does. (in_data : Bool) → (in_data ≡ false → width ≡ Width.Word) → IsSound in_data does) }
{
    let numbers = match take_exprs(alloc, tokens) {
        Ok(numbers) => numbers,
        Err(Stop::Misfit(left)) => return Err(Misread::from(left)),
        Err(Stop::NoMemory) => return Err(Misread::NoMemory),
    };
    check_numbers(width, &numbers).map_err(Misread::Number)?;
    Ok(Statement::Numbers { width, numbers })
}
