//! Reads a line by itself: what it is, or the first thing that is wrong.

ghost use Rattle.std.specs.Prelude.{◌≡◌, ◌≢◌, ℕ, ℤ, ◌≤◌, false, length, List, Some, IfOk, IfErr};
ghost use Rattle.pmsi_model.specs.declared.limits.TheConstants.{MAX_FILE_BYTES, MAX_MEMORY};
ghost use Rattle.asm_parse.specs.Mnemonics.{forms_named, take_forms};
ghost use Rattle.asm_parse.specs.Assembly.{Asks, at_line, asked, asked_forms, asked_directive, behind_labels, directive_named, is_label, labels_of, read_items};
ghost use Rattle.asm_operands.specs.Meanings.{lexeme, lexemes};
ghost use Rattle.asm_parse.specs.Items.{IsSound};
ghost use Rattle.asm_operands.specs.NameTable.{HasConstants};
ghost use Rattle.asm_parse.specs.Forms.{forms_of};
ghost use Rattle.asm_parse.specs.ReadLines.{IsReadAs, fault_of};
ghost use Rattle.asm_parse.specs.Readings.{IsRead};

use crate::checks::check_instrs;
use crate::directive::{directive_named, read_directive};
use crate::fault::{AsmCause, AsmFault};
use crate::instruction::take_instrs;
use crate::misread::Misread;
use crate::mnemonic::{Mnemonic, mnemonic_named};
use crate::place::Place;
use crate::statement::{Line, Statement};
use asm_operands::{Lexeme, Names, TokenFault, TokenKind, lexemes, taken};
use std::alloc::{AllocError, Global};

/// Reads the line of this number, from 1 on, in its place, with the names that the lines before define. It defines none
/// itself. A number beside a name, and an address past the greatest memory, are left to be judged later.
#[tactic(auto, using(crate::proofs::Misreads::strange_line, crate::proofs::Misreads::plain_line, crate::proofs::Misreads::done_line))]
pub fn read_line<'a>(
    alloc: Global,
    number: u32,
    line: &'a str,
    place: Place,
    names: &Names<'a>,
) -> Result<Line<'a>, AsmFault>
    requires line { length line.now ≤ MAX_FILE_BYTES }
    requires place { place.data_at ≤ MAX_MEMORY }
    ensures line { IfOk result (λ read. (equs : List (List ℕ × ℤ)) → HasConstants names.now equs → IsReadAs place equs line.now read) }
    ensures sound { IfOk result (λ read. IsSound place.in_data read.does) }
    ensures fault { IfErr result (λ e. e ≢ AsmFault.NoMemory → (equs : List (List ℕ × ℤ)) → HasConstants names.now equs →
        at_line number (fault_of place equs line.now) ≡ Some e) }
{
    let lexemes = match lexemes(alloc, line) {
        Ok(lexemes) => lexemes,
        Err(TokenFault::Character(column)) => {
            return Err(AsmFault::At(number, AsmCause::Character(column)));
        }
        Err(TokenFault::NoMemory) => return Err(AsmFault::NoMemory),
    };
    let (labels, tokens) = take_labels(alloc, &lexemes)?;
    match read_statement(alloc, tokens, place, names) {
        Ok(does) => Ok(Line { labels, does }),
        Err(misread) => Err(misread.at_line(number, line.len() as u32 + 1)),
    }
}

/// The labels that a line begins with, and what stands behind them.
#[tactic(auto, using(crate::proofs::Labels::few_tokens, crate::proofs::Labels::other_tokens), unfolding(crate::specs::Assembly::labels_of, crate::specs::Assembly::behind_labels))]
fn take_labels<'x, 'a>(
    alloc: Global,
    tokens: &'x [Lexeme<'a>],
) -> Result<(Vec<Lexeme<'a>>, &'x [Lexeme<'a>]), AllocError>
    ensures labels { IfOk result (λ taken. lexemes taken.0.items ≡ labels_of (lexemes tokens.now)) }
    ensures behind { IfOk result (λ taken. lexemes taken.1.now ≡ behind_labels (lexemes tokens.now)) }
{
    let mut labels = Vec::new(alloc);
    let mut rest = tokens;
    while let [first, second, behind @ ..] = rest {
        if !is_label(first, second) {
            break;
        }
        labels.push(*first)?;
        rest = behind;
    }
    Ok((labels, rest))
}

/// Whether a token with another one behind it is a label.
fn is_label(first: &Lexeme<'_>, second: &Lexeme<'_>) -> bool
    ensures { result ≡ is_label (lexeme first.now) (lexeme second.now) }
{
    first.kind == TokenKind::Word && second.kind == TokenKind::Colon
}

/// What a line asks for behind its labels.
#[tactic(auto, unfolding(crate::specs::Assembly::asked))]
fn read_statement<'a>(
    alloc: Global,
    tokens: &[Lexeme<'a>],
    place: Place,
    names: &Names<'a>,
) -> Result<Statement<'a>, Misread>
    requires { place.data_at ≤ MAX_MEMORY }
    ensures read { (equs : List (List ℕ × ℤ)) → HasConstants names.now equs → IsRead result (asked place equs (lexemes tokens.now)) }
    ensures sound { IfOk result (λ does. IsSound place.in_data does) }
{
    match tokens {
        [] => Ok(Statement::Nothing),
        [word, operands @ ..] if word.kind == TokenKind::Word => {
            read_operation(alloc, word, operands, place, names)
        }
        [other, ..] => Err(Misread::Word(other.column)),
    }
}

/// What a mnemonic or a directive asks for.
fn read_operation<'a>(
    alloc: Global,
    word: &Lexeme<'a>,
    tokens: &[Lexeme<'a>],
    place: Place,
    names: &Names<'a>,
) -> Result<Statement<'a>, Misread>
    requires { place.data_at ≤ MAX_MEMORY }
    ensures read { (equs : List (List ℕ × ℤ)) → HasConstants names.now equs →
        IsRead result (asked_forms place equs (lexeme word.now) (lexemes tokens.now) (forms_named word.now.text.now)) }
    ensures sound { IfOk result (λ does. IsSound place.in_data does) }
{
    match mnemonic_named(word.text) {
        Some(_) if place.in_data => Err(Misread::Operand(Some(word.column))),
        Some(mnemonic) => read_instrs(mnemonic, tokens, names),
        None => read_named_directive(alloc, word, tokens, place),
    }
}

/// What a mnemonic's operands say.
fn read_instrs<'a>(
    mnemonic: Mnemonic,
    tokens: &[Lexeme<'a>],
    names: &Names<'a>,
) -> Result<Statement<'a>, Misread>
    ensures read { (equs : List (List ℕ × ℤ)) → HasConstants names.now equs →
        IsRead result (Asks (read_items 4 (take_forms (forms_of mnemonic) equs (lexemes tokens.now)))) }
    ensures sound { IfOk result (λ does. IsSound false does) }
{
    let instrs = taken!(take_instrs(mnemonic, tokens, names));
    check_instrs(&instrs).map_err(Misread::Number)?;
    Ok(Statement::Instrs(instrs))
}

/// What a word asks for that is no mnemonic.
fn read_named_directive<'a>(
    alloc: Global,
    word: &Lexeme<'a>,
    tokens: &[Lexeme<'a>],
    place: Place,
) -> Result<Statement<'a>, Misread>
    requires { place.data_at ≤ MAX_MEMORY }
    ensures read { IsRead result (asked_directive place (lexeme word.now) (lexemes tokens.now) (directive_named word.now.text.now)) }
    ensures sound { IfOk result (λ does. IsSound place.in_data does) }
{
    match directive_named(word.text) {
        Some(directive) if directive.is_for_data() && !place.in_data => Err(Misread::Operand(Some(
            word.column,
        ))),
        Some(directive) => read_directive(alloc, directive, place, tokens),
        None => Err(Misread::Word(word.column)),
    }
}
