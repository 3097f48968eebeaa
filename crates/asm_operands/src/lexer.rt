//! Cuts a line into tokens.

ghost use Rattle.std.specs.Prelude.{◌≡◌, ◌≢◌, ◌≤◌, ◌<◌, ◌==◌, length, Ok, Err, IfOk, IfErr};
ghost use Rattle.std.specs.List.{position, prefix_len};
ghost use Rattle.pmsi_model.specs.declared.limits.TheConstants.{MAX_FILE_BYTES};
ghost use Rattle.asm_operands.specs.Tokens.{is_name_byte, is_blank, kind_of, code_of, end_at, line_tokens};

use crate::fault::TokenFault;
use crate::token::{Token, TokenKind};
use pmsi_model::limits::MAX_FILE_BYTES;
use std::alloc::Global;

/// The tokens of a line, in order. A comment, from `#` on, has none. The fault is the first byte outside the comment that
/// is no blank and begins no token.
pub fn tokens(alloc: Global, line: &str) -> Result<Vec<Token>, TokenFault>
    requires { length line.now ≤ MAX_FILE_BYTES }
    ensures tokens { IfOk result (λ v. line_tokens line.now ≡ Ok v.items) }
    ensures fault { IfErr result (λ e. e ≢ TokenFault.NoMemory → line_tokens line.now ≡ Err e) }
{
    let code = code_of(line.as_bytes());
    let mut tokens = Vec::new(alloc);
    let mut place = 0;
    while place < code.len() {
        let byte = code[place];
        let end = end_at(code, place);
        if let Some(kind) = kind_of(byte) {
            tokens.push(Token {
                kind,
                start: place as u32,
                end: end as u32,
            })?;
        } else if !is_blank(byte) {
            return Err(TokenFault::Character(place as u32 + 1));
        }
        place = end;
    }
    Ok(tokens)
}

/// The line up to its comment.
#[tactic(auto, unfolding(crate::specs::Tokens::code_of))]
fn code_of(line: &[u8]) -> &[u8]
    ensures code { result.now ≡ code_of line.now }
    ensures within { length result.now ≤ length line.now }
{
    match comment_start(line) {
        Some(start) => &line[..start],
        None => line,
    }
}

/// Where the comment begins, if there is one.
fn comment_start(line: &[u8]) -> Option<usize>
    ensures { result ≡ position (λ b. b == 35) line.now }
{
    line.iter().position(|byte| *byte == b'#')
}

/// Where a token that begins at the place ends.
#[tactic(auto, unfolding(crate::specs::Tokens::end_at))]
fn end_at(code: &[u8], place: usize) -> usize
    requires { place < length code.now }
    ensures end { result ≡ end_at code.now place }
    ensures within { (place < result) × (result ≤ length code.now) }
{
    let run = name_run(&code[place..]);
    place + run.max(1)
}

/// How many name bytes stand at the front.
fn name_run(bytes: &[u8]) -> usize
    ensures count { result ≡ prefix_len is_name_byte bytes.now }
    ensures within { result ≤ length bytes.now }
{
    bytes.iter().take_while(|byte| is_name_byte(**byte)).count()
}

/// The kind of the token that begins with the byte, if one does.
#[tactic(auto, unfolding(crate::specs::Tokens::kind_of, crate::specs::Tokens::is_name_byte))]
fn kind_of(byte: u8) -> Option<TokenKind>
    ensures { result ≡ kind_of byte }
{
    let kind = match byte {
        b'0'..=b'9' => TokenKind::Number,
        b'A'..=b'Z' | b'a'..=b'z' | b'_' | b'.' => TokenKind::Word,
        b',' => TokenKind::Comma,
        b':' => TokenKind::Colon,
        b'(' => TokenKind::Open,
        b')' => TokenKind::Close,
        b'+' => TokenKind::Plus,
        b'-' => TokenKind::Minus,
        b'%' => TokenKind::Percent,
        _ => return None,
    };
    Some(kind)
}

/// Whether names have this byte: letters, digits, `_` and `.`.
#[tactic(auto, unfolding(crate::specs::Tokens::is_name_byte))]
fn is_name_byte(byte: u8) -> bool
    ensures { result ≡ is_name_byte byte }
{
    byte.is_ascii_alphanumeric() || byte == b'_' || byte == b'.'
}

/// Whether it is a space or a tab.
#[tactic(auto, unfolding(crate::specs::Tokens::is_blank))]
fn is_blank(byte: u8) -> bool
    ensures { result ≡ is_blank byte }
{
    byte == b' ' || byte == b'\t'
}
