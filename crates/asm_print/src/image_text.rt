//! Prints images.
ghost use Rattle.std.specs.Prelude.{◌≡◌, ◌+◌, ◌*◌, ◌/◌, ◌<◌, ◌≤◌, length, ◌++◌, codes, OnOk, IfOk};
ghost use Rattle.std.specs.List.{flat_map};
ghost use Rattle.std.specs.Str.{IsUtf8};
ghost use Rattle.pmsi_model.specs.declared.limits.TheConstants.{MAX_TEXT_WORDS, MAX_FILE_BYTES};
ghost use Rattle.pmsi_model.specs.Instruction.{instr_of};
ghost use Rattle.asm_parse.specs.Assembly.{IsAssembled};
ghost use Rattle.asm_print.specs.InstrText.{instr_text, word_text};
ghost use Rattle.asm_print.specs.ListingText.{text_of, text_line, text_lines, byte_text, byte_line, byte_lines, piece_text, data_text, listing_text};

use crate::printer::print_instr;
use arrayvec::ArrayVec;
use pmsi_model::{Image, Instr, NoMemory, Piece};
use rv_decode::decode;
use std::alloc::{AllocError, Global};
use text_out::{push_hex, push_hex_byte, push_newline, push_text};

const BYTES_PER_LINE: usize = 16;

/// Appends a word as a number.
fn push_word_directive(out: &mut Vec<u8>, word: u32) -> Result<(), AllocError>
    ensures { OnOk result (out.new.items ≡ out.old.items ++ word_text word) }
{
    push_text(out, ".word ")?;
    push_hex(out, word)
}

fn push_instr(out: &mut Vec<u8>, pc: u32, instr: Instr) -> Result<(), AllocError>
    ensures { OnOk result (out.new.items ≡ out.old.items ++ instr_text instr pc) }
{
    let mut line = ArrayVec::new();
    print_instr(instr, pc, &mut line);
    out.extend_from_slice(line.as_slice())
}

fn push_word(out: &mut Vec<u8>, pc: u32, word: u32) -> Result<(), AllocError>
    ensures { OnOk result (out.new.items ≡ out.old.items ++ text_of (instr_of word) pc word) }
{
    match decode(word) {
        Some(instr) => push_instr(out, pc, instr),
        None => push_word_directive(out, word),
    }
}

#[tactic(auto, unfolding(crate::specs::ListingText::text_line))]
fn push_text_line(out: &mut Vec<u8>, pc: u32, word: u32) -> Result<(), AllocError>
    ensures { OnOk result (out.new.items ≡ out.old.items ++ text_line pc word) }
{
    push_word(out, pc, word)?;
    push_newline(out)
}

fn push_text_lines(out: &mut Vec<u8>, words: &[u32]) -> Result<(), AllocError>
    requires { length words.now ≤ MAX_TEXT_WORDS }
    ensures { OnOk result (out.new.items ≡ out.old.items ++ text_lines 0 words.now) }
{
    for (place, word) in words.iter().enumerate() {
        push_text_line(out, 4 * place as u32, *word)?;
    }
    Ok(())
}

fn push_byte(out: &mut Vec<u8>, byte: u8) -> Result<(), AllocError>
    ensures { OnOk result (out.new.items ≡ out.old.items ++ byte_text byte) }
{
    push_text(out, "0x")?;
    push_hex_byte(out, byte)
}

fn push_next_byte(out: &mut Vec<u8>, byte: u8) -> Result<(), AllocError>
    ensures { OnOk result (out.new.items ≡ out.old.items ++ codes ", " ++ byte_text byte) }
{
    push_text(out, ", ")?;
    push_byte(out, byte)
}

fn push_next_bytes(out: &mut Vec<u8>, bytes: &[u8]) -> Result<(), AllocError>
    ensures { OnOk result (out.new.items ≡ out.old.items ++ flat_map (λ byte. codes ", " ++ byte_text byte) bytes.now) }
{
    for byte in bytes {
        push_next_byte(out, *byte)?;
    }
    Ok(())
}

fn push_byte_line(out: &mut Vec<u8>, bytes: &[u8]) -> Result<(), AllocError>
    requires { 0 < length bytes.now }
    ensures { OnOk result (out.new.items ≡ out.old.items ++ byte_line bytes.now) }
{
    push_text(out, ".byte ")?;
    push_byte(out, bytes[0])?;
    push_next_bytes(out, &bytes[1..])?;
    push_newline(out)
}

fn push_byte_lines(out: &mut Vec<u8>, bytes: &[u8]) -> Result<(), AllocError>
    ensures { OnOk result (out.new.items ≡ out.old.items ++ byte_lines ((length bytes.now + 15) / 16) bytes.now) }
{
    let mut rest = bytes;
    while !rest.is_empty() {
        let (line, after) = rest.split_at(BYTES_PER_LINE.min(rest.len()));
        push_byte_line(out, line)?;
        rest = after;
    }
    Ok(())
}

#[tactic(auto, unfolding(crate::specs::ListingText::piece_text))]
fn push_piece(out: &mut Vec<u8>, piece: &Piece) -> Result<(), AllocError>
    ensures { OnOk result (out.new.items ≡ out.old.items ++ piece_text piece.now) }
{
    push_text(out, ".org ")?;
    push_hex(out, piece.address)?;
    push_newline(out)?;
    push_byte_lines(out, piece.bytes.as_slice())
}

fn push_pieces(out: &mut Vec<u8>, pieces: &[Piece]) -> Result<(), AllocError>
    ensures { OnOk result (out.new.items ≡ out.old.items ++ flat_map piece_text pieces.now) }
{
    for piece in pieces {
        push_piece(out, piece)?;
    }
    Ok(())
}

fn push_data(out: &mut Vec<u8>, pieces: &[Piece]) -> Result<(), AllocError>
    ensures { OnOk result (out.new.items ≡ out.old.items ++ data_text pieces.now) }
{
    if pieces.is_empty() {
        return Ok(());
    }
    push_text(out, ".data\n")?;
    push_pieces(out, pieces)
}

/// The assembly text of an image, which assembles to it.
#[tactic(auto, unfolding(crate::specs::ListingText::listing_text))]
pub fn listing_of(alloc: Global, image: &Image) -> Result<Vec<u8>, NoMemory>
    ensures text { IfOk result (λ text. text.items ≡ listing_text image.now) }
    ensures assembles { IfOk result (λ text. IsAssembled text.items image.now) }
    ensures within { IfOk result (λ text. length text.items ≤ MAX_FILE_BYTES) }
    ensures utf8 { IfOk result (λ text. IsUtf8 text.items) }
{
    let mut out = Vec::new(alloc);
    push_text(&mut out, ".text\n")?;
    push_text_lines(&mut out, image.text())?;
    push_data(&mut out, image.pieces())?;
    Ok(out)
}
