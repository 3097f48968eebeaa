//! Pieces of text that are appended to the bytes written so far.
ghost use Rattle.std.specs.Prelude.{◌≡◌, ◌++◌, codes, decimal, OnOk};
ghost use Rattle.std.specs.Fmt.{signed_decimal};
ghost use Rattle.pmsi_model.specs.Lines.{hex_digits, hex_word, hex_bytes};

use crate::digits::{hex_byte, hex_word};
use std::alloc::AllocError;

/// Appends a text.
pub fn push_text(out: &mut Vec<u8>, text: &str) -> Result<(), AllocError>
    ensures { OnOk result (out.new.items ≡ out.old.items ++ text.now) }
{
    out.extend_from_slice(text.as_bytes())
}

/// Appends the end of a line.
pub fn push_newline(out: &mut Vec<u8>) -> Result<(), AllocError>
    ensures { OnOk result (out.new.items ≡ out.old.items ++ codes "\n") }
{
    push_text(out, "\n")
}

/// Appends a number in decimal digits.
pub fn push_number(out: &mut Vec<u8>, number: u64) -> Result<(), AllocError>
    ensures { OnOk result (out.new.items ≡ out.old.items ++ decimal number) }
{
    let mut buffer = itoa::Buffer::new();
    push_text(out, buffer.format(number))
}

/// Appends a number in decimal digits, after a `-` where it is below 0.
pub fn push_signed(out: &mut Vec<u8>, value: i64) -> Result<(), AllocError>
    ensures { OnOk result (out.new.items ≡ out.old.items ++ signed_decimal value) }
{
    let mut buffer = itoa::Buffer::new();
    push_text(out, buffer.format(value))
}

/// Appends a text, and after it a number in decimal digits.
pub fn push_field(out: &mut Vec<u8>, name: &str, number: u64) -> Result<(), AllocError>
    ensures { OnOk result (out.new.items ≡ out.old.items ++ name.now ++ decimal number) }
{
    push_text(out, name)?;
    push_number(out, number)
}

/// Appends `0x` and the eight hexadecimal digits of a word.
pub fn push_hex(out: &mut Vec<u8>, word: u32) -> Result<(), AllocError>
    ensures { OnOk result (out.new.items ≡ out.old.items ++ hex_word word) }
{
    out.extend_from_slice(&hex_word(word))
}

/// Appends a text, and after it `0x` and the eight hexadecimal digits of a word.
pub fn push_hex_field(out: &mut Vec<u8>, name: &str, word: u32) -> Result<(), AllocError>
    ensures { OnOk result (out.new.items ≡ out.old.items ++ name.now ++ hex_word word) }
{
    push_text(out, name)?;
    push_hex(out, word)
}

/// Appends the two hexadecimal digits of a byte, without `0x`.
pub fn push_hex_byte(out: &mut Vec<u8>, byte: u8) -> Result<(), AllocError>
    ensures { OnOk result (out.new.items ≡ out.old.items ++ hex_digits 2 byte) }
{
    out.extend_from_slice(&hex_byte(byte))
}

/// Appends two hexadecimal digits for each byte.
pub fn push_hex_bytes(out: &mut Vec<u8>, bytes: &[u8]) -> Result<(), AllocError>
    ensures { OnOk result (out.new.items ≡ out.old.items ++ hex_bytes bytes.now) }
{
    for byte in bytes {
        push_hex_byte(out, *byte)?;
    }
    Ok(())
}
