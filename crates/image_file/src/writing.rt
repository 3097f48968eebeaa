//! Writes images.

ghost use Rattle.std.specs.Prelude.{◌≡◌, ◌^◌, ◌<◌, ◌++◌, length, OnOk, IfOk};
ghost use Rattle.std.specs.List.{All, flat_map};
ghost use Rattle.image_file.specs.Format.{number_bytes, piece_bytes, image_bytes};

use byteorder::{ByteOrder, LittleEndian};
use pmsi_model::{Image, NoMemory, Piece};
use std::alloc::{AllocError, Global};

#[tactic(auto, unfolding(crate::specs::Format::number_bytes))]
fn push_number(out: &mut Vec<u8>, number: u32) -> Result<(), AllocError>
    ensures { OnOk result (out.new.items ≡ out.old.items ++ number_bytes number) }
{
    let mut bytes = [0; 4];
    LittleEndian::write_u32(&mut bytes, number);
    out.extend_from_slice(&bytes)
}

fn push_words(out: &mut Vec<u8>, words: &[u32]) -> Result<(), AllocError>
    ensures { OnOk result (out.new.items ≡ out.old.items ++ flat_map number_bytes words.now) }
{
    for word in words {
        push_number(out, *word)?;
    }
    Ok(())
}

#[tactic(auto, unfolding(crate::specs::Format::piece_bytes))]
fn push_piece(out: &mut Vec<u8>, piece: &Piece) -> Result<(), AllocError>
    requires { length piece.now.bytes < 2 ^ 32 }
    ensures { OnOk result (out.new.items ≡ out.old.items ++ piece_bytes piece.now) }
{
    let bytes = piece.bytes.as_slice();
    push_number(out, piece.address)?;
    push_number(out, bytes.len() as u32)?;
    out.extend_from_slice(bytes)
}

fn push_pieces(out: &mut Vec<u8>, pieces: &[Piece]) -> Result<(), AllocError>
    requires { All (λ piece. length piece.bytes < 2 ^ 32) pieces.now }
    ensures { OnOk result (out.new.items ≡ out.old.items ++ flat_map piece_bytes pieces.now) }
{
    for piece in pieces {
        push_piece(out, piece)?;
    }
    Ok(())
}

/// The bytes of an image, from which `read_image` reads it.
#[tactic(auto, unfolding(crate::specs::Format::image_bytes))]
pub fn write_image(alloc: Global, image: &Image) -> Result<Vec<u8>, NoMemory>
    ensures { IfOk result (λ bytes. bytes.items ≡ image_bytes image.now) }
{
    let (text, pieces) = (image.text(), image.pieces());
    let mut out = Vec::new(alloc);
    out.extend_from_slice(b"PMSIIMG1")?;
    push_number(&mut out, text.len() as u32)?;
    push_number(&mut out, pieces.len() as u32)?;
    push_words(&mut out, text)?;
    push_pieces(&mut out, pieces)?;
    Ok(out)
}
