//! Reads images.

ghost use Rattle.std.specs.Prelude.{◌≡◌, ◌≢◌, ◌⊎◌, ◌≤◌, length, Ok, Err, Some, None, IfOk, IfErr};
ghost use Rattle.pmsi_model.specs.declared.limits.TheConstants.{MAX_FILE_BYTES};
ghost use Rattle.pmsi_model.specs.Image.{ImageValue};
ghost use Rattle.image_file.specs.Format.{IsBytesOf};
ghost use Rattle.image_file.specs.declared.fault.ImageFault.{ImageFault};
ghost use Rattle.image_file.specs.Checks.{word_count, piece_count, text_end, header_checks, first_failing, fault_of, HasFault};
ghost use Rattle.image_file.specs.Reading.{words_in, pieces_in};

use crate::fault::ImageFault;
use crate::format::{HEADER_BYTES, need, number_at};
use crate::pieces::pieces_of;
use byteorder::{ByteOrder, LittleEndian};
use pmsi_model::limits::MAX_TEXT_WORDS;
use pmsi_model::{Image, Pieces, Words};
use std::alloc::{AllocError, Global};

/// What an image's header says.
#[derive(Clone, Copy)]
struct Header {
    words: u32,
    pieces: u32,
    /// Where the words end.
    text_end: u32,
}

/// Checks the header, and that the words are there.
#[tactic(auto, using(std::proofs::lemmas::Bool::Decides::nat_tests), unfolding(crate::specs::Checks::header_checks))]
fn header_of(bytes: &[u8]) -> Result<Header, ImageFault>
    requires { length bytes.now ≤ MAX_FILE_BYTES }
    ensures ok { IfOk result (λ header. (first_failing (header_checks bytes.now) ≡ None) × (text_end bytes.now ≤ length bytes.now)
        × (header.words ≡ word_count bytes.now) × (header.pieces ≡ piece_count bytes.now) × (header.text_end ≡ text_end bytes.now)) }
    ensures err { IfErr result (λ fault. first_failing (header_checks bytes.now) ≡ Some fault) }
{
    need(bytes, HEADER_BYTES)?;
    if !bytes.starts_with(b"PMSIIMG1") {
        return Err(ImageFault::Magic);
    }
    let words = number_at(bytes, 8);
    if words > MAX_TEXT_WORDS {
        return Err(ImageFault::Limit(words));
    }
    let text_end = HEADER_BYTES + 4 * words;
    need(bytes, text_end)?;
    Ok(Header {
        words,
        pieces: number_at(bytes, 12),
        text_end,
    })
}

/// Reads the words.
fn words_of(alloc: Global, bytes: &[u8], header: Header) -> Result<Vec<u32>, AllocError>
    requires words { header.words ≡ word_count bytes.now }
    requires end { (header.text_end ≡ text_end bytes.now) × (header.text_end ≤ length bytes.now) }
    ensures { IfOk result (λ words. words.items ≡ words_in bytes.now) }
{
    let mut words = vec![in alloc; 0; header.words as usize]?;
    let text = &bytes[HEADER_BYTES as usize..header.text_end as usize];
    LittleEndian::read_u32_into(text, &mut words);
    Ok(words)
}

/// Reads an image's words and its pieces.
fn parts_of(alloc: Global, bytes: &[u8]) -> Result<(Words, Pieces), ImageFault>
    requires { length bytes.now ≤ MAX_FILE_BYTES }
    ensures ok { IfOk result (λ parts. (fault_of bytes.now ≡ None) × (parts.0 ≡ words_in bytes.now) × (parts.1 ≡ pieces_in bytes.now)) }
    ensures err { IfErr result (λ fault. fault ≢ ImageFault.NoMemory → HasFault bytes.now fault) }
{
    let header = header_of(bytes)?;
    let words = words_of(alloc, bytes, header)?;
    let pieces = pieces_of(alloc, bytes, header.pieces, header.text_end)?;
    Ok((Words::from_vec(words), Pieces::from_vec(pieces)))
}

/// Reads an image from the bytes that `write_image` gives for it.
pub fn read_image(alloc: Global, bytes: &[u8]) -> Result<Image, ImageFault>
    requires { length bytes.now ≤ MAX_FILE_BYTES }
    // What is read is the image of these bytes, and a fault is that of the first check that fails.
    ensures image { IfOk result (λ image. IsBytesOf image bytes.now) }
    ensures fault { IfErr result (λ fault. fault ≢ ImageFault.NoMemory → HasFault bytes.now fault) }
    // The bytes of an image are read, and where a check fails there is its fault, unless memory runs out.
    ensures reads { (image : ImageValue) → IsBytesOf image bytes.now → (result ≡ Ok image) ⊎ (result ≡ Err ImageFault.NoMemory) }
    ensures fails { (fault : ImageFault) → HasFault bytes.now fault → (result ≡ Err fault) ⊎ (result ≡ Err ImageFault.NoMemory) }
{
    let (text, pieces) = parts_of(alloc, bytes)?;
    Ok(Image::new(text, pieces))
}
