//! Images as bytes.
ghost use Rattle.std.specs.Prelude.{◌≤◌, length};
ghost use Rattle.pmsi_model.specs.declared.limits.TheConstants.{MAX_FILE_BYTES};

use image_file::{ImageFault, read_image};
use std::alloc::Global;
use std::process::Abort;
use std::test::*;

/// Three words, and no piece.
const THREE_WORDS: &[u8; 28] = b"PMSIIMG1\x03\0\0\0\0\0\0\0\x93\x02\x70\0\x13\0\0\0\x73\0\0\0";

/// A word, a piece of two bytes at 4, and a piece of one byte that ends with memory.
const TWO_PIECES: &[u8; 39] =
    b"PMSIIMG1\x01\0\0\0\x02\0\0\0\x73\0\0\0\x04\0\0\0\x02\0\0\0\xaa\xbb\xff\xff\x0f\0\x01\0\0\0\xcc";

fn finds(rt: &impl Abort, alloc: Global, bytes: &[u8], fault: Option<ImageFault>)
    requires { length bytes.now ≤ MAX_FILE_BYTES }
{
    assert_eq!(rt; read_image(alloc, bytes).err(), fault);
}

#[test]
fn finds_faults_of_header_and_words(rt: HostRuntime) {
    finds(&rt, rt.alloc(), THREE_WORDS, None);
    finds(
        &rt,
        rt.alloc(),
        &THREE_WORDS[..27],
        Some(ImageFault::Short(28, 27)),
    );
    finds(
        &rt,
        rt.alloc(),
        b"PMSIIMG1\x03\0\0\0\0\0\0\0\x93\x02\x70\0\x13\0\0\0\x73\0\0\0\0",
        Some(ImageFault::Extra(28)),
    );
    finds(
        &rt,
        rt.alloc(),
        &THREE_WORDS[..15],
        Some(ImageFault::Short(16, 15)),
    );
    finds(
        &rt,
        rt.alloc(),
        b"PMSIIMG2\x03\0\0\0\0\0\0\0",
        Some(ImageFault::Magic),
    );
    finds(
        &rt,
        rt.alloc(),
        b"PMSIIMG1\x01\x40\0\0\0\0\0\0",
        Some(ImageFault::Limit(16_385)),
    );
    finds(
        &rt,
        rt.alloc(),
        b"PMSIIMG1\0\x40\0\0\0\0\0\0",
        Some(ImageFault::Short(65_552, 16)),
    );
}

#[test]
fn takes_as_many_words_as_the_limit(rt: HostRuntime) -> Result<(), Fail> {
    let mut bytes = vec![in rt.alloc(); 0u8; 65_552]?;
    bytes[..16].copy_from_slice(b"PMSIIMG1\0\x40\0\0\0\0\0\0");
    let image = read_image(rt.alloc(), &bytes)
        .ok()
        .ok_or("as many words as the limit are an image")?;
    assert_eq!(rt; image.text().len(), 16_384);
    Ok(())
}

#[test]
fn finds_faults_of_pieces(rt: HostRuntime) {
    finds(
        &rt,
        rt.alloc(),
        &TWO_PIECES[..27],
        Some(ImageFault::Short(28, 27)),
    );
    finds(
        &rt,
        rt.alloc(),
        &TWO_PIECES[..29],
        Some(ImageFault::Short(30, 29)),
    );
    finds(
        &rt,
        rt.alloc(),
        &TWO_PIECES[..30],
        Some(ImageFault::Short(38, 30)),
    );
    finds(
        &rt,
        rt.alloc(),
        &TWO_PIECES[..38],
        Some(ImageFault::Short(39, 38)),
    );
    // a piece of no bytes, and one of more than memory has
    finds(
        &rt,
        rt.alloc(),
        b"PMSIIMG1\0\0\0\0\x01\0\0\0\x04\0\0\0\0\0\0\0",
        Some(ImageFault::Limit(0)),
    );
    finds(
        &rt,
        rt.alloc(),
        b"PMSIIMG1\0\0\0\0\x01\0\0\0\x04\0\0\0\x01\0\x10\0",
        Some(ImageFault::Limit(1_048_577)),
    );
    // past the greatest memory, by a byte and by far
    finds(
        &rt,
        rt.alloc(),
        b"PMSIIMG1\0\0\0\0\x01\0\0\0\xff\xff\x0f\0\x02\0\0\0",
        Some(ImageFault::Range(0x000f_ffff)),
    );
    finds(
        &rt,
        rt.alloc(),
        b"PMSIIMG1\0\0\0\0\x01\0\0\0\xff\xff\xff\xff\x01\0\0\0",
        Some(ImageFault::Range(0xffff_ffff)),
    );
    // one byte at 4, and a piece that touches it, lies on it, stands before it, or leaves a gap
    finds_second(&rt, rt.alloc(), 5, Some(ImageFault::Order(1)));
    finds_second(&rt, rt.alloc(), 4, Some(ImageFault::Order(1)));
    finds_second(&rt, rt.alloc(), 0, Some(ImageFault::Order(1)));
    finds_second(&rt, rt.alloc(), 6, None);
}

/// Reads an image of one byte at 4 and one byte at the address.
fn finds_second(rt: &impl Abort, alloc: Global, address: u8, fault: Option<ImageFault>) {
    let mut bytes = *b"PMSIIMG1\0\0\0\0\x02\0\0\0\x04\0\0\0\x01\0\0\0\xaa\0\0\0\0\x01\0\0\0\xbb";
    bytes[25] = address;
    finds(rt, alloc, &bytes, fault);
}

#[test]
fn shows_faults(rt: HostRuntime) -> Result<(), Fail> {
    let text = format!(in rt.alloc();
        "{}, {}",
        ImageFault::Short(28, 27),
        ImageFault::Range(1_048_576)
    )?;
    assert_eq!(rt; text.as_str(), "short 28 27, range 0x00100000");
    Ok(())
}
