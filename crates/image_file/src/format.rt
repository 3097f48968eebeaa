//! Sizes of the format, and the reader of its numbers.

ghost use Rattle.std.specs.Prelude.{◌≡◌, ◌+◌, ◌<◌, ◌≤◌, length, IfOk, IfErr};
ghost use Rattle.pmsi_model.specs.declared.limits.TheConstants.{MAX_FILE_BYTES};
ghost use Rattle.image_file.specs.Checks.{number_at};

use crate::fault::ImageFault;
use byteorder::{ByteOrder, LittleEndian};

/// Bytes of an image's header: the magic, and the counts of words and of pieces.
pub(crate) const HEADER_BYTES: u32 = 16;

/// Bytes of a piece's header: its address and its length.
pub(crate) const PIECE_HEADER_BYTES: u32 = 8;

/// The number in the four bytes from a place on.
#[tactic(auto, unfolding(crate::specs::Checks::number_at))]
pub(crate) fn number_at(bytes: &[u8], place: usize) -> u32
    requires { place + 4 ≤ length bytes.now }
    ensures { result ≡ number_at bytes.now place }
{
    LittleEndian::read_u32(&bytes[place..])
}

/// Asks for as many bytes.
pub(crate) fn need(bytes: &[u8], needed: u32) -> Result<(), ImageFault>
    requires { length bytes.now ≤ MAX_FILE_BYTES }
    ensures ok { IfOk result (λ _. needed ≤ length bytes.now) }
    ensures err { IfErr result (λ fault. (length bytes.now < needed) × (fault ≡ ImageFault.Short needed (length bytes.now))) }
{
    let have = bytes.len() as u32;
    if have < needed {
        return Err(ImageFault::Short(needed, have));
    }
    Ok(())
}
