//! The pieces of an image.

ghost use Rattle.std.specs.Prelude.{◌≡◌, ◌≢◌, ◌+◌, ◌^◌, ◌<◌, ◌≤◌, length, Some, None, IfOk, IfErr};
ghost use Rattle.pmsi_model.specs.declared.limits.TheConstants.{MAX_FILE_BYTES};
ghost use Rattle.image_file.specs.Checks.{piece_count, text_end, address_of, length_of, piece_checks, pieces_checks, first_failing};
ghost use Rattle.image_file.specs.Reading.{IsAt, IsWhole, piece_at, pieces_in};

use crate::fault::ImageFault;
use crate::format::{PIECE_HEADER_BYTES, need, number_at};
use pmsi_model::limits::MAX_MEMORY;
use pmsi_model::{Bytes, Piece};
use std::alloc::Global;

/// Where a piece begins.
#[derive(Drop)]
struct Cursor {
    /// The piece's number, from 0 on.
    index: u32,
    /// Where its header begins.
    place: u32,
    /// The least address that it may have.
    least: u32,
}

/// What a piece's header says.
#[derive(Clone, Copy)]
struct Extent {
    address: u32,
    length: u32,
}

impl Cursor {
    /// Checks the piece.
    #[tactic(auto, using(std::proofs::lemmas::Bool::Decides::nat_tests), unfolding(crate::specs::Checks::piece_checks, crate::specs::Checks::piece_place, crate::specs::Checks::least_address))]
    fn extent(&self, bytes: &[u8]) -> Result<Extent, ImageFault>
        requires file { length bytes.now ≤ MAX_FILE_BYTES }
        requires at { IsAt bytes.now self.now }
        ensures ok { IfOk result (λ extent. (first_failing (piece_checks bytes.now self.now.index) ≡ None)
            × (extent.address ≡ address_of bytes.now self.now.index) × (extent.length ≡ length_of bytes.now self.now.index)) }
        ensures whole { IfOk result (λ _. IsWhole bytes.now self.now.index) }
        ensures err { IfErr result (λ fault. first_failing (piece_checks bytes.now self.now.index) ≡ Some fault) }
    {
        let start = self.place + PIECE_HEADER_BYTES;
        need(bytes, start)?;
        let address = number_at(bytes, self.place as usize);
        let length = number_at(bytes, self.place as usize + 4);
        if length == 0 || length > MAX_MEMORY {
            return Err(ImageFault::Limit(length));
        }
        if address > MAX_MEMORY - length {
            return Err(ImageFault::Range(address));
        }
        if address < self.least {
            return Err(ImageFault::Order(self.index));
        }
        need(bytes, start + length)?;
        Ok(Extent { address, length })
    }

    /// Reads the piece, and goes on to the next.
    #[tactic(auto, unfolding(crate::specs::Reading::piece_at))]
    fn piece(&mut self, alloc: Global, bytes: &[u8]) -> Result<Piece, ImageFault>
        requires file { length bytes.now ≤ MAX_FILE_BYTES }
        requires at { IsAt bytes.now self.old }
        requires count { self.old.index + 1 < 2 ^ 32 }
        ensures at { IfOk result (λ _. IsAt bytes.now self.new × (self.new.index ≡ self.old.index + 1)) }
        ensures ok { IfOk result (λ piece. (first_failing (piece_checks bytes.now self.old.index) ≡ None) × (piece ≡ piece_at bytes.now self.old.index)) }
        ensures err { IfErr result (λ fault. fault ≢ ImageFault.NoMemory → first_failing (piece_checks bytes.now self.old.index) ≡ Some fault) }
    {
        let extent = self.extent(bytes)?;
        let start = self.place + PIECE_HEADER_BYTES;
        let end = start + extent.length;
        let copy = Vec::from_slice(alloc, &bytes[start as usize..end as usize])?;
        self.index += 1;
        self.place = end;
        self.least = extent.address + extent.length + 1;
        Ok(Piece {
            address: extent.address,
            bytes: Bytes::from_vec(copy),
        })
    }
}

/// Reads the pieces that stand behind the words, down to the end of the bytes.
pub(crate) fn pieces_of(
    alloc: Global,
    bytes: &[u8],
    count: u32,
    place: u32,
) -> Result<Vec<Piece>, ImageFault>
    requires file { length bytes.now ≤ MAX_FILE_BYTES }
    requires count { count ≡ piece_count bytes.now }
    requires place { (place ≡ text_end bytes.now) × (place ≤ length bytes.now) }
    ensures ok { IfOk result (λ pieces. (first_failing (pieces_checks bytes.now) ≡ None) × (pieces.items ≡ pieces_in bytes.now)) }
    ensures err { IfErr result (λ fault. fault ≢ ImageFault.NoMemory → first_failing (pieces_checks bytes.now) ≡ Some fault) }
{
    let mut pieces = Vec::new(alloc);
    let mut cursor = Cursor {
        index: 0,
        place,
        least: 0,
    };
    for _ in 0..count {
        pieces.push(cursor.piece(alloc, bytes)?)?;
    }
    if (cursor.place as usize) < bytes.len() {
        return Err(ImageFault::Extra(cursor.place));
    }
    Ok(pieces)
}
