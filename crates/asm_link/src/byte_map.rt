//! The bytes that data names.

ghost use Rattle.std.specs.Prelude.{◌≡◌, ℕ, ◌+◌, ◌≤◌, ◌-◌, ◌<◌, length, slice_index, is_some, Option, Some, None, IfOk, OnOk};
ghost use Rattle.std.specs.List.{All, find, range_with_len};
ghost use Rattle.std.specs.Option.{IsSome};
ghost use Rattle.pmsi_model.specs.declared.limits.TheConstants.{MAX_MEMORY};
ghost use Rattle.pmsi_model.specs.Image.{ArePieces};
ghost use Rattle.asm_link.specs.Bytes.{byte_of, piece_byte, NamesBytes, Overwrites};

use pmsi_model::limits::MAX_MEMORY;
use pmsi_model::{Bytes, Piece};
use std::alloc::{AllocError, Global};
use std::marker::Model;

/// The bytes that data names, by their addresses: none where no byte is named. There is room up to the greatest address.
#[derive(Debug, Drop)]
pub(crate) struct ByteMap {
    bytes: Vec<Option<u8>>,
}

impl Model for ByteMap {
    ghost use Rattle.std.specs.Prelude.{ℕ, ◌≤◌, List, Option, length};
    ghost use Rattle.pmsi_model.specs.declared.limits.TheConstants.{MAX_MEMORY};

    ghost Value = { List (Option ℕ) };

    ghost view = { λ a. a.bytes.items };

    ghost invariant = { λ a. length a.bytes.items ≤ MAX_MEMORY };
}

impl ByteMap {
    /// No bytes.
    #[tactic(auto, unfolding(crate::specs::Bytes::byte_of))]
    pub(crate) fn new(alloc: Global) -> ByteMap
        ensures { (address : ℕ) → byte_of result address ≡ None }
    {
        ByteMap {
            bytes: Vec::new(alloc),
        }
    }

    /// The byte at an address.
    #[tactic(auto, unfolding(crate::specs::Bytes::byte_of))]
    pub(crate) fn get(&self, address: u32) -> Option<u8>
        ensures { result ≡ byte_of self.now address }
    {
        self.bytes.get(address as usize).copied().flatten()
    }

    /// The first address of a range that has a byte.
    #[tactic(auto, unfolding(crate::specs::Bytes::byte_of))]
    pub(crate) fn first_named(&self, from: u32, count: u32) -> Option<u32>
        requires { from + count ≤ MAX_MEMORY }
        ensures { result ≡ find (λ address. is_some (byte_of self.now address)) (range_with_len from count) }
    {
        (from..from + count).find(|address| self.get(*address).is_some())
    }

    /// Names the bytes of a range: they are 0 so far.
    pub(crate) fn name(&mut self, from: u32, count: u32) -> Result<(), AllocError>
        requires { from + count ≤ MAX_MEMORY }
        ensures { OnOk result (NamesBytes self.old self.new from count) }
    {
        let start = from as usize;
        let end = start + count as usize;
        self.bytes.resize(self.bytes.len().max(end), None)?;
        self.bytes[start..end].fill(Some(0));
        Ok(())
    }

    /// Puts bytes where some are named.
    pub(crate) fn put_bytes(&mut self, at: u32, bytes: &[u8])
        requires { (k : ℕ) → k < length bytes.now → IsSome (byte_of self.old (at + k)) }
        ensures { Overwrites self.old self.new at bytes.now }
    {
        for (offset, byte) in bytes.iter().enumerate() {
            self.bytes[at as usize + offset] = Some(*byte);
        }
    }

    /// The pieces of an image: the longest runs of bytes.
    pub(crate) fn pieces(&self, alloc: Global) -> Result<Vec<Piece>, AllocError>
        ensures pieces { IfOk result (λ v. ArePieces 0 v.items) }
        ensures bytes { IfOk result (λ v. All (λ piece. All (λ byte. byte < 256) piece.bytes) v.items) }
        ensures memory { IfOk result (λ v. (address : ℕ) → piece_byte v.items address ≡ byte_of self.now address) }
    {
        let count = self.bytes.len() as u32;
        let mut pieces = Vec::new(alloc);
        let mut from = 0;
        while let Some(address) = self.first_named(from, count - from) {
            let run = self.run_at(alloc, address)?;
            from = address + run.len() as u32;
            pieces.push(piece_of(address, run))?;
        }
        Ok(pieces)
    }

    /// The bytes from an address on, up to the first place that has none.
    #[tactic(auto, using(crate::proofs::NamedBytes::get_from), unfolding(crate::specs::Bytes::byte_of))]
    fn run_at(&self, alloc: Global, address: u32) -> Result<Vec<u8>, AllocError>
        requires { address ≤ length self.now }
        ensures within { IfOk result (λ run. address + length run.items ≤ length self.now) }
        ensures bytes { IfOk result (λ run. (k : ℕ) → k < length run.items → byte_of self.now (address + k) ≡ Some (slice_index run.items k)) }
        ensures stops { IfOk result (λ run. byte_of self.now (address + length run.items) ≡ None) }
    {
        self.bytes[address as usize..]
            .iter()
            .map_while(|byte| *byte)
            .collect(alloc)
    }
}

/// The piece of some bytes from an address on.
fn piece_of(address: u32, bytes: Vec<u8>) -> Piece
    ensures piece { result ≡ record { address = address; bytes = bytes.items } }
    ensures bytes { All (λ byte. byte < 256) result.bytes }
{
    Piece {
        address,
        bytes: Bytes::from_vec(bytes),
    }
}
