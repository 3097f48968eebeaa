//! The bytes that an image's pieces name.

ghost use Rattle.std.specs.Prelude.{◌≡◌, ◌≤◌, ◌<◌, ◌∷◌, [], length};
ghost use Rattle.pmsi_model.specs.declared.limits.TheConstants.{MAX_MEMORY};
ghost use Rattle.pmsi_model.specs.Image.{ArePieces, end_of};
ghost use Rattle.job_text.specs.Joining.{byte_in};
ghost use Rattle.job_text.specs.Joins.{AreBelow, AreNamed, IsLeast, IsOther, IsBeyond, cell_at};

use pmsi_model::Piece;

/// The byte at an address.
pub(crate) fn byte_in(pieces: &[Piece], address: u32) -> Option<u8>
    ensures { result ≡ byte_in pieces.now address }
{
    for piece in pieces {
        if let Some(byte) = byte_of_piece(piece, address) {
            return Some(byte);
        }
    }
    None
}

fn byte_of_piece(piece: &Piece, address: u32) -> Option<u8>
    ensures { result ≡ byte_in (piece.now ∷ []) address }
{
    let index = address.checked_sub(piece.address)?;
    piece.bytes.as_slice().get(index as usize).copied()
}

/// The least address that isn't below the memory's size.
pub(crate) fn past_in(pieces: &[Piece], memory: u32) -> Option<u32>
    requires { ArePieces 0 pieces.now }
    ensures { IsLeast (λ address. IsBeyond memory address (byte_in pieces.now address)) result }
{
    for piece in pieces {
        if let Some(address) = past_in_piece(piece, memory) {
            return Some(address);
        }
    }
    None
}

fn past_in_piece(piece: &Piece, memory: u32) -> Option<u32>
    requires some { 0 < length piece.now.bytes }
    requires memory { end_of piece.now ≤ MAX_MEMORY }
    ensures { IsLeast (λ address. IsBeyond memory address (byte_in (piece.now ∷ []) address)) result }
{
    let end = piece.address + piece.bytes.as_slice().len() as u32;
    if end > memory {
        Some(piece.address.max(memory))
    } else {
        None
    }
}

/// Puts the bytes into their cells, but for those that have a byte.
pub(crate) fn name_pieces(cells: &mut Vec<Option<u8>>, pieces: &[Piece])
    requires { AreBelow (length cells.old.items) pieces.now }
    ensures { AreNamed cells.old.items cells.new.items pieces.now }
{
    for piece in pieces {
        name_piece(cells, piece);
    }
}

fn name_piece(cells: &mut Vec<Option<u8>>, piece: &Piece)
    requires { end_of piece.now ≤ length cells.old.items }
    ensures { AreNamed cells.old.items cells.new.items (piece.now ∷ []) }
{
    let mut address = piece.address as usize;
    for byte in piece.bytes.as_slice() {
        cells[address] = cells[address].or(Some(*byte));
        address += 1;
    }
}

/// The least address whose byte is another than that of its cell.
pub(crate) fn other_in(pieces: &[Piece], cells: &[Option<u8>]) -> Option<u32>
    requires pieces { ArePieces 0 pieces.now }
    requires below { AreBelow (length cells.now) pieces.now }
    ensures { IsLeast (λ address. IsOther (byte_in pieces.now address) (cell_at cells.now address)) result }
{
    for piece in pieces {
        if let Some(address) = other_in_piece(piece, cells) {
            return Some(address);
        }
    }
    None
}

fn other_in_piece(piece: &Piece, cells: &[Option<u8>]) -> Option<u32>
    requires memory { end_of piece.now ≤ MAX_MEMORY }
    requires below { end_of piece.now ≤ length cells.now }
    ensures { IsLeast (λ address. IsOther (byte_in (piece.now ∷ []) address) (cell_at cells.now address)) result }
{
    let mut address = piece.address;
    for byte in piece.bytes.as_slice() {
        if cells[address as usize] != Some(*byte) {
            return Some(address);
        }
        address += 1;
    }
    None
}
