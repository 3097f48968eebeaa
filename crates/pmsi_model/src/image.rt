//! What a program is made of: a text, and the bytes that it gives to memory.
ghost use Rattle.std.specs.Prelude.{◌≡◌};

use crate::lists::{Bytes, Pieces, Words};
use std::marker::Model;

/// Bytes in a row, from an address on.
#[derive(Debug, Drop)]
pub struct Piece {
    pub address: u32,
    pub bytes: Bytes,
}

/// A program within the limits: its pieces aren't empty, stand in rising order with a gap between each two, and end
/// within the greatest memory.
#[derive(Debug, Drop)]
pub struct Image {
    text: Words,
    pieces: Pieces,
}

impl Model for Image {
    ghost use Rattle.pmsi_model.specs.Image.{ImageValue, IsImage};

    ghost Value = { ImageValue };

    ghost view = { λ a. record { text = a.text; pieces = a.pieces } };

    ghost invariant = { λ a. IsImage (record { text = a.text; pieces = a.pieces }) };
}

impl Image {
    ghost use Rattle.pmsi_model.specs.Image.{IsImage};

    /// An image of a text, in words, and pieces by rising address, with a gap between each two.
    pub fn new(text: Words, pieces: Pieces) -> Image
        requires { IsImage (record { text = text; pieces = pieces }) }
        ensures { result ≡ record { text = text; pieces = pieces } }
    {
        Image { text, pieces }
    }

    /// The text, in words; the first stands at address 0.
    pub fn text(&self) -> &[u32]
        ensures text { result.now ≡ self.now.text }
        ensures image { IsImage self.now }
    {
        self.text.as_slice()
    }

    /// The pieces of data, by rising address.
    pub fn pieces(&self) -> &[Piece]
        ensures pieces { result.now ≡ self.now.pieces }
        ensures image { IsImage self.now }
    {
        self.pieces.as_slice()
    }
}
