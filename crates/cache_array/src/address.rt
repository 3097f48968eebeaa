//! Where an address and a line lead. Lines and sets are powers of two, so shifts and masks find it without a division.
ghost use Rattle.std.specs.Prelude.{◌≡◌};
ghost use Rattle.pmsi_model.specs.Geometry.{IsGeometry, line_of, set_of};
ghost use Rattle.cache_array.specs.Cache.{word_place};

use pmsi_model::Geometry;

/// The line that holds the byte at an address.
pub fn line_of(shape: &Geometry, address: u32) -> u32
    requires { IsGeometry shape.now }
    ensures { result ≡ line_of shape.now address }
{
    (address / 4) >> shape.line_words.trailing_zeros()
}

/// The place of the word at an address among those of its line.
pub fn word_of(shape: &Geometry, address: u32) -> usize
    requires { IsGeometry shape.now }
    ensures { result ≡ word_place shape.now address }
{
    ((address / 4) & (shape.line_words - 1)) as usize
}

/// The set in which a line is cached.
pub fn set_of(shape: &Geometry, line: u32) -> u32
    requires { IsGeometry shape.now }
    ensures { result ≡ set_of shape.now line }
{
    line & (shape.sets - 1)
}
