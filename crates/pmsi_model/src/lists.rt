//! Small types over `Vec` and `String` that contracts see as lists. Each takes a `Vec` or a `String` and gives it back
//! without memory.
ghost use Rattle.std.specs.Prelude.{◌≡◌, string_bytes};

use crate::image::Piece;
use std::marker::Model;

/// A list of values.
#[derive(Debug, Drop)]
pub struct Sequence<T> {
    items: Vec<T>,
}

impl<T> Model for Sequence<T> {
    ghost use Rattle.std.specs.Prelude.{List};
    ghost use Rattle.std.specs.Coded.{coded_list};

    ghost Value = { List T };

    ghost coded = { coded_list T.code };

    ghost view = { λ a. a.items.items };
}

impl<T> Sequence<T> {
    /// The list of these items, without a copy.
    pub fn from_vec(items: Vec<T>) -> Sequence<T>
        ensures { result ≡ items.items }
    {
        Sequence { items }
    }

    /// The items again, without a copy.
    pub fn into_vec(self) -> Vec<T>
        ensures { result.items ≡ self }
    {
        let Sequence { items } = self;
        items
    }

    /// The items, in order.
    pub fn as_slice(&self) -> &[T]
        ensures { result.now ≡ self.now }
    {
        self.items.as_slice()
    }
}

/// 32-bit words, as of a text.
pub type Words = Sequence<u32>;

/// Texts, one per core.
pub type WordLists = Sequence<Words>;

/// Bytes, as of a memory.
pub type Bytes = Sequence<u8>;

/// The pieces of an image.
pub type Pieces = Sequence<Piece>;

/// A text in UTF-8, seen as its bytes.
#[derive(Debug, Drop)]
pub struct Utf8Text {
    text: String,
}

impl Model for Utf8Text {
    ghost use Rattle.std.specs.Prelude.{ℕ, List};
    ghost use Rattle.std.specs.Prelude.{string_bytes};

    ghost Value = { List ℕ };

    ghost view = { λ a. string_bytes a.text };
}

impl Utf8Text {
    /// The text of this string, without a copy.
    pub fn from_string(text: String) -> Utf8Text
        ensures { result ≡ string_bytes text }
    {
        Utf8Text { text }
    }

    /// The string again, without a copy.
    pub fn into_string(self) -> String
        ensures { string_bytes result ≡ self }
    {
        let Utf8Text { text } = self;
        text
    }

    /// The text as a string slice.
    pub fn as_str(&self) -> &str
        ensures { result.now ≡ self.now }
    {
        self.text.as_str()
    }
}
