//! Cuts bytes into lines, and lines into fields.

ghost use Rattle.std.specs.Prelude.{◌≡◌, ◌∷◌, [], ◌==◌, Some, None, IfSome, IfNone};
ghost use Rattle.std.specs.List.{position_or_len, slice_split};
ghost use Rattle.trace_text.specs.Parts.{parts_of};
ghost use Rattle.trace_text.specs.Reading.{first_line, is_last};

use std::marker::Model;

/// The parts that are left of bytes that are cut at each mark: one more than there are marks.
#[derive(Drop)]
pub(crate) struct Parts<'a> {
    mark: u8,
    rest: Option<&'a [u8]>,
}

impl<'a> Model for Parts<'a> {
    ghost use Rattle.std.specs.Prelude.{ℕ, List};
    ghost use Rattle.trace_text.specs.Parts.{parts_of};

    ghost Value = { List (List ℕ) };

    ghost view = { λ a. parts_of a.mark a.rest };
}

impl<'a> Parts<'a> {
    pub(crate) fn new(bytes: &'a [u8], mark: u8) -> Parts<'a>
        ensures { result ≡ slice_split (λ byte. byte == mark) bytes.now }
    {
        Parts {
            mark,
            rest: Some(bytes),
        }
    }

    /// Takes the first part off.
    pub(crate) fn next(&mut self) -> Option<&'a [u8]>
        ensures some { IfSome result (λ part. self.old ≡ part.now ∷ self.new) }
        ensures none { IfNone result (self.old ≡ []) }
    {
        let (part, rest) = cut(self.rest?, self.mark);
        self.rest = rest;
        Some(part)
    }

    /// Takes the first part off, where a mark stands behind it.
    pub(crate) fn next_line(&mut self) -> Option<&'a [u8]>
        ensures some { IfSome result (λ line. first_line self.old ≡ Some (line.now, self.new)) }
        ensures none { IfNone result (first_line self.old ≡ None) }
    {
        let (line, rest) = cut_line(self.rest?, self.mark)?;
        self.rest = Some(rest);
        Some(line)
    }

    /// Whether nothing is left but the end of the bytes, behind a mark.
    #[tactic(auto, using(crate::proofs::Cuts::over))]
    pub(crate) fn is_last(&self) -> bool
        ensures { result ≡ is_last self.now }
    {
        match self.rest {
            Some(rest) => rest.is_empty(),
            None => false,
        }
    }
}

/// The bytes up to the first mark, and those behind it.
#[tactic(auto, using(crate::proofs::Cuts::cut_whole))]
fn cut_line(bytes: &[u8], mark: u8) -> Option<(&[u8], &[u8])>
    ensures some { IfSome result (λ x. first_line (slice_split (λ byte. byte == mark) bytes.now)
        ≡ Some (x.0.now, slice_split (λ byte. byte == mark) x.1.now)) }
    ensures none { IfNone result (first_line (slice_split (λ byte. byte == mark) bytes.now) ≡ None) }
{
    match cut(bytes, mark) {
        (line, Some(rest)) => Some((line, rest)),
        (_, None) => None,
    }
}

/// The bytes up to the first mark, and those behind it where there is one.
fn cut(bytes: &[u8], mark: u8) -> (&[u8], Option<&[u8]>)
    ensures { slice_split (λ byte. byte == mark) bytes.now ≡ result.0.now ∷ parts_of mark result.1 }
{
    let end = part_len(bytes, mark);
    if end < bytes.len() {
        (&bytes[..end], Some(&bytes[end + 1..]))
    } else {
        (bytes, None)
    }
}

/// How many bytes stand in front of the first mark.
fn part_len(bytes: &[u8], mark: u8) -> usize
    ensures { result ≡ position_or_len (λ byte. byte == mark) bytes.now }
{
    bytes.iter().take_while(|byte| **byte != mark).count()
}
