//! A list of files, and the one that is open.
ghost use Rattle.std.specs.Prelude.{◌≡◌, IsOk, IsErr, IsSome, IsSomeAnd, MatchOption, string_bytes};
ghost use Rattle.std.specs.List.{position};
ghost use Rattle.std.specs.Str.{bytes_eq};

use crate::Failed;
use std::marker::Model;

/// The open file: its name, the place of its entry, and how many bytes were read.
#[derive(Debug, Drop)]
struct OpenFile {
    name: String,
    place: usize,
    read: usize,
}

/// Files by their names, and the one that is open, where one is.
#[derive(Debug, Drop)]
pub struct Shelf {
    list: Vec<(String, Vec<u8>)>,
    file: Option<OpenFile>,
    blamed: Option<String>,
    faults: u64,
}

impl Model for Shelf {
    ghost use Rattle.pmsi_outside.specs.Memory.{ShelfValue};
    ghost use Rattle.pmsi_outside.specs.Shelf.{shelf_value, IsPlace};

    ghost Value = { ShelfValue };

    ghost view = { λ a. shelf_value a.list.items a.file a.blamed a.faults };

    ghost invariant = { λ a. IsPlace a.list.items a.file };
}

/// The place of the first entry of this name.
fn place_of(list: &[(String, Vec<u8>)], name: &str) -> Option<usize>
    ensures { result ≡ position (λ entry. bytes_eq (string_bytes entry.0) name.now) list.now }
{
    list.iter().position(|entry| entry.0.as_str() == name)
}

impl Shelf {
    ghost use Rattle.pmsi_outside.specs.Memory.{entries_of, contents_of, new_shelf, opened, failed, read_call, Gives};

    /// No call has been made.
    pub fn new(list: Vec<(String, Vec<u8>)>) -> Shelf
        ensures { result ≡ new_shelf (entries_of list.items) }
    {
        Shelf {
            list,
            file: None,
            blamed: None,
            faults: 0,
        }
    }

    /// Opens the first entry of this name.
    pub fn open(&mut self, name: String) -> Result<(), Failed>
        ensures { MatchOption (contents_of self.old.entries (string_bytes name))
            ((IsErr result) × (self.new ≡ failed self.old (string_bytes name)))
            (λ bytes. (IsOk result) × (self.new ≡ opened self.old (string_bytes name) bytes)) }
    {
        match place_of(&self.list, &name) {
            Some(place) => {
                self.file = Some(OpenFile {
                    name,
                    place,
                    read: 0,
                });
                Ok(())
            }
            None => {
                self.fail(name);
                Err(Failed)
            }
        }
    }

    /// Closes the open file, and blames this name.
    pub fn fail(&mut self, name: String)
        ensures { self.new ≡ failed self.old (string_bytes name) }
    {
        self.file = None;
        self.blamed = Some(name);
        self.faults = self.faults.saturating_add(1);
    }

    /// Closes the open file, and blames it.
    pub fn fail_open(&mut self)
        requires { IsSome self.old.file }
        ensures { IsSomeAnd self.old.file (λ file. self.new ≡ failed self.old file.name) }
    {
        if let Some(file) = self.file.take() {
            self.fail(file.name);
        }
    }

    /// Gives the next bytes of the open file, at most `most`.
    pub fn read(&mut self, most: usize, buf: &mut [u8]) -> usize
        requires { IsSome self.old.file }
        ensures { IsSomeAnd self.old.file (Gives most self.old self.new (read_call buf.old buf.new result)) }
    {
        let Some(file) = &mut self.file else {
            unreachable!()
        };
        let rest = &self.list[file.place].1[file.read..];
        let count = most.min(buf.len()).min(rest.len());
        buf[..count].copy_from_slice(&rest[..count]);
        file.read += count;
        count
    }
}
