//! The owner of each line.
ghost use Rattle.std.specs.Prelude.{◌≡◌, ℕ, ◌<◌, length, slice_index_or, slice_set, Option, None, Some, if◌then◌else◌, IfOk};
ghost use Rattle.pmsi_model.specs.Machine.{is_write};

use pmsi_model::{Kind, NoMemory};
use std::alloc::Global;
use std::marker::Model;

/// An owner, or none, by the number of the line.
#[derive(Drop)]
pub struct Owners {
    items: Vec<Option<u32>>,
}

impl Model for Owners {
    ghost use Rattle.std.specs.Prelude.{ℕ, List, Option};

    ghost Value = { List (Option ℕ) };

    ghost view = { λ a. a.items.items };
}

impl Owners {
    /// So many lines, with no owner.
    pub fn none(alloc: Global, count: usize) -> Result<Owners, NoMemory>
        ensures length { IfOk result (λ o. length o ≡ count) }
        ensures none { IfOk result (λ o. (line : ℕ) → slice_index_or o line None ≡ None) }
    {
        Ok(Owners {
            items: vec![in alloc; None; count]?,
        })
    }

    /// The owner of a line.
    pub fn of_line(&self, line: u32) -> Option<u32>
        ensures { result ≡ slice_index_or self.now line None }
    {
        match self.items.get(line as usize) {
            Some(owner) => *owner,
            None => None,
        }
    }

    /// A line gets this owner.
    pub fn set(&mut self, line: u32, owner: Option<u32>)
        requires { line < length self.old }
        ensures { self.new ≡ slice_set self.old line owner }
    {
        self.items[line as usize] = owner;
    }

    /// A core whose request for a line is served owns it where that is a write.
    pub fn serve(&mut self, core: u32, line: u32, kind: Kind)
        requires { line < length self.old }
        ensures { self.new ≡ (if is_write kind then slice_set self.old line (Some core) else self.old) }
    {
        match kind {
            Kind::Read => (),
            Kind::Write => self.set(line, Some(core)),
        }
    }

    /// Equal owners.
    pub fn copy(&self, alloc: Global) -> Result<Owners, NoMemory>
        ensures { IfOk result (λ o. o ≡ self.now) }
    {
        Ok(Owners {
            items: Vec::from_slice(alloc, self.items.as_slice())?,
        })
    }
}
