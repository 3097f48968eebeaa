//! The names that a source defines.

ghost use Rattle.std.specs.Prelude.{◌≡◌, ◌≢◌, ℕ, List, [], IfOk, IfErr, None, Some};
ghost use Rattle.asm_operands.specs.NameTable.{named, stored, constant_value};

use crate::number::Number;
use std::alloc::{AllocError, Global};
use std::collections::HashMap;
use std::marker::Model;

/// What a name stands for.
#[derive(Clone, Copy, Debug, PartialEq, Eq)]
pub struct Named {
    /// A label's address, in bytes, or the value that an `.equ` gives.
    pub value: Number,
    /// Whether an `.equ` defines it.
    pub constant: bool,
}

/// The names that were defined so far. Contracts see them as a list of names, each with what it stands for.
#[derive(Drop)]
pub struct Names<'a> {
    table: HashMap<&'a str, Named>,
}

impl<'a> Model for Names<'a> {
    ghost use Rattle.std.specs.Prelude.{ℕ, List, map};
    ghost use Rattle.asm_operands.specs.declared.names.Named.{Named};

    ghost Value = { List (List ℕ × Named) };

    ghost view = { λ a. map (λ entry. (entry.0.now, entry.1)) a.table.entries };
}

impl<'a> Names<'a> {
    /// No names.
    pub fn new(alloc: Global) -> Names<'a>
        ensures { result ≡ [] }
    {
        Names {
            table: HashMap::new(alloc),
        }
    }

    /// What a name stands for, if it is defined.
    pub fn get(&self, name: &str) -> Option<Named>
        ensures { result ≡ named self.now name.now }
    {
        self.table.get(&name).copied()
    }

    /// The value of a name that an `.equ` defines.
    pub fn constant(&self, name: &str) -> Option<Number>
        ensures { result ≡ constant_value (named self.now name.now) }
    {
        match self.get(name) {
            Some(
                Named {
                    value,
                    constant: true,
                },
            ) => Some(value),
            _ => None,
        }
    }

    /// Defines a name that isn't defined yet. Where memory runs out, the names stay as they were.
    pub fn define(&mut self, name: &'a str, value: Named) -> Result<(), AllocError>
        requires { named self.old name.now ≡ None }
        ensures this { IfOk result (λ _. named self.new name.now ≡ Some value) }
        ensures unchanged { IfErr result (λ _. (other : List ℕ) → named self.new other ≡ named self.old other) }
        ensures others { IfOk result (λ _. (other : List ℕ) → other ≢ name.now → named self.new other ≡ named self.old other) }
    {
        store(&mut self.table, name, value)
    }
}

/// Puts a name that the table doesn't have yet. Where memory runs out, the table stays as it was.
#[tactic(auto, using(std::proofs::lemmas::Map::Text::text_keys), unfolding(crate::specs::NameTable::stored))]
fn store<'a>(
    table: &mut HashMap<&'a str, Named>,
    name: &'a str,
    value: Named,
) -> Result<(), AllocError>
    requires { stored table.old name.now ≡ None }
    ensures this { IfOk result (λ _. stored table.new name.now ≡ Some value) }
    ensures unchanged { IfErr result (λ _. (other : List ℕ) → stored table.new other ≡ stored table.old other) }
    ensures others { IfOk result (λ _. (other : List ℕ) → other ≢ name.now → stored table.new other ≡ stored table.old other) }
{
    match table.insert(name, value) {
        Ok(_) => Ok(()),
        Err(_) => Err(AllocError),
    }
}
