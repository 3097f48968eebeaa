//! A core's registers.
ghost use Rattle.std.specs.Prelude.{◌≡◌};
ghost use Rattle.pmsi_model.specs.Effect.{reg_of, start_regs, with_reg};

use pmsi_model::Reg;
use std::marker::Model;

/// Thirty-two words; x0 is always 0.
#[derive(Drop)]
pub struct Regs {
    values: [u32; 32],
}

impl Model for Regs {
    ghost use Rattle.std.specs.Prelude.{◌≡◌, ℕ, List, slice_index};

    ghost Value = { List ℕ };

    ghost view = { λ a. a.values };

    ghost invariant = { λ a. slice_index a.values 0 ≡ 0 };
}

impl Regs {
    /// The registers at the start: x10 is the core's number, x11 the number of cores, and the others are 0.
    pub fn start(core: u32, cores: u32) -> Regs
        ensures { result ≡ start_regs core cores }
    {
        let mut values = [0; 32];
        values[10] = core;
        values[11] = cores;
        Regs { values }
    }

    /// Equal registers. It takes no memory.
    pub fn copy(&self) -> Regs
        ensures { result ≡ self.now }
    {
        Regs {
            values: self.values,
        }
    }

    /// The values of x0 to x31, by their numbers.
    pub fn as_slice(&self) -> &[u32]
        ensures { result.now ≡ self.now }
    {
        self.values.as_slice()
    }

    /// The value of a register; that of x0 is 0.
    pub fn get(&self, r: Reg) -> u32
        ensures { result ≡ reg_of self.now r }
    {
        self.values[r.index() as usize]
    }

    /// A write to x0 is lost.
    pub fn set(&mut self, r: Reg, value: u32)
        ensures { self.new ≡ with_reg self.old r value }
    {
        if r.index() != 0 {
            self.values[r.index() as usize] = value;
        }
    }
}
