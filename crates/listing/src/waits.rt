//! The lines of waits, and of the bound.
ghost use Rattle.std.specs.Prelude.{◌≡◌, ◌+◌, ◌*◌, ◌^◌, ◌<◌, ◌≤◌, ℕ, List, [], ◌∷◌, ◌++◌, length, OnOk};
ghost use Rattle.pmsi_model.specs.declared.Row.{Row};
ghost use Rattle.pmsi_model.specs.declared.limits.TheConstants.{MAX_SLOTS};
ghost use Rattle.pmsi_model.specs.Lines.{waits_of, waits_line, bound_line};
ghost use Rattle.listing.specs.Waits.{IsOf};

use crate::requests::wait_of;
use pmsi_model::Row;
use std::alloc::AllocError;
use text_out::{push_field, push_newline};

/// How many waits there are, the greatest of them, and their sum.
#[derive(Clone, Copy)]
struct Waits {
    count: u64,
    greatest: u64,
    sum: u64,
}

impl Waits {
    /// The waits with that of one row more, if it is the core's.
    fn with_row(self, core: u32, row: &Row) -> Waits
        requires { self.count < MAX_SLOTS × (self.sum ≤ self.count * 2 ^ 32) }
        ensures waits { (rows : List Row) → IsOf (waits_of core rows) self → IsOf (waits_of core (rows ++ row.now ∷ [])) result }
        ensures count { result.count ≤ self.count + 1 }
        ensures sum { result.sum ≤ result.count * 2 ^ 32 }
    {
        if row.core != core {
            return self;
        }
        let wait = wait_of(row);
        Waits {
            count: self.count + 1,
            greatest: self.greatest.max(wait),
            sum: self.sum + wait,
        }
    }
}

/// The waits of a core's requests that were served.
fn waits_of(rows: &[Row], core: u32) -> Waits
    requires { length rows.now ≤ MAX_SLOTS }
    ensures { IsOf (waits_of core rows.now) result }
{
    let mut waits = Waits {
        count: 0,
        greatest: 0,
        sum: 0,
    };
    for row in rows {
        waits = waits.with_row(core, row);
    }
    waits
}

/// Appends a core's line of waits.
#[tactic(auto, unfolding(pmsi_model::specs::Lines::waits_line))]
fn push_waits(out: &mut Vec<u8>, core: u32, waits: Waits) -> Result<(), AllocError>
    ensures { (list : List ℕ) → IsOf list waits → OnOk result (out.new.items ≡ out.old.items ++ waits_line core list) }
{
    push_field(out, "waits ", u64::from(core))?;
    push_field(out, " count ", waits.count)?;
    push_field(out, " greatest ", waits.greatest)?;
    push_field(out, " sum ", waits.sum)?;
    push_newline(out)
}

/// Appends the line of a core's waits, in slots: those of its requests that were served.
pub fn push_waits_line(out: &mut Vec<u8>, core: u32, rows: &[Row]) -> Result<(), AllocError>
    requires { length rows.now ≤ MAX_SLOTS }
    ensures { OnOk result (out.new.items ≡ out.old.items ++ waits_line core (waits_of core rows.now)) }
{
    push_waits(out, core, waits_of(rows, core))
}

/// Appends the line of the bound.
pub fn push_bound_line(out: &mut Vec<u8>, bound: u64) -> Result<(), AllocError>
    ensures { OnOk result (out.new.items ≡ out.old.items ++ bound_line bound) }
{
    push_field(out, "bound ", bound)?;
    push_newline(out)
}
