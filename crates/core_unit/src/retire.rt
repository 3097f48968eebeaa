//! An access that is done, on the word that it meets.
ghost use Rattle.std.specs.Prelude.{◌≡◌, ◌+◌, ◌%◌, ◌^◌, ◌<◌};
ghost use Rattle.pmsi_model.specs.Access.{width_of};
ghost use Rattle.pmsi_model.specs.Words.{bytes_of};
ghost use Rattle.rv_exec.specs.Accesses.{bytes_after};
ghost use Rattle.core_unit.specs.State.{retired_on, touch_on, with_touch};
ghost use Rattle.core_unit.specs.Stands.{HasTouchRoom};

use crate::state::State;
use pmsi_model::{Access, Touch};
use rv_exec::{apply, number_at};

impl State {
    /// Notes an access that met a word and left another, where accesses are kept.
    fn note_touch(&mut self, access: &Access, met: u32, left: u32)
        requires aligned { access.now.address % width_of access.now.op ≡ 0 }
        requires left { bytes_of 4 left ≡ bytes_after access.now met }
        requires room { HasTouchRoom self.old }
        ensures { self.new ≡ with_touch (touch_on access.now met self.old) self.old }
    {
        if self.keeps {
            self.touches.push(Touch {
                slot: self.slot,
                core: self.number,
                address: access.address,
                width: access.op.width(),
                kind: access.op.kind(),
                old: number_at(access, met),
                new: number_at(access, left),
            });
        }
    }

    /// Does an access on the word that it meets, and retires its instruction. The answer is the word that it leaves.
    pub fn retire(&mut self, access: Access, met: u32) -> u32
        requires aligned { access.address % width_of access.op ≡ 0 }
        requires retires { self.old.retired + 1 < 2 ^ 64 }
        requires room { HasTouchRoom self.old }
        ensures word { bytes_of 4 result ≡ bytes_after access met }
        ensures state { self.new ≡ retired_on access met self.old }
    {
        let applied = apply(access, met);
        self.note_touch(&access, met, applied.new_word);
        self.regs.set(access.rd, applied.rd_value);
        self.pc = self.pc.wrapping_add(4);
        self.retired += 1;
        applied.new_word
    }
}
