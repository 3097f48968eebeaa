//! How a core reaches the bus.
ghost use Rattle.std.specs.Prelude.{◌≡◌, ◌<◌};
ghost use Rattle.pmsi_model.specs.Machine.{removed};
ghost use Rattle.pmsi_model.specs.Shared.{BusSide, IsOwnSlot, CanPost, CanFill, CanWriteBack, is_ready, behind_in, line_in, side_posted, post_answer, words_met, side_filled, side_back, side_idle};

use crate::limits::LINE_ROOM;
use crate::{Behind, Name, Posted};
use arrayvec::ArrayVec;

/// The words of a line, lowest address first.
pub type LineWords = ArrayVec<u32, LINE_ROOM>;

/// The bus, as a core that owns the slot uses it. Each call but `slot` and `ready` ends the slot. None takes memory.
pub trait BusPort {
    /// Shared memory, the slot, and the actions that are kept.
    ghost side: { Self → BusSide };

    fn slot(&self) -> u32
        ensures { result ≡ (side self.now).slot };

    /// Whether the core's posted request is the first of its line's queue, and nobody owns the line.
    fn ready(&self, core: u32) -> bool
        requires { core < (side self.now).memory.shape.cores }
        ensures { result ≡ is_ready (side self.now).memory core };

    /// Posts a request. `words` becomes the line's words where the request is filled at once.
    fn post(&mut self, core: u32, line: u32, name: Name, words: &mut LineWords) -> Posted
        requires slot { IsOwnSlot core (side self.old) }
        requires can { CanPost core line (side self.old).memory }
        ensures side { side self.new ≡ side_posted core line name (side self.old) }
        ensures answer { result ≡ post_answer core line name (side self.old).memory }
        ensures words { words.new.items ≡ words_met core line name (side self.old).memory words.old.items };

    /// Serves the core's posted request: `words` becomes the line's words. The answer is what is left in the line's queue.
    fn fill(&mut self, core: u32, line: u32, words: &mut LineWords) -> Behind
        requires slot { IsOwnSlot core (side self.old) }
        requires can { CanFill core line (side self.old).memory }
        ensures side { side self.new ≡ side_filled core line (side self.old) }
        ensures answer { result ≡ behind_in line (removed core (side self.old).memory.posted) }
        ensures words { words.new.items ≡ line_in (side self.old).memory line };

    /// Writes a line back. `keep` says that the core keeps the line shared.
    fn back(&mut self, core: u32, line: u32, words: &[u32], keep: bool)
        requires slot { IsOwnSlot core (side self.old) }
        requires can { CanWriteBack core line words.now (side self.old).memory }
        ensures { side self.new ≡ side_back line words.now keep (side self.old) };

    /// Lets the slot pass.
    fn idle(&mut self, core: u32)
        requires { IsOwnSlot core (side self.old) }
        ensures { side self.new ≡ side_idle (side self.old) };
}
