//! Laws of the definitions: each function has an empty body, and its contract is the law.

ghost use Rattle.pmsi_model.specs.Instruction.{HasOneRow, ReadsOneWay};
ghost use Rattle.pmsi_model.specs.Machine.{PlaceIsRead, QueueIsRead};
ghost use Rattle.pmsi_model.specs.Spreads.{MeetsAreSteps, MeetsFit, SpreadsFit};

/// A word has one row at most, and encodes an instruction exactly where the first row that fits reads it so.
pub fn instruction_table()
    ensures one_row { HasOneRow }
    ensures one_way { ReadsOneWay }
{}

/// The readers of the posted requests are those of a line's queue.
pub fn queues()
    ensures readers { QueueIsRead }
    ensures places { PlaceIsRead }
{}

/// In whatever order the cores take their steps, none is past the bus, and the bus isn't past any core's next own slot.
pub fn spreads()
    ensures meets { MeetsFit }
    ensures steps { MeetsAreSteps }
    ensures fit { SpreadsFit }
{}
