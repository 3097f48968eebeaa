//! What a trace says.

use pmsi_model::{Action, Sequence};

/// The greatest number of a line: memory has at most 1,048,576 bytes, in lines of at least 16.
pub const MAX_LINE: u32 = 65_535;

/// Actions, one per slot.
pub type Actions = Sequence<Action>;

/// The actions of a bus in the slots from 0 on. The cores own the slots in turn, core 0 the first.
#[derive(Debug, Drop)]
pub struct Trace {
    pub cores: u32,
    pub actions: Actions,
}
