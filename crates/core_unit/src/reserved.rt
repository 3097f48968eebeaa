//! Lists in a room that is taken once.
ghost use Rattle.std.specs.Prelude.{◌≡◌, ◌<◌, [], ◌∷◌, ◌++◌, length, IfOk};

use pmsi_model::NoMemory;
use std::alloc::Global;
use std::marker::Model;

/// A list that grows within its room, which is taken when it is made.
#[derive(Drop)]
pub struct ReservedList<T> {
    items: Vec<T>,
}

impl<T> Model for ReservedList<T> {
    ghost use Rattle.std.specs.Prelude.{vec_capacity};
    ghost use Rattle.core_unit.specs.Reserved.{Reserved, reserved_code};

    ghost Value = { Reserved T };

    ghost coded = { reserved_code T.code };

    ghost view = { λ a. record { items = a.items.items; room = vec_capacity a.items } };
}

impl<T> ReservedList<T> {
    /// An empty list with room for so many items.
    pub fn with_room(alloc: Global, room: usize) -> Result<ReservedList<T>, NoMemory>
        ensures { IfOk result (λ r. r ≡ record { items = []; room = room }) }
    {
        Ok(ReservedList {
            items: Vec::with_capacity(alloc, room)?,
        })
    }

    /// The item goes last; no memory is taken.
    pub fn push(&mut self, item: T)
        requires { length self.old.items < self.old.room }
        ensures { self.new ≡ record self.old { items = self.old.items ++ item ∷ [] } }
    {
        self.items.push_reserved(item);
    }

    /// The items, in the order in which they came.
    pub fn as_slice(&self) -> &[T]
        ensures { result.now ≡ self.now.items }
    {
        self.items.as_slice()
    }
}

impl<T: Copy> ReservedList<T> {
    /// An equal list in a room of its own, as great as this one's.
    pub fn copy(&self, alloc: Global) -> Result<ReservedList<T>, NoMemory>
        ensures { IfOk result (λ r. r ≡ self.now) }
    {
        let mut items = Vec::with_capacity(alloc, self.items.capacity())?;
        for item in self.items.as_slice() {
            items.push_reserved(*item);
        }
        Ok(ReservedList { items })
    }
}
