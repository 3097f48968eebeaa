//! How a shared bus is taken back.
ghost use Rattle.std.specs.Prelude.{◌≡◌, Bool};
ghost use Rattle.pmsi_model.specs.Job.{JobValue};
ghost use Rattle.pmsi_model.specs.Parts.{IsBusPart};
ghost use Rattle.turn_bus.specs.Rule.{Ending, with_joined};
ghost use Rattle.turn_bus.specs.Sharing.{IsBusAt};
ghost use Rattle.turn_bus.specs.Seats.{AreSeats, CanClose, IsOwn, view_of};

use crate::rule::Closes;
use crate::seat::{TurnBus, TurnSeat};
use bus_core::Bus;

impl TurnBus {
    /// Takes another seat into that of core 0.
    fn join(&self, root: &mut TurnSeat, seat: TurnSeat)
        requires own { IsOwn self.now root.old × IsOwn self.now seat }
        requires root { (view_of root.old).number ≡ 0 }
        ensures own { IsOwn self.now root.new }
        ensures view { view_of root.new ≡ with_joined (view_of root.old) (view_of seat) }
    {
        let TurnSeat { chair, .. } = seat;
        self.table
            .shared
            .join_seat::<Closes>(&mut root.chair, chair);
    }

    /// The bus after the last slot, once all seats are joined into that of core 0.
    fn end(self, root: TurnSeat) -> Bus
        requires own { IsOwn self root }
        requires ending { Ending (view_of root) }
        ensures { IsBusAt (view_of root).job (view_of root).keeps (view_of root).job.shape.slots result }
    {
        let TurnBus { table, .. } = self;
        let TurnSeat { chair, .. } = root;
        let mut closed = table.close_with(chair);
        let value = closed.take(0);
        closed.free();
        let Some(bus) = value else { unreachable!() };
        Box::into_inner(bus)
    }

    /// The bus after the last slot, from its own seats, all of them, each after the last slot. It takes no memory.
    pub fn close(self, mut seats: Vec<TurnSeat>) -> Bus
        requires { CanClose self seats.items }
        ensures bus { (job : JobValue) (keeps : Bool) → AreSeats self job keeps job.shape.slots seats.items → IsBusPart job job.shape.slots result }
        ensures keeps { (job : JobValue) (keeps : Bool) → AreSeats self job keeps job.shape.slots seats.items → result.keeps ≡ keeps }
    {
        let mut root = seats.remove(0);
        while let Some(seat) = seats.pop() {
            self.join(&mut root, seat);
        }
        self.end(root)
    }
}
