//! How a bus comes to be shared.
ghost use Rattle.std.specs.Prelude.{◌≡◌, ◌+◌, [], IfOk};
ghost use Rattle.pmsi_model.specs.Job.{IsJob};
ghost use Rattle.pmsi_model.specs.Parts.{IsBusPart};
ghost use Rattle.pmsi_model.specs.Slots.{gap_of, plan_of};
ghost use Rattle.turn_bus.specs.Rule.{Opening, first_of, one_more, new_seat};
ghost use Rattle.turn_bus.specs.Sharing.{IsBusAt};
ghost use Rattle.turn_bus.specs.Seats.{AreSeats, IsOwn, view_of};

use crate::about::{About, copy_of};
use crate::rule::{Lying, Opens, Turning};
use crate::seat::{Chair, TurnBus, TurnSeat};
use crate::view::View;
use atomic_table::{Refused, Table};
use bus_core::Bus;
use pmsi_model::{Job, NoMemory};
use slot_plan::gap;
use std::alloc::Global;

type Opened = (Table<Lying, View, About, Turning, Global>, Chair);

/// A table of the turn, the ring of records, and one slot, in which the bus lies.
fn lay(alloc: Global, bus: Bus, about: &About) -> Result<Opened, NoMemory>
    requires { IsJob about.now.job × IsBusAt about.now.job about.now.keeps 0 bus }
    ensures sized { IfOk result (λ t. (t.0.shared.table_id.words ≡ gap_of (plan_of about.now.job) + 1) × (t.0.shared.table_id.slots ≡ 1)) }
    ensures seat { IfOk result (λ t. (t.1.table_id ≡ t.0.shared.table_id) × (t.1.me ≡ (first_of about.now, []))) }
{
    let words = vec![in alloc; 0; gap(bus.table()) as usize + 1]?;
    let lying = Box::new(alloc, bus)?;
    let mut slots = Vec::with_capacity(alloc, 1)?;
    slots.push_reserved(Some(lying));
    match Table::new(alloc, &words, slots, about) {
        Ok(made) => Ok(made),
        Err(Refused { slots: _ }) => Err(NoMemory),
    }
}

impl TurnBus {
    /// Shares a bus before the first slot, and gives core 0 its seat.
    fn begin(alloc: Global, bus: Bus, about: &About) -> Result<(TurnBus, TurnSeat), NoMemory>
        requires { IsJob about.now.job × IsBusAt about.now.job about.now.keeps 0 bus }
        ensures { IfOk result (λ t. IsOwn t.0 t.1 × (view_of t.1 ≡ first_of about.now)) }
    {
        let plan = bus.table().copy();
        let (table, chair) = lay(alloc, bus, about)?;
        Ok((TurnBus { table, plan }, TurnSeat { chair, slot: 0 }))
    }

    /// A seat for the next core, from that of core 0.
    fn seat(&self, root: &mut TurnSeat) -> TurnSeat
        requires own { IsOwn self.now root.old }
        requires opening { Opening (view_of root.old) }
        ensures own { IsOwn self.now root.new × IsOwn self.now result }
        ensures views { (view_of root.new ≡ one_more (view_of root.old)) × (view_of result ≡ new_seat (view_of root.old)) }
    {
        let chair = self.table.shared.split_seat::<Opens>(&mut root.chair);
        TurnSeat { chair, slot: 0 }
    }

    fn open_with(
        alloc: Global,
        bus: Bus,
        about: &About,
    ) -> Result<(TurnBus, Vec<TurnSeat>), NoMemory>
        requires { IsJob about.now.job × IsBusAt about.now.job about.now.keeps 0 bus }
        ensures { IfOk result (λ t. AreSeats t.0 about.now.job about.now.keeps 0 t.1.items) }
    {
        let cores = about.job.shape().cores;
        let mut seats = Vec::with_capacity(alloc, cores as usize)?;
        let (shared, root) = TurnBus::begin(alloc, bus, about)?;
        seats.push_reserved(root);
        for _ in 1..cores {
            let seat = shared.seat(&mut seats[0]);
            seats.push_reserved(seat);
        }
        Ok((shared, seats))
    }

    /// Shares the bus of a job before its first slot, and gives each core its seat, by the core's number.
    pub fn open(alloc: Global, bus: Bus, job: &Job) -> Result<(TurnBus, Vec<TurnSeat>), NoMemory>
        requires { IsBusPart job.now 0 bus }
        ensures { IfOk result (λ t. AreSeats t.0 job.now bus.keeps 0 t.1.items) }
    {
        let keeps = bus.keeps();
        let about = About {
            job: copy_of(alloc, job)?,
            keeps,
        };
        TurnBus::open_with(alloc, bus, &about)
    }
}
