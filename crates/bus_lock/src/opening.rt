//! How a bus comes to be shared.
ghost use Rattle.std.specs.Prelude.{◌≡◌, [], IfOk};
ghost use Rattle.pmsi_model.specs.Job.{IsJob};
ghost use Rattle.pmsi_model.specs.Parts.{IsBusPart};
ghost use Rattle.bus_lock.specs.Rule.{Opening, first_of, one_more, new_seat};
ghost use Rattle.turn_bus.specs.Sharing.{IsBusAt};
ghost use Rattle.bus_lock.specs.Seats.{AreSeats, IsOwn, view_of};

use crate::about::{About, copy_of};
use crate::rule::{Locked, Opens};
use crate::seat::{BusSeat, Chair, SharedBus};
use crate::view::View;
use atomic_table::{Refused, Table};
use bus_core::Bus;
use pmsi_model::{Job, NoMemory};
use std::alloc::Global;

type Opened = (Table<Option<Bus>, View, About, Locked, Global>, Chair);

/// A table of one word and one slot, in which the bus lies.
fn lay(alloc: Global, bus: Bus, about: &About) -> Result<Opened, NoMemory>
    requires { IsJob about.now.job × IsBusAt about.now.job about.now.keeps 0 bus }
    ensures { IfOk result (λ t. (t.0.shared.table_id.words ≡ 1) × (t.0.shared.table_id.slots ≡ 1) × (t.1.table_id ≡ t.0.shared.table_id) ×
        (t.1.me ≡ (first_of about.now, []))) }
{
    let mut slots = Vec::with_capacity(alloc, 1)?;
    slots.push_reserved(Some(bus));
    match Table::new(alloc, &[0], slots, about) {
        Ok(made) => Ok(made),
        Err(Refused { slots: _ }) => Err(NoMemory),
    }
}

impl SharedBus {
    /// Shares a bus before the first slot, and gives core 0 its seat.
    fn begin(alloc: Global, bus: Bus, about: &About) -> Result<(SharedBus, BusSeat), NoMemory>
        requires { IsJob about.now.job × IsBusAt about.now.job about.now.keeps 0 bus }
        ensures { IfOk result (λ t. IsOwn t.0 t.1 × (view_of t.1 ≡ first_of about.now)) }
    {
        let (table, chair) = lay(alloc, bus, about)?;
        Ok((SharedBus { table }, BusSeat { chair }))
    }

    /// A seat for the next core, from that of core 0.
    fn seat(&self, root: &mut BusSeat) -> BusSeat
        requires own { IsOwn self.now root.old }
        requires opening { Opening (view_of root.old) }
        ensures own { IsOwn self.now root.new × IsOwn self.now result }
        ensures views { (view_of root.new ≡ one_more (view_of root.old)) × (view_of result ≡ new_seat (view_of root.old)) }
    {
        let chair = self.table.shared.split_seat::<Opens>(&mut root.chair);
        BusSeat { chair }
    }

    fn open_with(
        alloc: Global,
        bus: Bus,
        about: &About,
    ) -> Result<(SharedBus, Vec<BusSeat>), NoMemory>
        requires { IsJob about.now.job × IsBusAt about.now.job about.now.keeps 0 bus }
        ensures { IfOk result (λ t. AreSeats t.0 about.now.job about.now.keeps 0 t.1.items) }
    {
        let cores = about.job.shape().cores;
        let mut seats = Vec::with_capacity(alloc, cores as usize)?;
        let (shared, root) = SharedBus::begin(alloc, bus, about)?;
        seats.push_reserved(root);
        for _ in 1..cores {
            let seat = shared.seat(&mut seats[0]);
            seats.push_reserved(seat);
        }
        Ok((shared, seats))
    }

    /// Shares the bus of a job before its first slot, and gives each core its seat, by the core's number.
    pub fn open(alloc: Global, bus: Bus, job: &Job) -> Result<(SharedBus, Vec<BusSeat>), NoMemory>
        requires { IsBusPart job.now 0 bus }
        ensures { IfOk result (λ t. AreSeats t.0 job.now bus.keeps 0 t.1.items) }
    {
        let keeps = bus.keeps();
        let about = About {
            job: copy_of(alloc, job)?,
            keeps,
        };
        SharedBus::open_with(alloc, bus, &about)
    }
}
