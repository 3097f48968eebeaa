//! Two cores that write one word, in orders of steps that are written out.
use super::machines::{alike, job, same_core};
use super::runs::{WRITES_7, small};
use sim_steps::{Spread, Step, Took};
use slot_plan::owner;
use std::alloc::{AllocError, Global};
use std::cmp::Ordering;
use std::process::Abort;
use std::test::Fail;

const SLOTS: u32 = 6;

/// Both cores store 7 at address 0.
fn both_write(rt: &impl Abort, alloc: Global) -> Result<Spread, AllocError> {
    let texts = alike(alloc, &WRITES_7, 2)?;
    let job = job(rt, alloc, small(2, SLOTS), texts)?;
    let Ok(spread) = Spread::open(alloc, &job) else {
        panic!(rt; "no memory")
    };
    Ok(spread)
}

fn take(rt: &impl Abort, spread: &mut Spread, step: Step) -> Took {
    assert!(rt; step.core() < spread.shape().cores);
    spread.take(step)
}

fn takes_each(rt: &impl Abort, spread: &mut Spread, steps: &[(Step, Took)]) {
    for (step, took) in steps {
        assert_eq!(rt; take(rt, spread, *step), *took, "{step:?}");
    }
}

#[test]
fn opens_with_phases_to_do(rt: HostRuntime) -> Result<(), Fail> {
    let mut spread = both_write(&rt, rt.alloc())?;
    let steps = [
        (Step::Phase(0), Took::Done),
        (Step::Meet(0), Took::Done),
        (Step::Meet(1), Took::Again),
    ];
    takes_each(&rt, &mut spread, &steps);
    Ok(())
}

#[test]
fn a_core_waits_for_the_bus(rt: HostRuntime) -> Result<(), Fail> {
    let mut spread = both_write(&rt, rt.alloc())?;
    let steps = [
        (Step::Phase(0), Took::Done),
        (Step::Meet(0), Took::Done),
        (Step::Phase(0), Took::Done),
        (Step::Meet(0), Took::NotYet(1)),
        (Step::Phase(1), Took::Done),
        (Step::Meet(1), Took::Done),
        (Step::Phase(1), Took::Done),
        (Step::Meet(1), Took::Done),
        (Step::Meet(0), Took::Done),
    ];
    takes_each(&rt, &mut spread, &steps);
    Ok(())
}

/// The next step of a core in its order.
fn next(rt: &impl Abort, spread: &Spread, c: u32) -> Step {
    assert!(rt; c < spread.shape().cores);
    if spread.core(c).phase_done() {
        Step::Meet(c)
    } else {
        Step::Phase(c)
    }
}

fn slot(rt: &impl Abort, spread: &Spread, c: u32) -> u32 {
    assert!(rt; c < spread.shape().cores);
    spread.core(c).slot()
}

/// The core of the lesser slot, or where both are equal the slot's owner.
fn first(rt: &impl Abort, spread: &Spread) -> u32 {
    let (zero, one) = (slot(rt, spread, 0), slot(rt, spread, 1));
    match zero.cmp(&one) {
        Ordering::Less => 0,
        Ordering::Greater => 1,
        Ordering::Equal => {
            assert!(rt; zero < SLOTS);
            owner(spread.bus().table(), zero)
        }
    }
}

/// All steps, each by the core of the least slot: so each is done at once.
fn least_first(rt: &impl Abort, spread: &mut Spread) {
    for _ in 0..4 * SLOTS {
        let c = first(rt, spread);
        let step = next(rt, spread, c);
        assert_eq!(rt; take(rt, spread, step), Took::Done);
    }
}

/// All steps, by core 1 wherever it needn't wait and has slots to go.
fn one_ahead(rt: &impl Abort, spread: &mut Spread) {
    for _ in 0..4 * SLOTS {
        let step = next(rt, spread, 1);
        if take(rt, spread, step) != Took::Done {
            let step = next(rt, spread, 0);
            assert_eq!(rt; take(rt, spread, step), Took::Done);
        }
    }
}

/// A core is at the end of both, in the same state.
fn ends_alike(rt: &impl Abort, a: &Spread, b: &Spread, c: u32) {
    assert!(rt; c < a.shape().cores);
    assert!(rt; c < b.shape().cores);
    assert_eq!(rt; a.core(c).slot(), SLOTS);
    same_core(rt, a.core(c), b.core(c));
}

#[test]
fn orders_end_alike(rt: HostRuntime) -> Result<(), Fail> {
    let mut a = both_write(&rt, rt.alloc())?;
    let mut b = both_write(&rt, rt.alloc())?;
    least_first(&rt, &mut a);
    one_ahead(&rt, &mut b);
    ends_alike(&rt, &a, &b, 0);
    ends_alike(&rt, &a, &b, 1);
    assert_eq!(rt; a.bus().trace(), b.bus().trace());
    assert_eq!(rt; take(&rt, &mut a, Step::Phase(0)), Took::Over);
    assert_eq!(rt; take(&rt, &mut b, Step::Meet(1)), Took::Over);
    Ok(())
}
