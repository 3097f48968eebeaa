//! The states of line 0 in each core, slot by slot. Three jobs of four cores take each cell of the table of states at least
//! once where nothing else comes to the line in that core in that slot, so that the boundaries around the slot show the old
//! and the new state. (A postfill takes two cells of its own core, and the state between them isn't seen.)
ghost use Rattle.std.specs.Prelude.{◌≤◌, ◌<◌, ◌^◌, IfOk, length};
ghost use Rattle.std.specs.List.{All};
ghost use Rattle.pmsi_model.specs.declared.limits.TheConstants.{MAX_TEXT_WORDS};

use super::*;
use pmsi_model::State::{I, IMD, IMDI, IMDS, ISD, ISDI, M, MIWB, MSWB, S, SMW, SMWS};
use pmsi_model::limits::MAX_TEXT_WORDS;

/// `lw x6, 16(x0)`, in line 1.
const LW_X6_16: u32 = 0x0100_2303;

/// `sw x11, 32(x0)`, in line 2.
const SW_X11_32: u32 = 0x02b0_2023;

/// A run with a core for each text, and the states of line 0 in each core: before the first slot, and after each. Beside a
/// row stands what came in its slot: a victim chosen in a phase, and then the action.
#[derive(Clone, Copy)]
struct Course {
    ways: u32,
    texts: &'static [&'static [u32]],
    states: &'static [&'static [State]],
}

fn texts_of(rt: &impl Abort, alloc: Global, course: Course) -> Result<Vec<Words>, AllocError>
    ensures sizes { IfOk result (λ texts. All (λ text. length text ≤ MAX_TEXT_WORDS) texts.items) }
    ensures words { IfOk result (λ texts. All (λ text. All (λ word. word < 2 ^ 32) text) texts.items) }
{
    let mut texts = Vec::new(alloc);
    for words in course.texts {
        assert!(rt; words.len() <= MAX_TEXT_WORDS as usize);
        texts.push(text(alloc, words)?)?;
    }
    Ok(texts)
}

/// The cores are in these states now.
fn stand_at(rt: &impl Abort, sim: &Sim, states: &[State]) {
    let cores = sim.shape().cores;
    assert_eq!(rt; states.len(), cores as usize);
    for c in 0..cores {
        let state = states[c as usize];
        assert_eq!(rt;
            sim.state_name(c, 0),
            state,
            "core {c} after {} slots",
            sim.slot()
        );
    }
}

/// The cores go through these states.
fn follow(rt: &impl Abort, alloc: Global, course: Course) -> Result<(), AllocError> {
    assert!(rt; course.texts.len() <= 4);
    let shape = Geometry {
        ways: course.ways,
        ..small(course.texts.len() as u32, 32)
    };
    let mut sim = open(rt, alloc, shape, texts_of(rt, alloc, course)?)?;
    for states in course.states {
        stand_at(rt, &sim, states);
        assert!(rt; sim.slot() < sim.shape().slots);
        sim.step();
    }
    Ok(())
}

/// A core reads what another has just written, and both keep the line.
const READER_BEHIND_AN_OWNER: Course = Course {
    ways: 1,
    texts: &[&WRITES_7, &[NOP, NOP, LW_X6, ECALL]],
    states: &[
        &[I, I],
        &[I, I], // core 0 idle
        &[I, I], // core 1 idle
        &[M, I], // core 0 postfill GetM 0
        &[MSWB, ISD], // core 1 post GetS 0
        &[S, ISD], // core 0 back 0 keep
        &[S, S], // core 1 fill 0
        &[S, S], // core 0 idle
    ],
};

/// A core chooses a victim that another core waits for, so it keeps no copy.
const VICTIM_ALREADY_DEMANDED: Course = Course {
    ways: 1,
    texts: &[&[SW_X11, NOP, SW_X11_16, ECALL], &[LW_X6, ECALL]],
    states: &[
        &[I, I],
        &[M, I], // core 0 postfill GetM 0
        &[MSWB, ISD], // core 1 post GetS 0
        &[I, ISD], // core 0 chooses line 0; core 0 back 0 drop
        &[I, S], // core 1 fill 0
        &[I, S], // core 0 postfill GetM 1
        &[I, S], // core 1 idle
    ],
};

/// The owner goes over MSWB to S, and to I where the line has become its victim.
#[test]
fn an_owner_writes_back_for_a_reader(rt: HostRuntime) -> Result<(), Fail> {
    follow(&rt, rt.alloc(), READER_BEHIND_AN_OWNER)?;
    follow(&rt, rt.alloc(), VICTIM_ALREADY_DEMANDED)?;
    Ok(())
}

/// Reads and writes queue for a line: an upgrade behind a read, writes behind both.
const QUEUES: Course = Course {
    ways: 1,
    texts: &[
        &[SW_X11, LW_X6_16, SW_X11, ECALL],
        &[SW_X11_32, LW_X6, LW_X6, ECALL],
        &[NOP, LW_X6_16, LW_X6, SW_X11, ECALL],
        &[LW_X6, SW_X11, NOP, NOP, NOP, NOP, SW_X11, ECALL],
    ],
    states: &[
        &[I, I, I, I],
        &[M, I, I, I], // core 0 postfill GetM 0
        &[MIWB, I, I, I], // core 0 chooses line 0; core 1 postfill GetM 2
        &[MIWB, I, I, I], // core 2 postfill GetS 1
        &[MIWB, I, I, ISD], // core 3 post GetS 0
        &[I, I, I, ISD], // core 0 back 0 drop
        &[I, I, I, ISD], // core 1 back 2 drop
        &[I, I, ISD, ISD], // core 2 post GetS 0
        &[I, I, ISD, S], // core 3 fill 0
        &[I, I, ISD, S], // core 0 postfill GetS 1
        &[I, ISD, ISD, S], // core 1 post GetS 0
        &[I, ISD, S, S], // core 2 fill 0
        &[I, ISDI, I, SMW], // core 3 post Upg 0
        &[IMD, ISDI, I, IMDI], // core 0 post GetM 0
        &[IMD, I, I, IMDI], // core 1 fill 0
        &[IMDI, I, IMD, IMDI], // core 2 post GetM 0
        &[IMDI, I, IMD, MIWB], // core 3 fill 0
        &[IMDI, I, IMD, MIWB], // core 0 idle
        &[IMDI, ISD, IMDS, MIWB], // core 1 post GetS 0
        &[IMDI, ISD, IMDS, MIWB], // core 2 idle
        &[IMDI, ISD, IMDS, I], // core 3 back 0 drop
        &[MIWB, ISD, IMDS, I], // core 0 fill 0
        &[MIWB, ISD, IMDS, I], // core 1 idle
        &[MIWB, ISD, IMDS, I], // core 2 idle
        &[MIWB, ISDI, IMDI, IMD], // core 3 post GetM 0
    ],
};

/// The cells that it takes, 23 of 40, by event:
///
/// - OwnGetS in I
/// - OwnGetM in I, S
/// - OwnFill in ISD, ISDI, IMDI
/// - OwnBack in MIWB
/// - Choose in M
/// - OtherGetS in I, S, ISD, IMD, IMDI, MIWB
/// - OtherGetM in I, S, ISD, ISDI, IMD, IMDS, IMDI, SMW, MIWB
#[test]
fn queues_of_reads_and_writes(rt: HostRuntime) -> Result<(), Fail> {
    follow(&rt, rt.alloc(), QUEUES)?;
    Ok(())
}

/// A core upgrades twice behind a read, and other requests queue behind it.
const UPGRADES: Course = Course {
    ways: 2,
    texts: &[
        &[SW_X11, LW_X6_16, LW_X6, LW_X6, ECALL],
        &[SW_X11_32, LW_X6, NOP, NOP, LW_X6, SW_X11, ECALL],
        &[
            SW_X11, NOP, NOP, NOP, NOP, SW_X11, NOP, NOP, NOP, NOP, SW_X11, ECALL,
        ],
        &[LW_X6, NOP, NOP, NOP, LW_X6, NOP, NOP, NOP, LW_X6, ECALL],
    ],
    states: &[
        &[I, I, I, I],
        &[M, I, I, I], // core 0 postfill GetM 0
        &[M, I, I, I], // core 1 postfill GetM 2
        &[MIWB, I, IMD, I], // core 2 post GetM 0
        &[MIWB, I, IMDS, ISD], // core 3 post GetS 0
        &[I, I, IMDS, ISD], // core 0 back 0 drop
        &[I, ISD, IMDS, ISD], // core 1 post GetS 0
        &[I, ISD, MSWB, ISD], // core 2 fill 0
        &[I, ISD, MSWB, ISD], // core 3 idle
        &[I, ISD, MSWB, ISD], // core 0 postfill GetS 1
        &[I, ISD, MSWB, ISD], // core 1 idle
        &[I, ISD, S, ISD], // core 2 back 0 keep
        &[I, ISD, S, S], // core 3 fill 0
        &[ISD, ISD, S, S], // core 0 post GetS 0
        &[ISD, S, S, S], // core 1 fill 0
        &[ISDI, I, SMW, I], // core 2 post Upg 0
        &[ISDI, I, SMWS, ISD], // core 3 post GetS 0
        &[I, I, SMWS, ISD], // core 0 fill 0
        &[I, ISD, SMWS, ISD], // core 1 post GetS 0
        &[I, ISD, MSWB, ISD], // core 2 fill 0
        &[I, ISD, MSWB, ISD], // core 3 idle
        &[ISD, ISD, MSWB, ISD], // core 0 post GetS 0
        &[ISD, ISD, MSWB, ISD], // core 1 idle
        &[ISD, ISD, S, ISD], // core 2 back 0 keep
        &[ISD, ISD, S, S], // core 3 fill 0
        &[ISD, ISD, S, S], // core 0 idle
        &[ISD, S, S, S], // core 1 fill 0
        &[ISDI, I, SMW, I], // core 2 post Upg 0
        &[ISDI, I, SMWS, ISD], // core 3 post GetS 0
        &[I, I, SMWS, ISD], // core 0 fill 0
        &[I, IMD, IMDI, ISDI], // core 1 post GetM 0
    ],
};

/// The further cells that it takes, 10 of 40, by event:
///
/// - OwnFill in IMDS, SMWS
/// - OwnBack in MSWB
/// - OtherGetS in ISDI, IMDS, SMW, SMWS, MSWB
/// - OtherGetM in M, SMWS
#[test]
fn upgrades_behind_reads(rt: HostRuntime) -> Result<(), Fail> {
    follow(&rt, rt.alloc(), UPGRADES)?;
    Ok(())
}

/// Cores choose the line as their victim, whether it is shared, owned or to be written back.
const VICTIMS: Course = Course {
    ways: 1,
    texts: &[
        &[LW_X6, SW_X11, NOP, SW_X11_16, ECALL],
        &[LW_X6, LW_X6_16, NOP, NOP, LW_X6, SW_X11, ECALL],
        &[SW_X11, NOP, NOP, LW_X6_16, LW_X6, ECALL],
        &[LW_X6, LW_X6, SW_X11_16, ECALL],
    ],
    states: &[
        &[I, I, I, I],
        &[S, I, I, I], // core 0 postfill GetS 0
        &[S, S, I, I], // core 1 postfill GetS 0
        &[I, I, M, I], // core 1 chooses line 0; core 2 postfill GetM 0
        &[I, I, MSWB, ISD], // core 3 post GetS 0
        &[IMD, I, MIWB, ISDI], // core 0 post GetM 0
        &[IMD, I, MIWB, ISDI], // core 2 chooses line 0; core 1 postfill GetS 1
        &[IMD, I, I, ISDI], // core 2 back 0 drop
        &[IMD, I, I, I], // core 3 fill 0
        &[M, I, I, I], // core 0 fill 0
        &[MSWB, ISD, I, I], // core 1 post GetS 0
        &[MIWB, ISD, I, I], // core 0 chooses line 0; core 2 postfill GetS 1
        &[MIWB, ISD, I, ISD], // core 3 post GetS 0
        &[I, ISD, I, ISD], // core 0 back 0 drop
        &[I, S, I, ISD], // core 1 fill 0
        &[I, S, ISD, ISD], // core 2 post GetS 0
        &[I, S, ISD, S], // core 3 fill 0
        &[I, S, ISD, I], // core 3 chooses line 0; core 0 postfill GetM 1
        &[I, SMW, ISDI, I], // core 1 post Upg 0
        &[I, SMW, I, I], // core 2 fill 0
        &[I, SMW, I, I], // core 3 post GetM 1
        &[I, SMW, I, I], // core 0 back 1 drop
        &[I, M, I, I], // core 1 fill 0
    ],
};

/// The further cells that it takes, 7 of 40, by event:
///
/// - OwnFill in IMD, SMW
/// - Choose in S, MSWB, MIWB
/// - OtherGetS in M
/// - OtherGetM in MSWB
#[test]
fn victims_in_each_state(rt: HostRuntime) -> Result<(), Fail> {
    follow(&rt, rt.alloc(), VICTIMS)?;
    Ok(())
}
