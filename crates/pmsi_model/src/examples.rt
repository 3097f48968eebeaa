//! Worked examples: each function has an empty body, and its contract says what the definitions give for a small job.
//! The jobs and the values stand in `specs/Examples.antt`; the checker computes them.

ghost use Rattle.pmsi_model.specs.Examples.{AddsAndExits, TakesNoSlot, StoresAndLoads, TwoWriters, OpenAtTheEnd, ReaderBehindAnOwner, ReadBeforeWrite, SharedHoldersStore, ModifiedVictim, VictimAlreadyDemanded, LeastRecentlyUsed, TwoSets, ByteLanes, CountsUp, ExecutesInstructions, LargestBound};
ghost use Rattle.pmsi_model.specs.ExampleWords.{ReadsWords};

/// One core adds, and exits by an environment call.
pub fn adds_and_exits()
    ensures { AddsAndExits }
{}

/// The same job with no slot is the machine at its start.
pub fn takes_no_slot()
    ensures { TakesNoSlot }
{}

/// One core adds, stores, loads what it stored, and exits.
pub fn stores_and_loads()
    ensures { StoresAndLoads }
{}

/// Two cores write one word; the first owner halts, and still writes the line back.
pub fn two_writers()
    ensures { TwoWriters }
{}

/// A run that is cut off while a request is open.
pub fn open_at_the_end()
    ensures { OpenAtTheEnd }
{}

/// A core reads what another has just written, and both keep the line.
pub fn reader_behind_an_owner()
    ensures { ReaderBehindAnOwner }
{}

/// A read is served before the write that was posted behind it, and keeps no copy.
pub fn read_before_write()
    ensures { ReadBeforeWrite }
{}

/// Two holders of a shared line store to it: the first upgrades, the other has lost its copy by then.
pub fn shared_holders_store()
    ensures { SharedHoldersStore }
{}

/// A modified victim is written back before the request that it makes room for is posted.
pub fn modified_victim()
    ensures { ModifiedVictim }
{}

/// A victim that another core had asked for already is written back once, and dropped.
pub fn victim_already_demanded()
    ensures { VictimAlreadyDemanded }
{}

/// The victim is the least recently used line of the set.
pub fn least_recently_used()
    ensures { LeastRecentlyUsed }
{}

/// A line takes the place of one of its own set alone.
pub fn two_sets()
    ensures { TwoSets }
{}

/// Two cores write bytes of one word, and both bytes stay.
pub fn byte_lanes()
    ensures { ByteLanes }
{}

/// Cores add to one word in turn, with a quantum of four instructions.
pub fn counts_up()
    ensures { CountsUp }
{}

/// An AMO, jumps, addresses that halt, and effects and accesses at their edges.
pub fn executes_instructions()
    ensures { ExecutesInstructions }
{}

/// Words of the instruction table, and words that have no row.
pub fn reads_words()
    ensures { ReadsWords }
{}

/// The bound for sixteen cores.
pub fn largest_bound()
    ensures { LargestBound }
{}
