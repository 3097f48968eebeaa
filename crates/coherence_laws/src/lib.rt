//! What holds of the written machine at every slot boundary of every accepted job. The functions have empty bodies: their
//! contracts are laws of the definitions alone.
#![tactic(auto)]

ghost use Rattle.coherence_laws.specs.Laws.{StaysCoherent, WriteBacksFit};
ghost use Rattle.coherence_laws.specs.Apart.{PhasesAreApart, StaysMemory};

/// The machine is coherent at every slot boundary.
pub fn stays_coherent()
    ensures { StaysCoherent }
{}

/// A core has at most as many lines to write back as there are cores.
pub fn write_backs_fit()
    ensures { WriteBacksFit }
{}

/// The phases of all cores in core order leave each core as its phase alone does, with the same bytes of each line that it
/// then holds, and its accesses among theirs are those of its phase alone. The bytes of a line that nobody owns stay, and
/// so do owners.
pub fn phases_are_apart()
    ensures { PhasesAreApart }
{}

/// Memory has the job's size in bytes, and each is below 256: at slot boundaries, after the phases of a slot, and after
/// one core's phase alone.
pub fn stays_memory()
    ensures { StaysMemory }
{}
