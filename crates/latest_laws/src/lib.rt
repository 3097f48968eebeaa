//! In the written machine every read takes the latest write in bus order, for each job.
#![tactic(auto)]

ghost use Rattle.latest_laws.specs.Laws.{AlwaysReadsLatest};

/// Every read of every job's run takes the latest write before it.
pub fn always_reads_latest()
    ensures { AlwaysReadsLatest }
{}
