//! Laws of job texts: each function has an empty body, and its contract is the law.

ghost use Rattle.job_text.specs.Laws.{JobOrFault, JobOrFaultOnly, JoinNeverMemory, NeverMemory, OneFault, OneJob, OneJoinFault, OnePlan, PlanOrFault, PlanOrFaultOnly, PlansFit, PrintedMeans};

/// A text has one plan or one fault, and not both, and want of memory is no fault of it.
pub fn plan_or_fault()
    ensures either { PlanOrFault }
    ensures one_plan { OnePlan }
    ensures one_fault { OneFault }
    ensures not_both { PlanOrFaultOnly }
    ensures never_memory { NeverMemory }
{}

/// A text's plan is within the limits.
pub fn plans_fit()
    ensures { PlansFit }
{}

/// The text of a plan that can be printed means that plan.
pub fn plans_print()
    ensures { PrintedMeans }
{}

/// The images of cores have one job or one fault, and not both, and want of memory is no fault of theirs.
pub fn job_or_fault()
    ensures either { JobOrFault }
    ensures one_job { OneJob }
    ensures one_fault { OneJoinFault }
    ensures not_both { JobOrFaultOnly }
    ensures never_memory { JoinNeverMemory }
{}
