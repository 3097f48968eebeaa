//! Reads job texts.

ghost use Rattle.std.specs.Prelude.{◌≡◌, ◌≢◌, ◌⊎◌, ◌≤◌, length, Ok, Err, IfOk, IfErr};
ghost use Rattle.pmsi_model.specs.declared.limits.TheConstants.{MAX_FILE_BYTES};
ghost use Rattle.job_text.specs.declared.job_fault.JobFault.{JobFault};
ghost use Rattle.job_text.specs.declared.plan.JobPlan.{JobPlan};
ghost use Rattle.job_text.specs.Plans.{IsPlanOf, HasJobFault};

use crate::job_fault::JobFault;
use crate::plan::JobPlan;
use crate::planning::plan_of;
use crate::rows::read_rows;
use pmsi_model::limits::MAX_FILE_BYTES;
use std::alloc::Global;

/// Reads a job text: the plan that its lines give, or the first thing that is wrong with it.
pub fn read_plan(alloc: Global, bytes: &[u8]) -> Result<JobPlan, JobFault>
    requires { length bytes.now ≤ MAX_FILE_BYTES }
    // What is read is the plan of these bytes, and a fault is the first that they have.
    ensures plan { IfOk result (λ plan. IsPlanOf bytes.now plan) }
    ensures fault { IfErr result (λ fault. fault ≢ JobFault.NoMemory → HasJobFault bytes.now fault) }
    // A plan that the bytes have is read, and where they have a fault it is answered, unless memory runs out.
    ensures reads { (plan : JobPlan) → IsPlanOf bytes.now plan → (result ≡ Ok plan) ⊎ (result ≡ Err JobFault.NoMemory) }
    ensures fails { (fault : JobFault) → HasJobFault bytes.now fault → (result ≡ Err fault) ⊎ (result ≡ Err JobFault.NoMemory) }
{
    match plan_in(alloc, bytes) {
        Ok(plan) => Ok(plan),
        Err(fault) => Err(fault),
    }
}

/// The plan of a text, or its first fault.
fn plan_in(alloc: Global, bytes: &[u8]) -> Result<JobPlan, JobFault>
    requires { length bytes.now ≤ MAX_FILE_BYTES }
    ensures plan { IfOk result (λ plan. IsPlanOf bytes.now plan) }
    ensures fault { IfErr result (λ fault. fault ≢ JobFault.NoMemory → HasJobFault bytes.now fault) }
{
    let Ok(text) = str::from_utf8(bytes) else {
        return Err(JobFault::NotText);
    };
    let gathered = match read_rows(alloc, text) {
        Ok(gathered) => gathered,
        Err(fault) => return Err(fault),
    };
    match plan_of(alloc, gathered) {
        Ok(plan) => Ok(plan),
        Err(fault) => Err(fault),
    }
}
