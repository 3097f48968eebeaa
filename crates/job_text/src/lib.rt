//! Job texts: reads them as plans, prints plans, and makes jobs of a shape and the images of its cores. The first fault of a
//! text, in a fixed order of steps, is told in place of a plan, and the first fault of the images in place of a job.
#![tactic(auto)]

mod cutting;
pub mod examples;
mod gathered;
mod generating;
mod job_fault;
mod joining;
mod judging;
pub mod laws;
mod misread;
mod naming;
mod numerals;
mod one_line;
mod order;
mod plan;
mod planning;
mod printing;
mod reading;
mod rows;
mod saying;

pub use cutting::{code_of, next_field, only_field};
pub use generating::generate;
pub use job_fault::{HeadWord, JobFault, LineCause};
pub use joining::join_job;
pub use plan::{JobPlan, Program, Programs};
pub use printing::print_plan;
pub use reading::read_plan;
