//! Makes a plan of what all lines say together.

ghost use Rattle.std.specs.Prelude.{◌≡◌, ◌≢◌, ◌<◌, ◌^◌, List, None, Some, IfOk, IfErr};
ghost use Rattle.job_text.specs.declared.job_fault.HeadWord.TheVariants as head;
ghost use Rattle.job_text.specs.declared.saying.Saying.{Saying};
ghost use Rattle.job_text.specs.Faults.{heads_limit, missing_core, missing_head, said_fault, text_limit, value_of, words_limit};
ghost use Rattle.job_text.specs.Gathering.{HasSaid};
ghost use Rattle.job_text.specs.Plans.{SaysPrograms, SaysShape};

use crate::gathered::Gathered;
use crate::job_fault::{HeadWord, JobFault};
use crate::judging::{core_limit, heads_limit, missing_core, missing_head};
use crate::plan::{JobPlan, Program, Programs};
use pmsi_model::Geometry;
use pmsi_model::limits::MAX_TEXT_WORDS;
use std::alloc::Global;

/// The plan of what all lines say, or the first thing that is wrong with it.
pub(crate) fn plan_of(alloc: Global, gathered: Gathered) -> Result<JobPlan, JobFault>
    ensures ok { IfOk result (λ plan. (said : List Saying) → HasSaid gathered said
        → (said_fault said ≡ None) × SaysShape said plan.shape × SaysPrograms said plan.shape.cores plan.programs) }
    ensures err { IfErr result (λ e. e ≢ JobFault.NoMemory → (said : List Saying) → HasSaid gathered said → said_fault said ≡ Some e) }
{
    if let Some(fault) = missing_head(&gathered) {
        return Err(fault);
    }
    if let Some(fault) = heads_limit(&gathered) {
        return Err(fault);
    }
    let shape = shape_of(&gathered);
    if let Some(fault) = core_limit(&gathered, shape.cores) {
        return Err(fault);
    }
    if let Some(fault) = missing_core(&gathered, shape.cores) {
        return Err(fault);
    }
    match programs_of(alloc, gathered, shape.cores) {
        Ok(programs) => Ok(JobPlan { shape, programs }),
        Err(fault) => Err(fault),
    }
}

/// The shape, once its numbers are known to be within their limits.
fn shape_of(gathered: &Gathered) -> Geometry
    ensures { (said : List Saying) → HasSaid gathered.now said → missing_head said ≡ None → heads_limit said ≡ None → SaysShape said result }
{
    Geometry {
        cores: number_of(gathered, HeadWord::Cores),
        quantum: number_of(gathered, HeadWord::Quantum),
        line_words: number_of(gathered, HeadWord::Line),
        sets: number_of(gathered, HeadWord::Sets),
        ways: number_of(gathered, HeadWord::Ways),
        memory: number_of(gathered, HeadWord::Memory),
        slots: number_of(gathered, HeadWord::Slots),
    }
}

/// The number of a head, where it has 32 bits.
fn number_of(gathered: &Gathered, word: HeadWord) -> u32
    ensures { (said : List Saying) → HasSaid gathered.now said → value_of word said < 2 ^ 32 → result ≡ value_of word said }
{
    gathered.value(word).min(u64::from(u32::MAX)) as u32
}

/// The programs of all cores, which are known to be there, unless one has too many words.
fn programs_of(alloc: Global, gathered: Gathered, cores: u32) -> Result<Programs, JobFault>
    ensures ok { IfOk result (λ programs. (said : List Saying) → HasSaid gathered said → cores ≡ value_of head.Cores said → missing_core said ≡ None
        → (text_limit said ≡ None) × SaysPrograms said cores programs) }
    ensures err { IfErr result (λ e. e ≢ JobFault.NoMemory → (said : List Saying) → HasSaid gathered said → cores ≡ value_of head.Cores said
        → missing_core said ≡ None → text_limit said ≡ Some e) }
{
    let mut left = gathered.programs;
    let mut programs = Vec::new(alloc);
    for core in 0..cores {
        let Some(program) = left.remove(&core) else {
            return Err(JobFault::Missing(HeadWord::Core(core)));
        };
        if let Some(fault) = words_limit(core, &program) {
            return Err(fault);
        }
        programs.push(program)?;
    }
    Ok(Programs::from_vec(programs))
}

/// A core's text has too many words.
fn words_limit(core: u32, program: &Program) -> Option<JobFault>
    ensures { result ≡ words_limit core (Some program.now) }
{
    match program {
        Program::Words(words) => {
            let count = words.as_slice().len();
            if count <= MAX_TEXT_WORDS as usize {
                None
            } else {
                Some(JobFault::Limit(HeadWord::Core(core), count as u64))
            }
        }
        Program::Asm(_) | Program::Image(_) => None,
    }
}
