//! Judges what all lines say together.

ghost use Rattle.std.specs.Prelude.{◌≡◌, nat_le, if◌then◌else◌, List};
ghost use Rattle.std.specs.List.{filter};
ghost use Rattle.job_text.specs.declared.job_fault.HeadWord.TheVariants as head;
ghost use Rattle.job_text.specs.declared.saying.Saying.{Saying};
ghost use Rattle.job_text.specs.Faults.{missing_head, heads_limit, core_limit, least, least_with, missing_core, value_of};
ghost use Rattle.job_text.specs.Gathering.{HasSaid};

use crate::gathered::Gathered;
use crate::job_fault::{HeadWord, JobFault};
use crate::order::{all_heads, is_within, shape_heads};

/// The first head that no line gives.
pub(crate) fn missing_head(gathered: &Gathered) -> Option<JobFault>
    ensures { (said : List Saying) → HasSaid gathered.now said → result ≡ missing_head said }
{
    for word in all_heads() {
        if gathered.lacks(*word) {
            return Some(JobFault::Missing(*word));
        }
    }
    None
}

/// The first head whose number is out of its limits.
pub(crate) fn heads_limit(gathered: &Gathered) -> Option<JobFault>
    ensures { (said : List Saying) → HasSaid gathered.now said → result ≡ heads_limit said }
{
    let line_words = gathered.value(HeadWord::Line);
    for word in shape_heads() {
        let number = gathered.value(*word);
        if !is_within(line_words, *word, number) {
            return Some(JobFault::Limit(*word, number));
        }
    }
    None
}

/// The least core with a program that isn't below the number of cores.
pub(crate) fn core_limit(gathered: &Gathered, cores: u32) -> Option<JobFault>
    ensures { (said : List Saying) → HasSaid gathered.now said → cores ≡ value_of head.Cores said → result ≡ core_limit said }
{
    match least_from(&gathered.cores, cores) {
        Some(core) => Some(JobFault::Limit(HeadWord::Core(core), u64::from(core))),
        None => None,
    }
}

/// The least of some numbers that isn't below another one.
fn least_from(numbers: &[u32], start: u32) -> Option<u32>
    ensures { result ≡ least (filter (λ number. nat_le start number) numbers.now) }
{
    let mut least = None;
    for number in numbers {
        least = with_number(start, *number, least);
    }
    least
}

/// The least number so far, with one more, unless that is below the start.
fn with_number(start: u32, number: u32, least: Option<u32>) -> Option<u32>
    ensures { result ≡ (if nat_le start number then least_with number least else least) }
{
    match least {
        _ if number < start => least,
        Some(other) => Some(number.min(other)),
        None => Some(number),
    }
}

/// The least core without a program.
pub(crate) fn missing_core(gathered: &Gathered, cores: u32) -> Option<JobFault>
    ensures { (said : List Saying) → HasSaid gathered.now said → cores ≡ value_of head.Cores said → result ≡ missing_core said }
{
    for core in 0..cores {
        if gathered.has_no_program(core) {
            return Some(JobFault::Missing(HeadWord::Core(core)));
        }
    }
    None
}
