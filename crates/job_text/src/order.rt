//! The order of heads, and their limits.

ghost use Rattle.std.specs.Prelude.{◌≡◌, ◌*◌, ◌%◌, ◌==◌, ◌&&◌, nat_lt};
ghost use Rattle.job_text.specs.Faults.{all_heads, shape_heads, is_between, is_within};

use crate::job_fault::HeadWord;
use pmsi_model::limits;

/// The heads in their order.
pub(crate) fn all_heads() -> &'static [HeadWord]
    ensures { result.now ≡ all_heads }
{
    &[
        HeadWord::Version,
        HeadWord::Cores,
        HeadWord::Quantum,
        HeadWord::Line,
        HeadWord::Sets,
        HeadWord::Ways,
        HeadWord::Memory,
        HeadWord::Slots,
    ]
}

/// The heads that have limits, in their order.
pub(crate) fn shape_heads() -> &'static [HeadWord]
    ensures { result.now ≡ shape_heads }
{
    &[
        HeadWord::Cores,
        HeadWord::Quantum,
        HeadWord::Line,
        HeadWord::Sets,
        HeadWord::Ways,
        HeadWord::Memory,
        HeadWord::Slots,
    ]
}

/// Whether the number of a head is within its limits, with lines of so many words.
#[tactic(auto, unfolding(crate::specs::Faults::is_within))]
pub(crate) fn is_within(line_words: u64, word: HeadWord, number: u64) -> bool
    ensures { result ≡ is_within line_words word number }
{
    match word {
        HeadWord::Version | HeadWord::Core(_) => true,
        HeadWord::Cores => is_between(1, limits::MAX_CORES, number),
        HeadWord::Quantum => is_between(1, limits::MAX_QUANTUM, number),
        HeadWord::Line => {
            is_between(limits::MIN_LINE_WORDS, limits::MAX_LINE_WORDS, number)
                && number.is_power_of_two()
        }
        HeadWord::Sets => is_between(1, limits::MAX_SETS, number) && number.is_power_of_two(),
        HeadWord::Ways => is_between(1, limits::MAX_WAYS, number),
        HeadWord::Memory => {
            is_between(limits::MIN_MEMORY, limits::MAX_MEMORY, number)
                && is_whole(line_words, number)
        }
        HeadWord::Slots => number <= u64::from(limits::MAX_SLOTS),
    }
}

fn is_between(least: u32, greatest: u32, number: u64) -> bool
    ensures { result ≡ is_between least greatest number }
{
    u64::from(least) <= number && number <= u64::from(greatest)
}

/// Whether so many bytes are whole lines.
fn is_whole(line_words: u64, bytes: u64) -> bool
    ensures { result ≡ (nat_lt 0 line_words && bytes % (4 * line_words) == 0) }
{
    line_words > 0 && u128::from(bytes) % (4 * u128::from(line_words)) == 0
}
