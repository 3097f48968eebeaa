//! Reads the lines of a text, from the top.

ghost use Rattle.std.specs.Prelude.{◌≡◌, ◌≢◌, ◌≤◌, ◌∷◌, [], List, length, true, false, None, Some, IfOk, IfErr, OnOk};
ghost use Rattle.pmsi_model.specs.declared.limits.TheConstants.{MAX_FILE_BYTES};
ghost use Rattle.job_text.specs.Cutting.{Row, fields_between, fields_of, rows_of};
ghost use Rattle.job_text.specs.Faults.{row_fault, rows_fault, sayings_of};
ghost use Rattle.job_text.specs.Sayings.{is_version};
ghost use Rattle.job_text.specs.Rows.{IsReadTo, RefusesLine, TakesLine, TakesRow};
ghost use Rattle.job_text.specs.Gathering.{HasSaid};

use crate::cutting::{code_of, next_field, only_field};
use crate::gathered::Gathered;
use crate::job_fault::{HeadWord, JobFault, LineCause};
use crate::misread::Misread;
use crate::one_line::read_line;
use crate::saying::Saying;
use pmsi_model::limits::MAX_FILE_BYTES;
use std::alloc::Global;
use text_out::next_line;

/// What the lines so far have left: whether one had fields, and what they say.
#[derive(Drop)]
struct Reader {
    begun: bool,
    gathered: Gathered,
}

impl Reader {
    fn new(alloc: Global) -> Reader
        ensures { IsReadTo result [] }
    {
        Reader {
            begun: false,
            gathered: Gathered::new(alloc),
        }
    }

    /// Takes the line of this number.
    fn add_line(&mut self, alloc: Global, number: u32, line: &str) -> Result<(), JobFault>
        ensures ok { OnOk result ((before : List Row) → IsReadTo self.old before
            → TakesLine before (record { number = number; fields = fields_of line.now }) self.new) }
        ensures err { IfErr result (λ e. e ≢ JobFault.NoMemory → (before : List Row) → IsReadTo self.old before
            → RefusesLine before (record { number = number; fields = fields_of line.now }) e) }
    {
        match next_field(code_of(line)) {
            Some((first, rest)) => self.add_fields(alloc, number, first, rest),
            None => Ok(()),
        }
    }

    /// Takes a line that has fields.
    fn add_fields(
        &mut self,
        alloc: Global,
        number: u32,
        first: &str,
        rest: &str,
    ) -> Result<(), JobFault>
        ensures ok { OnOk result ((before : List Row) → IsReadTo self.old before
            → TakesRow before (record { number = number; fields = first.now ∷ fields_between rest.now }) self.new) }
        ensures err { IfErr result (λ e. e ≢ JobFault.NoMemory → (before : List Row) → IsReadTo self.old before
            → row_fault before (record { number = number; fields = first.now ∷ fields_between rest.now }) ≡ Some e) }
    {
        if self.begun {
            self.add_saying(alloc, number, first, rest)
        } else {
            self.begin(number, first, rest)
        }
    }

    /// Takes the first line that has fields.
    fn begin(&mut self, number: u32, first: &str, rest: &str) -> Result<(), JobFault>
        requires { self.old.begun ≡ false }
        ensures ok { OnOk result ((before : List Row) → IsReadTo self.old before
            → TakesRow before (record { number = number; fields = first.now ∷ fields_between rest.now }) self.new) }
        ensures err { IfErr result (λ e. e ≢ JobFault.NoMemory → (before : List Row) → IsReadTo self.old before
            → row_fault before (record { number = number; fields = first.now ∷ fields_between rest.now }) ≡ Some e) }
    {
        if !is_version(first, rest) {
            return Err(JobFault::Line(number, LineCause::Version));
        }
        self.gathered.add(Saying::Sets(HeadWord::Version, 1))?;
        self.begun = true;
        Ok(())
    }

    /// Takes a later line that has fields.
    fn add_saying(
        &mut self,
        alloc: Global,
        number: u32,
        first: &str,
        rest: &str,
    ) -> Result<(), JobFault>
        requires { self.old.begun ≡ true }
        ensures ok { OnOk result ((before : List Row) → IsReadTo self.old before
            → TakesRow before (record { number = number; fields = first.now ∷ fields_between rest.now }) self.new) }
        ensures err { IfErr result (λ e. e ≢ JobFault.NoMemory → (before : List Row) → IsReadTo self.old before
            → row_fault before (record { number = number; fields = first.now ∷ fields_between rest.now }) ≡ Some e) }
    {
        if first == "pmsi" {
            return Err(JobFault::Twice(HeadWord::Version));
        }
        let saying = match read_line(alloc, first, rest) {
            Ok(saying) => saying,
            Err(Misread::Cause(why)) => return Err(JobFault::Line(number, why)),
            Err(Misread::NoMemory) => return Err(JobFault::NoMemory),
        };
        if self.gathered.was_said(&saying) {
            return Err(JobFault::Twice(saying.head_word()));
        }
        self.gathered.add(saying)?;
        Ok(())
    }
}

/// Whether a line's fields are `pmsi 1`.
#[tactic(auto, unfolding(crate::specs::Sayings::is_version))]
fn is_version(first: &str, rest: &str) -> bool
    ensures { result ≡ is_version (first.now ∷ fields_between rest.now) }
{
    match only_field(rest) {
        Some(version) => first == "pmsi" && version == "1",
        None => false,
    }
}

/// Reads all lines of a text.
pub(crate) fn read_rows(alloc: Global, text: &str) -> Result<Gathered, JobFault>
    requires { length text.now ≤ MAX_FILE_BYTES }
    ensures ok { IfOk result (λ gathered. (rows_fault [] (rows_of text.now) ≡ None) × HasSaid gathered (sayings_of (rows_of text.now))) }
    ensures err { IfErr result (λ e. e ≢ JobFault.NoMemory → rows_fault [] (rows_of text.now) ≡ Some e) }
{
    let mut reader = Reader::new(alloc);
    let mut number = 1;
    let mut rest = text;
    while let Some((line, after)) = next_line(rest) {
        if let Err(fault) = reader.add_line(alloc, number, line) {
            return Err(fault);
        }
        number += 1;
        rest = after;
    }
    Ok(reader.gathered)
}
