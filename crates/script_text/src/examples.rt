//! Worked examples: each function has an empty body, and its contract says what the definitions give for small scripts.

ghost use Rattle.script_text.specs.Examples.{ReadsScripts, RunsScripts};

/// What texts say as scripts, and their first faults.
pub fn reads_scripts()
    ensures { ReadsScripts }
{}

/// What scripts print.
pub fn runs_scripts()
    ensures { RunsScripts }
{}
