//! What is told on `err`.
ghost use Rattle.std.specs.Prelude.{◌≡◌};
ghost use Rattle.pmsi_tool.specs.declared.complaint.Complaint.TheVariants.{Stopped};

use tool_files::Stop;

/// An answer that is told on `err` by its line.
#[derive(Clone, Copy, Debug, PartialEq, Eq)]
pub enum Complaint {
    /// The words ask for nothing.
    Usage,
    /// The command came to no result on its files.
    Stopped(Stop),
}

impl From<Stop> for Complaint {
    ghost from_gives = { λ stop e. e ≡ Stopped stop };

    fn from(stop: Stop) -> Complaint {
        Complaint::Stopped(stop)
    }
}
