//! The table of the commands: a row of each function is a command, an option or a positional.
ghost use Rattle.std.specs.Prelude.{◌≡◌};
ghost use Rattle.tool_words.specs.Meaning.{command_of};
ghost use Rattle.tool_words.specs.Table.{choice_id, choices_of, place_id, places_of, word_of};

/// The threads that simulate a job where the words don't say how many.
pub const DEFAULT_WORKERS: u32 = 2;

/// The cores of a made job where the words don't say how many.
pub const DEFAULT_CORES: u32 = 4;

/// The slots of a made job where the words don't say how many.
pub const DEFAULT_SLOTS: u32 = 20_000;

/// A command, which the first word names.
#[derive(Clone, Copy, Debug, PartialEq, Eq)]
pub enum Command {
    Run,
    Sim,
    Trace,
    Asm,
    Dis,
    Image,
    Gen,
    Debug,
}

/// An option, which takes one value.
#[derive(Clone, Copy, Debug, PartialEq, Eq)]
pub enum Choice {
    Workers,
    Trace,
    Touches,
    Cores,
    Slots,
    Run,
}

/// A positional, which must be there.
#[derive(Clone, Copy, Debug, PartialEq, Eq)]
pub enum Place {
    Job,
    Source,
    Image,
    Seed,
    Script,
}

/// The command that this word names.
pub(crate) fn command_named(word: &str) -> Option<Command>
    ensures { result ≡ command_of word.now }
{
    match word {
        "run" => Some(Command::Run),
        "sim" => Some(Command::Sim),
        "trace" => Some(Command::Trace),
        "asm" => Some(Command::Asm),
        "dis" => Some(Command::Dis),
        "image" => Some(Command::Image),
        "gen" => Some(Command::Gen),
        "debug" => Some(Command::Debug),
        _ => None,
    }
}

impl Command {
    pub(crate) fn word<'a>(self) -> &'a str
        ensures { result.now ≡ word_of self }
    {
        match self {
            Command::Run => "run",
            Command::Sim => "sim",
            Command::Trace => "trace",
            Command::Asm => "asm",
            Command::Dis => "dis",
            Command::Image => "image",
            Command::Gen => "gen",
            Command::Debug => "debug",
        }
    }

    pub(crate) fn choices(self) -> &'static [Choice]
        ensures { result.now ≡ choices_of self }
    {
        match self {
            Command::Run => &[Choice::Trace, Choice::Touches],
            Command::Sim => &[Choice::Workers, Choice::Trace, Choice::Touches],
            Command::Gen => &[Choice::Cores, Choice::Slots, Choice::Run],
            Command::Trace | Command::Asm | Command::Dis | Command::Image | Command::Debug => &[],
        }
    }

    pub(crate) fn places(self) -> &'static [Place]
        ensures { result.now ≡ places_of self }
    {
        match self {
            Command::Run | Command::Sim | Command::Trace => &[Place::Job],
            Command::Asm => &[Place::Source],
            Command::Dis | Command::Image => &[Place::Image],
            Command::Gen => &[Place::Seed],
            Command::Debug => &[Place::Job, Place::Script],
        }
    }
}

impl Choice {
    pub(crate) fn id<'a>(self) -> &'a str
        ensures { result.now ≡ choice_id self }
    {
        match self {
            Choice::Workers => "workers",
            Choice::Trace => "trace",
            Choice::Touches => "touches",
            Choice::Cores => "cores",
            Choice::Slots => "slots",
            Choice::Run => "run",
        }
    }
}

impl Place {
    pub(crate) fn id<'a>(self) -> &'a str
        ensures { result.now ≡ place_id self }
    {
        match self {
            Place::Job => "job",
            Place::Source => "source",
            Place::Image => "image",
            Place::Seed => "seed",
            Place::Script => "script",
        }
    }
}
