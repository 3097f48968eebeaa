//! Commands, as a script tells them.

/// A place where `go` stops: a core that runs and whose pc is this address, in bytes.
#[derive(Clone, Copy, Debug, PartialEq, Eq)]
pub struct Breakpoint {
    pub core: u32,
    pub pc: u32,
}

/// A command.
#[derive(Clone, Copy, Debug, PartialEq, Eq)]
pub enum Command {
    /// Goes on by so many slots, or to the last boundary.
    Step(u32),
    /// Lets `go` stop there from now on.
    Break(Breakpoint),
    /// Goes on to the next boundary at which a break holds, or to the last.
    Go,
    /// Prints a core's pc and registers.
    Regs(u32),
    /// Prints the lines that a core holds.
    Held(u32),
    /// Prints the word at an address of the flat memory, in bytes.
    Word(u32),
    /// Prints the state of a line in a core; the core comes first.
    State(u32, u32),
    /// Prints the slots at most that are left for a core's request.
    Left(u32),
}

/// What the first field of a line names: a command by itself, or one that takes a number, or two.
#[derive(Clone, Copy, Debug, PartialEq, Eq)]
pub(crate) enum Verb {
    Go,
    One(OneNumber),
    Two(TwoNumbers),
}

/// A command that takes one number.
#[derive(Clone, Copy, Debug, PartialEq, Eq)]
pub(crate) enum OneNumber {
    Step,
    Regs,
    Held,
    Word,
    Left,
}

/// A command that takes two numbers.
#[derive(Clone, Copy, Debug, PartialEq, Eq)]
pub(crate) enum TwoNumbers {
    Break,
    State,
}
