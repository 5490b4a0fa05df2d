//! How a call of the builder ended.
ghost use Rattle.std.specs.Prelude.{◌≡◌};
ghost use Rattle.br_run.specs.Status.{number_of};

/// How a call of the builder ended. Its number is the program's exit status.
#[derive(Clone, Copy, Debug, PartialEq, Eq)]
pub enum Status {
    /// All went well.
    Done,
    /// A package failed.
    PackagesFailed,
    /// A path was written by two packages.
    Overwrites,
    /// The input has a fault.
    BadInput,
    /// Memory was wanting.
    NoMemory,
    /// The input can't be read.
    FeedFault,
    /// The output can't be written.
    SinkFault,
    /// The words are no command.
    BadWords,
}

impl Status {
    /// The status as a number from 0 to 7, in the order in which they are listed here.
    pub fn number(self) -> u8
        ensures { result ≡ number_of self }
    {
        self as u8
    }
}
