//! How a run ends.

ghost use Rattle.std.specs.Prelude.{◌≡◌};
ghost use Rattle.adjudicate.specs.Statuses.{number_of, status_of_end};

use cha_outside::ReadEnd;

/// How a run ended.
#[derive(Clone, Copy, Debug, PartialEq, Eq)]
pub enum Status {
    /// The input was read to its end, and all output was written.
    Done,
    /// The words are not in the language. Nothing was read or written.
    Usage,
    /// The source failed.
    ReadFault,
    /// The sink failed.
    WriteFault,
    /// The source gave more than 268,435,456 bytes.
    TooLong,
    /// The allocator refused memory.
    NoMemory,
    /// As Done, and the certificate was not accepted.
    NotAccepted,
}

impl Status {
    /// The exit status of the program.
    pub fn number(self) -> u8
        ensures { result ≡ number_of self }
    {
        match self {
            Status::Done => 0,
            Status::Usage => 1,
            Status::ReadFault => 2,
            Status::WriteFault => 3,
            Status::TooLong => 4,
            Status::NoMemory => 5,
            Status::NotAccepted => 6,
        }
    }
}

impl From<ReadEnd> for Status {
    ghost from_gives = { λ end status. status ≡ status_of_end end };

    /// How a run ends that could not read its input.
    fn from(end: ReadEnd) -> Status {
        match end {
            ReadEnd::ReadFault => Status::ReadFault,
            ReadEnd::TooLong => Status::TooLong,
            ReadEnd::NoMemory => Status::NoMemory,
        }
    }
}
