//! How a command ends.
//!
//! `tool` answers a status, and the program ends with its number. What each leaves of the sink, the files and the hardware
//! is `Carries` in `specs/Commands.antt`, by the class of the status: nothing was put on `ReadFault` and `Missing`, nothing or,
//! under `replay`, a front of its text on `Memory`, a front of the text on `WriteFault`, and the whole text that is due on each
//! other.

ghost use Rattle.std.specs.Prelude.{◌≡◌};
ghost use Rattle.pg_cmd_base.specs.Codes.{code_of};

/// How a command ended. The program ends with its number.
#[derive(Clone, Copy, Debug, PartialEq, Eq)]
pub enum Status {
    /// The text of the command was written whole; where the command answers whether a monitor may run a machine, it may.
    Done,
    /// A monitor may not run the machine: a certificate shows an instruction that is neither privileged nor innocuous.
    Refused,
    /// It stays open whether a monitor may run the machine: a certificate leaves a question open.
    Unsettled,
    /// The words are none that the program takes.
    Words,
    /// The description is refused: it is not read, or is not valid.
    Description,
    /// An image is refused.
    Image,
    /// A certificate is refused.
    Certificate,
    /// More cells are wanted than the machine has, beside those of the monitors where there are some.
    Room,
    /// A file could not be read.
    ReadFault,
    /// The text, or the certificate or the guest that is to be saved, could not be written.
    WriteFault,
    /// Memory was refused. The hardware did no step.
    Memory,
    /// A file that the words name is not there.
    Missing,
    /// A source is refused.
    Source,
    /// The text of a saved guest is refused.
    Saved,
}

impl Status {
    /// The number of the status: from 0 to 13, in the order above.
    pub fn code(self) -> u8
        ensures { result ≡ code_of self }
    {
        match self {
            Status::Done => 0,
            Status::Refused => 1,
            Status::Unsettled => 2,
            Status::Words => 3,
            Status::Description => 4,
            Status::Image => 5,
            Status::Certificate => 6,
            Status::Room => 7,
            Status::ReadFault => 8,
            Status::WriteFault => 9,
            Status::Memory => 10,
            Status::Missing => 11,
            Status::Source => 12,
            Status::Saved => 13,
        }
    }
}
