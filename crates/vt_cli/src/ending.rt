// How a run ends.
ghost use Rattle.std.specs.Prelude.{◌≡◌};
ghost use Rattle.vt_cli.specs.Command.{status_of};

use vt_base::List;

/// What a file is to a command.
#[derive(Clone, Copy, Debug, PartialEq, Eq)]
pub enum Role {
    Metamodel,
    Model,
    Queries,
    Rules,
    Script,
}

/// How a run ends.
#[derive(Clone, Copy, Debug, PartialEq, Eq)]
pub enum Ending {
    /// The whole text was written.
    Done,
    /// The words are no command.
    Usage,
    /// A document is refused: the number of its first fault, and the place where it stands.
    BadInput { file: Role, code: u16, place: u64 },
    /// A file isn't there.
    Missing { file: Role },
    /// The device failed to give a file.
    ReadFault { file: Role },
    /// Memory ran out. A prefix of the text may have been written.
    NoMemory,
    /// The device failed to take the text. A prefix of it may have been written.
    WriteFault,
    /// A file has more bytes than a file may have. The length is one past the limit, where reading
    /// stopped.
    TooLarge { file: Role, length: u64 },
}

/// An ending, with the text that is due to it.
#[derive(Debug, Drop)]
pub struct Outcome {
    pub ending: Ending,
    pub text: List<u8>,
}

impl Ending {
    /// The exit status of the program.
    pub fn status(&self) -> u8
        ensures { result ≡ status_of self.now }
    {
        match self {
            Ending::Done => 0,
            Ending::Usage => 2,
            Ending::BadInput { .. } => 3,
            Ending::Missing { .. } | Ending::ReadFault { .. } => 4,
            Ending::NoMemory => 5,
            Ending::WriteFault => 6,
            Ending::TooLarge { .. } => 7,
        }
    }
}
