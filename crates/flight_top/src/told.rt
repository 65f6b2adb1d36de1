ghost use Rattle.std.specs.Prelude.{◌≡◌};
ghost use Rattle.flight_top.specs.Told.{code_of};

/// How a call ended. The program exits with its code.
#[derive(Clone, Copy, Debug, PartialEq, Eq)]
pub enum Status {
    /// What was asked for was printed.
    Done,
    /// The words are no command.
    Usage,
    /// The bundle is refused.
    Bundle,
    /// The stream, the reply, the sending or the dispatch is refused.
    Stream,
    /// Rendering costs more than the fuel.
    Fuel,
    /// Rendering waits for a source that nobody settles.
    Stalled,
    /// The source failed.
    Read,
    /// The sink failed.
    Write,
    /// Memory was wanting.
    Memory,
}

impl Status {
    /// The exit code: from 0 to 8, in the order of the variants.
    pub fn code(&self) -> u8
        ensures { result ≡ code_of self.now }
    {
        match self {
            Status::Done => 0,
            Status::Usage => 1,
            Status::Bundle => 2,
            Status::Stream => 3,
            Status::Fuel => 4,
            Status::Stalled => 5,
            Status::Read => 6,
            Status::Write => 7,
            Status::Memory => 8,
        }
    }
}

/// What a call tells its caller, besides what it wrote.
#[derive(Debug, Drop)]
pub struct Told {
    pub status: Status,
}
