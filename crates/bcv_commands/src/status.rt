ghost use Rattle.std.specs.Prelude.{◌≡◌};
ghost use Rattle.bcv_commands.specs.StatusCodes.{status_code};

use bcv_base::Id16;
use bcv_model::Reply;

/// What of the store or of the journal could not be read.
#[derive(Clone, Copy, Debug, PartialEq, Eq)]
pub enum What {
    Manifest,
    Block,
    Journal,
}

/// How a command ended.
#[derive(Drop)]
pub enum Status {
    Done,
    /// The words are no command.
    BadWords,
    /// A line of the script, or of a commit's input, counted from 1, is none; `at` is the place in it.
    BadScript { line: u64, at: u32 },
    /// The input failed.
    ReadFault,
    /// The output failed. What was published stands.
    WriteFault,
    /// Memory ran out.
    NoMemory,
    StoreFault,
    DiskFault,
    /// An ask was refused, with this reply.
    Refused(Reply),
    /// It isn't known whether the publication of this id was made.
    Unknown(Id16),
    NamesFault,
    ClockFault,
    /// The input, or a line of it, is too long.
    TooLong,
    /// The manifest or the journal is bad at this place, or a block has this length.
    BadStore { what: What, at: u64 },
}

impl Status {
    /// The exit status that stands for it.
    pub fn code(&self) -> u8
        ensures { result ≡ status_code self.now }
    {
        match self {
            Status::Done => 0,
            Status::BadWords => 2,
            Status::BadScript { .. } => 3,
            Status::ReadFault => 4,
            Status::WriteFault => 5,
            Status::NoMemory => 6,
            Status::StoreFault => 7,
            Status::DiskFault => 8,
            Status::Refused(_) => 9,
            Status::Unknown(_) => 10,
            Status::NamesFault => 11,
            Status::ClockFault => 12,
            Status::TooLong => 13,
            Status::BadStore { .. } => 14,
        }
    }
}
