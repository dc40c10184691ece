ghost use Rattle.std.specs.Prelude.{◌≡◌, MatchResult};
ghost use Rattle.bcv_commands.specs.StatusCodes.{status_code};
ghost use Rattle.bcv_commands.specs.declared.status.Status.TheVariants.{Done};
ghost use Rattle.bcvutil.specs.Faults.{ended_as, fault_code, fault_of, unreadable_of, unusable_of};

use bcv_base::Id16;
use bcv_commands::{Status, What};
use bcv_host::OpenFault;
use std::fmt;
use thiserror::Error;

/// An id, which is printed as 32 hex digits.
#[derive(Clone, Copy, Debug)]
pub struct HexId(pub Id16);

impl fmt::Display for HexId {
    fn fmt<W: fmt::Write>(&self, f: &mut fmt::Formatter<W>) -> fmt::Result {
        for digit in self.0.hex() {
            f.write_char(char::from(digit))?;
        }
        Ok(())
    }
}

/// Why the program ended with another status than 0.
#[derive(Debug, Drop, Error)]
pub enum Fault {
    #[error("cannot use {0}")]
    Store(String),
    #[error("cannot use {0}")]
    Client(String),
    #[error("bad words")]
    BadWords,
    #[error("bad script: line {line}, place {place}")]
    BadScript { line: u64, place: u32 },
    #[error("read fault")]
    ReadFault,
    #[error("write fault")]
    WriteFault,
    #[error("no memory")]
    NoMemory,
    #[error("store fault")]
    StoreFault,
    #[error("disk fault")]
    DiskFault,
    #[error("refused")]
    Refused,
    #[error("unknown {0}")]
    Unknown(HexId),
    #[error("names fault")]
    NamesFault,
    #[error("clock fault")]
    ClockFault,
    #[error("too long")]
    TooLong,
    #[error("bad manifest at {0}")]
    BadManifest(u64),
    #[error("bad block of {0} bytes")]
    BadBlock(u64),
    #[error("bad journal at {0}")]
    BadJournal(u64),
}

impl Fault {
    /// The exit status that stands for it.
    pub fn code(&self) -> u8
        ensures { result ≡ fault_code self.now }
    {
        match self {
            Fault::BadWords => 2,
            Fault::BadScript { .. } => 3,
            Fault::ReadFault => 4,
            Fault::WriteFault => 5,
            Fault::NoMemory => 6,
            Fault::Store(_) | Fault::StoreFault => 7,
            Fault::Client(_) | Fault::DiskFault => 8,
            Fault::Refused => 9,
            Fault::Unknown(_) => 10,
            Fault::NamesFault => 11,
            Fault::ClockFault => 12,
            Fault::TooLong => 13,
            Fault::BadManifest(_) | Fault::BadBlock(_) | Fault::BadJournal(_) => 14,
        }
    }
}

/// The fault that a status stands for, where the command wasn't done: it has the status's code.
pub fn of(status: Status) -> Result<(), Fault>
    ensures fault { result ≡ fault_of status }
    ensures code { MatchResult result (λ _. status ≡ Done) (λ f. fault_code f ≡ status_code status) }
{
    match status {
        Status::Done => Ok(()),
        Status::BadWords => Err(Fault::BadWords),
        Status::BadScript { line, at } => Err(Fault::BadScript { line, place: at }),
        Status::ReadFault => Err(Fault::ReadFault),
        Status::WriteFault => Err(Fault::WriteFault),
        Status::NoMemory => Err(Fault::NoMemory),
        Status::StoreFault => Err(Fault::StoreFault),
        Status::DiskFault => Err(Fault::DiskFault),
        Status::Refused(_) => Err(Fault::Refused),
        Status::Unknown(id) => Err(Fault::Unknown(HexId(id))),
        Status::NamesFault => Err(Fault::NamesFault),
        Status::ClockFault => Err(Fault::ClockFault),
        Status::TooLong => Err(Fault::TooLong),
        Status::BadStore { what, at } => Err(unreadable(what, at)),
    }
}

// The fault of what could not be read.
fn unreadable(what: What, at: u64) -> Fault
    ensures { result ≡ unreadable_of what at }
{
    match what {
        What::Manifest => Fault::BadManifest(at),
        What::Block => Fault::BadBlock(at),
        What::Journal => Fault::BadJournal(at),
    }
}

/// The fault of a command that ended at a status: a write fault where its output could not be flushed.
pub fn ended(status: Status, flushed: bool) -> Result<(), Fault>
    ensures { result ≡ ended_as flushed status }
{
    if flushed {
        of(status)
    } else {
        Err(Fault::WriteFault)
    }
}

/// Which of the two folders a word names.
#[derive(Clone, Copy, Debug, PartialEq, Eq)]
pub enum Folder {
    Store,
    Client,
}

/// The fault of a folder's word that could not be used: out of memory names no word.
pub fn unusable(folder: Folder, fault: OpenFault, word: String) -> Fault
    ensures { result ≡ unusable_of folder fault word }
{
    match (fault, folder) {
        (OpenFault::NoMemory, _) => Fault::NoMemory,
        (_, Folder::Store) => Fault::Store(word),
        (_, Folder::Client) => Fault::Client(word),
    }
}
