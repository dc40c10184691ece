ghost use Rattle.std.specs.Prelude.{◌≡◌};
ghost use Rattle.bcvd.specs.Faults.{client_fault, fault_code, rise_fault, store_fault};

use bcv_client::UpFault;
use bcv_host::OpenFault;
use thiserror::Error;

/// Why the program ended with another status than 0.
#[derive(Debug, Drop, Error)]
pub enum Fault {
    #[error("bad words")]
    BadWords,
    #[error("write fault")]
    WriteFault,
    #[error("no memory")]
    NoMemory,
    #[error("cannot use {0}")]
    Store(String),
    #[error("cannot use {0}")]
    Client(String),
    #[error("disk fault")]
    DiskFault,
    #[error("names fault")]
    NamesFault,
    #[error("bad journal at {0}")]
    BadJournal(u64),
    #[error("cannot serve {0}")]
    Address(String),
}

impl Fault {
    /// The exit status that stands for it.
    pub fn code(&self) -> u8
        ensures { result ≡ fault_code self.now }
    {
        match self {
            Fault::BadWords => 2,
            Fault::WriteFault => 5,
            Fault::NoMemory => 6,
            Fault::Store(_) => 7,
            Fault::Client(_) | Fault::DiskFault => 8,
            Fault::NamesFault => 11,
            Fault::BadJournal(_) => 14,
            Fault::Address(_) => 15,
        }
    }
}

/// The fault of a store's folder that cannot be used: out of memory names no word.
pub fn of_store(fault: OpenFault, word: String) -> Fault
    ensures { result ≡ store_fault fault word }
{
    match fault {
        OpenFault::NoMemory => Fault::NoMemory,
        _ => Fault::Store(word),
    }
}

/// The fault of a client's folder that cannot be used: out of memory names no word.
pub fn of_client(fault: OpenFault, word: String) -> Fault
    ensures { result ≡ client_fault fault word }
{
    match fault {
        OpenFault::NoMemory => Fault::NoMemory,
        _ => Fault::Client(word),
    }
}

/// The fault of a client that does not come up.
pub fn of_rising(fault: UpFault) -> Fault
    ensures { result ≡ rise_fault fault }
{
    match fault {
        UpFault::NotJournal(at) => Fault::BadJournal(at),
        UpFault::DiskFault => Fault::DiskFault,
        UpFault::NamesFault => Fault::NamesFault,
        UpFault::NoMemory => Fault::NoMemory,
    }
}
