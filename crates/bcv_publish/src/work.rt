ghost use Rattle.std.specs.Prelude.{◌≡◌};
ghost use Rattle.bcv_publish.specs.BlockPut.{block_work};

use bcv_dbmap::EditFault;

/// What a request of a task came to, short of the manifest's put.
#[derive(Clone, Copy, Debug, PartialEq, Eq)]
pub enum Work {
    /// The task goes on.
    More,
    /// There is nothing to do, and the task has ended.
    Nothing,
    /// The edit cannot be published over the manifest that was read.
    Fault(EditFault),
    /// There is no manifest.
    NoContainer,
    /// The object is no manifest of this container; `at` is the place of the field at fault, in bytes.
    BadManifest { at: u64 },
    /// A block of an earlier version is there no more.
    Gone,
    /// A block has this many bytes, which are not the block size.
    BadBlock { len: u64 },
    /// A drawn name is that of a block.
    NameTaken,
    StoreFault,
    NamesFault,
    ClockFault,
    NoMemory,
}

/// How a put of the manifest ended.
#[derive(Clone, Copy, Debug, PartialEq, Eq)]
pub enum PutEnd {
    /// The version of this number was appended.
    Published(u64),
    /// Another publication came in between: the manifest has to be read again.
    Refused,
    /// The eighth put was refused; these are the numbers of the manifests that were read, in order.
    Contended([u64; 8]),
    /// The request failed, so it is open whether the version was appended.
    Unknown,
    NoMemory,
}

/// How the put of a block under a drawn name ended.
#[derive(Clone, Copy, Debug, PartialEq, Eq)]
pub enum BlockEnd {
    /// The block is there, under the name that was drawn.
    Stored,
    /// The drawn name is that of a block.
    NameTaken,
    StoreFault,
    NamesFault,
    NoMemory,
}

impl BlockEnd {
    /// Converts to the answer of the task that put the block.
    pub fn work(self) -> Work
        ensures { result ≡ block_work self }
    {
        match self {
            BlockEnd::Stored => Work::More,
            BlockEnd::NameTaken => Work::NameTaken,
            BlockEnd::StoreFault => Work::StoreFault,
            BlockEnd::NamesFault => Work::NamesFault,
            BlockEnd::NoMemory => Work::NoMemory,
        }
    }
}
