ghost use Rattle.std.specs.Prelude.{◌≡◌};
ghost use Rattle.bcv_tasks.specs.TaskPut.{answer_of};

use bcv_publish::PutEnd;

/// How the manifest's put of a publishing task ended.
#[derive(Clone, Copy, Debug, PartialEq, Eq)]
pub enum PutAnswer {
    /// The version of this number was appended.
    Published(u64),
    /// Another publication came in between: the manifest has to be read again.
    Refused,
    /// The eighth put was refused; these are the numbers of the manifests that were read, in order.
    Contended([u64; 8]),
    /// A create found a manifest.
    Exists,
    /// The request failed, so it is open whether the version was appended.
    Unknown,
    NoMemory,
}

impl PutAnswer {
    // What a publication's put that ended so answers.
    pub(crate) fn of(end: PutEnd) -> PutAnswer
        ensures { result ≡ answer_of end }
    {
        match end {
            PutEnd::Published(number) => PutAnswer::Published(number),
            PutEnd::Refused => PutAnswer::Refused,
            PutEnd::Contended(numbers) => PutAnswer::Contended(numbers),
            PutEnd::Unknown => PutAnswer::Unknown,
            PutEnd::NoMemory => PutAnswer::NoMemory,
        }
    }
}
