ghost use Rattle.std.specs.Prelude.{◌≡◌};
ghost use Rattle.bcv_publish.specs.ManifestGet.{unread_work};

use crate::work::Work;

/// Why no manifest was read.
#[derive(Clone, Copy)]
pub(crate) enum Unread {
    /// There is none.
    Missing,
    /// The object is no manifest of this container; `at` is the place of the field at fault, in bytes.
    Bad { at: u64 },
    /// The request failed.
    Failed,
    NoMemory,
}

impl Unread {
    /// What a get answers then.
    pub(crate) fn work(self) -> Work
        ensures { result ≡ unread_work self }
    {
        match self {
            Unread::Missing => Work::NoContainer,
            Unread::Bad { at } => Work::BadManifest { at },
            Unread::Failed => Work::StoreFault,
            Unread::NoMemory => Work::NoMemory,
        }
    }
}
