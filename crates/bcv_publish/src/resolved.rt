/// What became of a publication whose put was not answered.
#[derive(Clone, Copy, Debug, PartialEq, Eq)]
pub enum Resolved {
    /// It is the version of this number.
    At(u64),
    /// It was not appended, and no later request will append it.
    Voided,
    /// The object is no manifest of this container; `at` is the place of the field at fault, in bytes.
    BadManifest { at: u64 },
    StoreFault,
    NoMemory,
}
