use bcv_base::Latest;

/// How the put of a container's first manifest ended.
#[derive(Drop)]
pub enum Created {
    /// It is the first version, and this is its manifest with its etag.
    Done(Latest),
    /// There is a manifest.
    Exists,
    /// The request failed, so it is open whether the version was appended.
    Unknown,
    NoMemory,
}
