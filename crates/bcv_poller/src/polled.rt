use bcv_base::Latest;

/// What a poll answers.
#[derive(Drop)]
pub enum Polled {
    /// The manifest is still the one with the known etag.
    Same,
    /// This is the manifest, with its etag.
    New(Latest),
    /// There is no manifest.
    NoContainer,
    /// The object is no manifest of this container; `at` is the place of the field at fault, in bytes.
    BadManifest { at: u64 },
    StoreFault,
    NoMemory,
}
