//! How many and how large the parts of a container may be.

/// The writers of a manifest.
pub const MOST_WRITERS: u32 = 4_096;

/// The databases of a manifest.
pub const MOST_DATABASES: u32 = 1_024;

/// The blocks of a database.
pub const MOST_BLOCKS: u32 = 65_536;

/// The dead blocks of a manifest.
pub const MOST_DEAD: u32 = 1_048_576;

/// The bytes of a manifest.
pub const MOST_BYTES: u32 = 67_108_864;
