//! The greatest published numbers. Each stands here alone; specs/Limits.antt gives them to
//! contracts.

/// Documents of a library.
pub const MOST_DOCUMENTS: u32 = 65_536;

/// Terms of a vocabulary.
pub const MOST_TERMS: u32 = 131_072;

/// Hits of a search.
pub const MOST_HITS: u32 = 64;

/// Rows of records of a bucket.
pub const MOST_ROWS: u32 = 65_536;

/// Bins of texts.
pub const MOST_BINS: u32 = 65_536;

/// Chunks of a bin.
pub const MOST_CHUNKS: u32 = 131_072;

/// Bytes of a bin.
pub const MOST_BIN_BYTES: u32 = 4_194_304;
