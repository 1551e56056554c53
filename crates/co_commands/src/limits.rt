//! The program's limits, and what stands for an option that isn't given.

use co_noise::MOST_HITS;

/// The most bytes of a corpus file.
pub const LARGEST_CORPUS: u64 = 268_435_456;

/// The most bytes of a library file.
pub const LARGEST_LIBRARY: u64 = 671_088_640;

/// The most digits of a number of 32 bits.
pub const SHORT_DIGITS: usize = 10;

/// The most digits of a number of 64 bits.
pub const LONG_DIGITS: usize = 20;

/// The last rank that may be picked.
pub const LAST_PICK: u32 = MOST_HITS;

/// The greatest number of a port.
pub const LAST_PORT: u32 = 65_535;

/// The most connections that a library is served on.
pub const MOST_CONNECTIONS: u32 = 1_000_000;

/// The degree of a library, if no other is asked.
pub const DEFAULT_DEGREE: u32 = 4_096;

/// The most terms of a vocabulary, if no other number is asked.
pub const DEFAULT_TERMS: u32 = 16_384;

/// The most hits of a search, if no other number is asked.
pub const DEFAULT_HITS: u32 = 16;

/// The salt of the buckets, if no other is asked.
pub const DEFAULT_SALT: u32 = 0;

/// The fewest chunks of a bin, if no other number is asked.
pub const DEFAULT_CHUNKS: u32 = 1;

/// The rank of the hit whose document is printed, if no other is asked.
pub const DEFAULT_PICK: u32 = 1;

/// How many workers compute a reply, if no other number is asked.
pub const DEFAULT_WORKERS: u32 = 4;

/// The port that a library is served at, if no other is asked.
pub const DEFAULT_PORT: u32 = 8_080;

/// On how many connections a library is served, if no other number is asked.
pub const DEFAULT_CONNECTIONS: u32 = 1;
