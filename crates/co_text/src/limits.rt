//! Limits that several crates share.

/// The most distinct terms of a query.
pub const MOST_KEYWORDS: usize = 16;

/// The most bytes of a term.
pub const LONGEST_TERM: usize = 64;

/// The most bytes of a title.
pub const LONGEST_TITLE: usize = 200;

/// The most bytes of a document's text.
pub const LONGEST_TEXT: usize = 4_194_304;

/// The most documents of a corpus.
pub const MOST_DOCUMENTS: usize = 65_536;
