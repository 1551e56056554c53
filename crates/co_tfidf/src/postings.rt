//! The postings of a term: the documents that have it, each with how often.
ghost use Rattle.std.specs.Prelude.{◌≡◌, ◌<◌, ◌++◌, [], ◌∷◌, length, OnOk};
ghost use Rattle.co_tfidf.specs.Postings.{counted, last_posting};

use std::alloc::{AllocError, Global};
use std::marker::Model;

/// A count above this weighs no more, so counting stops here.
pub const MOST_COUNTED: u16 = 63;

/// The greatest weight: a count of 63 times 64 quarter bits.
pub const MOST_WEIGHT: u16 = 4_032;

/// A document that has a term, and how often, up to `MOST_COUNTED`.
#[derive(Clone, Copy, Debug)]
pub struct Posting {
    /// The document's number.
    pub document: u32,
    /// How often it has the term.
    pub count: u16,
}

/// The documents that have a term, in the order in which they were counted. There is at least one,
/// and the last stands apart from the others, since it is the one that counts on.
#[derive(Debug, Drop)]
pub struct Postings {
    before: Vec<Posting>,
    last: Posting,
}

impl Model for Postings {
    ghost use Rattle.std.specs.Prelude.{List, ◌++◌, [], ◌∷◌};
    ghost use Rattle.co_tfidf.specs.declared.postings.Posting.{Posting};

    ghost Value = { List Posting };

    ghost view = { λ p. p.before.items ++ p.last ∷ [] };
}

impl Postings {
    /// One document that has the term once.
    pub fn once(alloc: Global, document: u32) -> Self
        ensures { result ≡ counted [] document }
    {
        Postings {
            before: Vec::new(alloc),
            last: Posting { document, count: 1 },
        }
    }

    /// One more occurrence, in this document.
    pub fn count(&mut self, document: u32) -> Result<(), AllocError>
        ensures { OnOk result (self.new ≡ counted self.old document) }
    {
        if self.last.document == document {
            self.last.count = self.last.count.saturating_add(1).min(MOST_COUNTED);
            return Ok(());
        }
        self.before.push(self.last)?;
        self.last = Posting { document, count: 1 };
        Ok(())
    }

    /// The postings but for the last.
    pub fn before(&self) -> &[Posting]
        ensures { self.now ≡ result.now ++ last_posting self.now ∷ [] }
    {
        self.before.as_slice()
    }

    /// The last posting.
    pub fn last(&self) -> Posting
        ensures { result ≡ last_posting self.now }
    {
        self.last
    }

    /// How many documents have the term.
    pub fn len(&self) -> usize
        ensures { result ≡ length self.now }
    {
        self.before.len() + 1
    }
}
