//! The published numbers of a library, and the numbers that follow from them.

ghost use Rattle.std.specs.Prelude.{◌≡◌, ◌≤◌, IsTrue};
ghost use Rattle.co_noise.specs.Shapes.{numbers, are_in_range, HasRanges, shape_of, keyword_blocks, document_blocks, levels};
ghost use Rattle.co_noise.specs.Shapes as shapes;

use crate::limits::{
    MOST_BIN_BYTES, MOST_BINS, MOST_CHUNKS, MOST_DOCUMENTS, MOST_HITS, MOST_ROWS, MOST_TERMS,
};
use co_math::{is_degree, log2_up};
use std::marker::Model;

/// The eight numbers that a library publishes, each in its range.
#[derive(Clone, Copy, Debug)]
pub struct Shape {
    /// How many coefficients a polynomial has: a power of two from 16 to 4096.
    degree: u32,
    /// How many documents the library has: 1 to `MOST_DOCUMENTS`.
    documents: u32,
    /// How many terms the vocabulary has: 0 to `MOST_TERMS`.
    terms: u32,
    /// How many hits a search gives at most: 1 to `MOST_HITS`.
    hits: u32,
    /// What the buckets of a document are hashed with: any number.
    salt: u32,
    /// How many rows of records a bucket has: 1 to `MOST_ROWS`.
    rows: u32,
    /// How many bins hold the texts: 1 to `MOST_BINS`.
    bins: u32,
    /// How many chunks, of twice the degree in bytes each, a bin has.
    chunks: u32,
}

impl Model for Shape {
    ghost use Rattle.std.specs.Prelude.{IsTrue};
    ghost use Rattle.co_noise.specs.Shapes.{Numbers, numbers, are_in_range};

    ghost Value = { Numbers };

    ghost view = { λ s. numbers s.degree s.documents s.terms s.hits s.salt s.rows s.bins s.chunks };

    ghost invariant = { λ s.
        IsTrue (are_in_range (numbers s.degree s.documents s.terms s.hits s.salt
        s.rows s.bins s.chunks)) };

    ghost inverse = { λ s. record {
      degree = s.degree;
      documents = s.documents;
      terms = s.terms;
      hits = s.hits;
      salt = s.salt;
      rows = s.rows;
      bins = s.bins;
      chunks = s.chunks;
    } };
}

/// Whether a bin may have so many chunks: at least one, at most `MOST_CHUNKS` chunks and
/// `MOST_BIN_BYTES` bytes.
pub fn is_chunk_count(degree: u32, chunks: u32) -> bool
    ensures { result ≡ shapes.is_chunk_count degree chunks }
{
    is_within(1, MOST_CHUNKS, chunks)
        && chunks as u64 * (2 * degree as u64) <= MOST_BIN_BYTES as u64
}

fn is_within(low: u32, high: u32, n: u32) -> bool
    ensures { result ≡ shapes.is_within low high n }
{
    low <= n && n <= high
}

impl Shape {
    /// The shape with these numbers, or nothing where one is out of its range.
    pub fn new(
        degree: u32,
        documents: u32,
        terms: u32,
        hits: u32,
        salt: u32,
        rows: u32,
        bins: u32,
        chunks: u32,
    ) -> Option<Self>
        ensures { result ≡ shape_of (numbers degree documents terms hits salt rows bins chunks) }
    {
        let good = is_degree(degree)
            && is_within(1, MOST_DOCUMENTS, documents)
            && is_within(0, MOST_TERMS, terms)
            && is_within(1, MOST_HITS, hits)
            && is_within(0, u32::MAX, salt)
            && is_within(1, MOST_ROWS, rows)
            && is_within(1, MOST_BINS, bins)
            && is_chunk_count(degree, chunks);
        if !good {
            return None;
        }
        Some(Shape {
            degree,
            documents,
            terms,
            hits,
            salt,
            rows,
            bins,
            chunks,
        })
    }

    /// How many coefficients a polynomial has.
    #[tactic(auto, using(crate::proofs::Ranges::ranges))]
    pub fn degree(&self) -> u32
        ensures value { result ≡ self.now.degree }
        ensures in_range { IsTrue (are_in_range self.now) }
        ensures ranges { HasRanges self.now }
    {
        self.degree
    }

    /// How many documents the library has.
    pub fn documents(&self) -> u32
        ensures { result ≡ self.now.documents }
    {
        self.documents
    }

    /// How many blocks of a degree hold the documents.
    #[tactic(auto, unfolding(crate::specs::Shapes::document_blocks))]
    pub fn document_blocks(&self) -> u32
        ensures { result ≡ document_blocks self.now }
    {
        self.documents.div_ceil(self.degree())
    }

    /// How many terms the vocabulary has.
    pub fn terms(&self) -> u32
        ensures { result ≡ self.now.terms }
    {
        self.terms
    }

    /// How many blocks of half a degree hold the terms, at least one.
    #[tactic(auto, unfolding(crate::specs::Shapes::keyword_blocks))]
    pub fn keyword_blocks(&self) -> u32
        ensures value { result ≡ keyword_blocks self.now }
        ensures some { 1 ≤ result }
        ensures few { result ≤ 16384 }
    {
        self.terms.div_ceil(self.degree() / 2).max(1)
    }

    /// How many hits a search gives at most.
    pub fn hits(&self) -> u32
        ensures { result ≡ self.now.hits }
    {
        self.hits
    }

    /// What the buckets of a document are hashed with.
    pub fn salt(&self) -> u32
        ensures { result ≡ self.now.salt }
    {
        self.salt
    }

    /// How many rows of records a bucket has.
    pub fn rows(&self) -> u32
        ensures { result ≡ self.now.rows }
    {
        self.rows
    }

    /// How many bins hold the texts.
    pub fn bins(&self) -> u32
        ensures { result ≡ self.now.bins }
    {
        self.bins
    }

    /// How many times the wider of the two retrievals doubles its query.
    #[tactic(auto, unfolding(crate::specs::Shapes::levels))]
    pub fn levels(&self) -> u32
        ensures value { result ≡ levels self.now }
        ensures few { result ≤ 16 }
    {
        let _degree = self.degree();
        log2_up(self.rows).max(log2_up(self.bins))
    }

    /// How many pieces of twice a degree in bytes a bin has.
    pub fn chunks(&self) -> u32
        ensures { result ≡ self.now.chunks }
    {
        self.chunks
    }
}
