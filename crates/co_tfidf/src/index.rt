//! The index of a corpus.
ghost use Rattle.std.specs.Prelude.{◌≡◌, ◌≤◌, ◌<◌, ◌+◌, ◌^◌, ◌++◌, [], All, map, flat_map, length, IfOk, OnOk, IsUtf8};
ghost use Rattle.co_text.specs.declared.limits.TheConstants.{MOST_DOCUMENTS};
ghost use Rattle.co_tfidf.specs.Tables.{shown, posting_entry, table_entries};
ghost use Rattle.co_tfidf.specs.Found.{IsIndex};
ghost use Rattle.co_tfidf.specs.Vocabulary.{IsVocabulary};

use crate::counting::{Counts, count_documents};
use crate::postings::{MOST_COUNTED, Posting, Postings};
use crate::quarter_bits;
use crate::vocabulary::keep_terms;
use co_corpus::Corpus;
use co_list::Listed;
use co_text::{Term, Terms};
use std::alloc::{AllocError, Global};

/// Entries of an index: term, document and weight.
pub type Entries = Listed<(u32, u32, u16)>;

/// The vocabulary of a corpus in the order of bytes, in which a term has its number, and the
/// weights of at least 1, ascending by the numbers of term and document.
#[derive(Debug, Drop)]
pub struct Index {
    /// The vocabulary, in the order of bytes.
    pub terms: Terms,
    /// The weights, ascending by term and document.
    pub weights: Entries,
}

// Adds the entry of a posting, if it has a weight.
fn add_entry(
    entries: &mut Vec<(u32, u32, u16)>,
    term: u32,
    bits: u32,
    posting: Posting,
) -> Result<(), AllocError>
    requires { bits ≤ 64 }
    ensures { OnOk result (entries.new.items ≡ entries.old.items
        ++ posting_entry term bits posting) }
{
    let weight = posting.count.min(MOST_COUNTED) * bits as u16;
    if weight > 0 {
        entries.push((term, posting.document, weight))?;
    }
    Ok(())
}

// Adds the entries of a term.
fn add_entries(
    entries: &mut Vec<(u32, u32, u16)>,
    term: u32,
    bits: u32,
    postings: &Postings,
) -> Result<(), AllocError>
    requires { bits ≤ 64 }
    ensures { OnOk result (entries.new.items ≡ entries.old.items ++ flat_map
        (posting_entry term bits) postings.now) }
{
    for posting in postings.before() {
        add_entry(entries, term, bits, *posting)?;
    }
    add_entry(entries, term, bits, postings.last())
}

// How many postings there are in all, as far as a number goes.
fn count_postings(kept: &Counts) -> usize {
    let mut room = 0usize;
    for postings in kept.values() {
        room = room.saturating_add(postings.len());
    }
    room
}

// The index of terms with their postings, among so many documents.
fn index_of(alloc: Global, kept: Counts, documents: u32) -> Result<Index, AllocError>
    requires few { length kept.entries < 2 ^ 32 }
    requires documents { documents ≤ MOST_DOCUMENTS }
    requires each { All (λ e. (1 ≤ length e.1) × (length e.1 ≤ documents)) kept.entries }
    ensures terms { IfOk result (λ index. index.terms ≡ map (λ e. e.0) (map shown kept.entries)) }
    ensures weights { IfOk result (λ index. index.weights
        ≡ table_entries documents 0 (map shown kept.entries)) }
{
    let mut entries = Vec::with_capacity(alloc, count_postings(&kept))?;
    let mut terms = Terms::new(alloc);
    for (term, postings) in kept {
        let bits = quarter_bits(documents, postings.len() as u32);
        add_entries(&mut entries, terms.len() as u32, bits, &postings)?;
        terms.push(Term::from_string(term))?;
    }
    Ok(Index {
        terms,
        weights: Entries::from_vec(entries),
    })
}

/// The index of a corpus, its vocabulary of at most so many terms.
pub fn build_index(alloc: Global, corpus: &Corpus, terms: u32) -> Result<Index, AllocError>
    ensures index { IfOk result (λ index. IsIndex terms corpus.now index) }
    ensures vocabulary { IfOk result (λ index. IsVocabulary terms corpus.now index.terms) }
    ensures text { IfOk result (λ index. All IsUtf8 index.terms) }
{
    let documents = corpus.as_slice();
    let counts = count_documents(alloc, documents)?;
    let kept = keep_terms(alloc, counts, terms)?;
    index_of(alloc, kept, documents.len() as u32)
}
