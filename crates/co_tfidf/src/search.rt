//! Plain search.
ghost use Rattle.std.specs.Prelude.{◌≡◌, ◌≤◌, ◌<◌, ◌+◌, ◌^◌, ◌==◌, ℕ, length, map, filter, Some, if◌then◌else◌, slice_index, All, IfOk};
ghost use Rattle.std.specs.List.Sorted.{IsStrictlySortedBy, IsNonDecreasingBy};
ghost use Rattle.std.specs.Ordering.{nat_cmp};
ghost use Rattle.std.specs.Cmp.Lexicographic.{slice_cmp};
ghost use Rattle.co_text.specs.Terms.{distinct};
ghost use Rattle.co_corpus.specs.declared.documents.Document.{Document};
ghost use Rattle.co_tfidf.specs.Entries.{entries};
ghost use Rattle.co_tfidf.specs.Scores.{score_of};
ghost use Rattle.co_tfidf.specs.Added.{document_weight, AllWithin};
ghost use Rattle.co_tfidf.specs.EntryScores.{term_score};
ghost use Rattle.co_tfidf.specs.Hits.{hit_of};
ghost use Rattle.co_tfidf.specs.Found.{IsIndex, picked, found};
ghost use Rattle.co_text.specs.declared.limits.TheConstants.{MOST_KEYWORDS};
ghost use Rattle.co_tfidf.specs.declared.postings.TheConstants.{MOST_WEIGHT};

use crate::Index;
use co_corpus::{Corpus, Document};
use co_link::Bytes;
use co_text::{
    Found, Hit, Hits, Ranked, Term, Terms, distinct_terms, number_of, ranking, unknown_terms,
};
use std::alloc::{AllocError, Global};

// The entries of a term among entries that ascend by terms.
fn entries_of(entries: &[(u32, u32, u16)], number: usize) -> &[(u32, u32, u16)]
    requires { IsNonDecreasingBy (λ e. e.0) entries.now }
    ensures { result.now ≡ filter (λ e. e.0 == number) entries.now }
{
    let start = entries.partition_point(|entry| (entry.0 as usize) < number);
    let rest = &entries[start..];
    let end = rest.partition_point(|entry| entry.0 as usize <= number);
    &rest[..end]
}

fn add_weight(scores: &mut [u32], document: u32, weight: u16)
    requires within { document < length scores.old }
    requires fits { slice_index scores.old document + weight < 2 ^ 32 }
    ensures { (d : ℕ) → slice_index scores.new d ≡ slice_index scores.old d
        + (if document == d then weight else 0) }
{
    scores[document as usize] += u32::from(weight);
}

// Adds the weights of entries to the scores of their documents.
fn add_weights(scores: &mut [u32], entries: &[(u32, u32, u16)])
    requires within { AllWithin (length scores.old) entries.now }
    requires fits { (d : ℕ) → slice_index scores.old d + document_weight d entries.now < 2 ^ 32 }
    ensures { (d : ℕ) → slice_index scores.new d ≡ slice_index scores.old d
        + document_weight d entries.now }
{
    for (_, document, weight) in entries {
        add_weight(scores, *document, *weight);
    }
}

// A ranked document with its title.
fn make_hit(documents: &[Document], ranked: Ranked) -> Result<Hit, AllocError>
    requires { ranked.document < length documents.now }
    ensures { IfOk result (λ hit. hit ≡ hit_of documents.now ranked) }
{
    Ok(Hit {
        document: ranked.document,
        score: ranked.score,
        title: documents[ranked.document as usize].title.copy()?,
    })
}

// Ranked documents with their titles.
fn make_hits(alloc: Global, documents: &[Document], order: &[Ranked]) -> Result<Hits, AllocError>
    requires { All (λ r. r.document < length documents.now) order.now }
    ensures { IfOk result (λ hits. hits ≡ map (hit_of documents.now) order.now) }
{
    let mut hits = Hits::with_capacity(alloc, order.len())?;
    for ranked in order {
        hits.push(make_hit(documents, *ranked)?)?;
    }
    Ok(hits)
}

// Adds what one term of a query adds.
fn score_term(scores: &mut [u32], documents: &[Document], index: &Index, term: &Term)
    requires sorted { IsStrictlySortedBy (slice_cmp nat_cmp) index.now.terms }
    requires index { index.now.weights ≡ entries documents.now 0 index.now.terms }
    requires within { length documents.now ≤ length scores.old }
    requires fits { (d : ℕ) → slice_index scores.old d + MOST_WEIGHT < 2 ^ 32 }
    ensures { (d : ℕ) → slice_index scores.new d ≡ slice_index scores.old d
        + term_score documents.now index.now.terms term.now d }
{
    if let Some(number) = number_of(&index.terms, term.as_str()) {
        add_weights(scores, entries_of(index.weights.as_slice(), number));
    }
}

// The scores of all documents.
fn scores_of(
    alloc: Global,
    documents: &[Document],
    index: &Index,
    query: &Terms,
) -> Result<Vec<u32>, AllocError>
    ghost most: { ℕ }
    requires index { IsIndex most documents.now index.now }
    requires few { length query.now ≤ MOST_KEYWORDS }
    ensures scores { IfOk result (λ v. v.items
        ≡ map (score_of most documents.now query.now) documents.now) }
    ensures count { IfOk result (λ v. length v.items ≡ length documents.now) }
{
    let mut scores = vec![in alloc; 0u32; documents.len()]?;
    for term in query.as_slice() {
        score_term(&mut scores, documents, index, term);
    }
    Ok(scores)
}

// The pick-th of the hits.
fn pick_document(
    alloc: Global,
    documents: &[Document],
    hits: &[Hit],
    pick: u32,
) -> Result<Option<(u32, Bytes)>, AllocError>
    requires { All (λ h. h.document < length documents.now) hits.now }
    ensures { IfOk result (λ document. document ≡ picked documents.now pick hits.now) }
{
    if pick == 0 {
        return Ok(None);
    }
    match hits.get(pick as usize - 1) {
        None => Ok(None),
        Some(hit) => Ok(Some((
            hit.document,
            Bytes::copy_of(alloc, documents[hit.document as usize].text.as_slice())?,
        ))),
    }
}

/// What plain search finds for a query's terms: at most so many hits, and the document of the
/// pick-th, counted from 1. The index is that of the corpus for a vocabulary of at most `most`
/// terms. The query may repeat terms.
pub fn plain_search(
    alloc: Global,
    corpus: &Corpus,
    index: &Index,
    query: &Terms,
    hits: u32,
    pick: u32,
) -> Result<Found, AllocError>
    ghost most: { ℕ }
    requires index { IsIndex most corpus.now index.now }
    requires few { length (distinct query.now) ≤ MOST_KEYWORDS }
    ensures { IfOk result (λ f. f ≡ found most corpus.now hits query.now pick) }
{
    let documents = corpus.as_slice();
    let keywords = distinct_terms(alloc, query)?;
    let scores = scores_of(alloc, documents, index, &keywords)?;
    let order = ranking(alloc, &scores, hits)?;
    let hits = make_hits(alloc, documents, order.as_slice())?;
    let document = pick_document(alloc, documents, hits.as_slice(), pick)?;
    Ok(Found {
        hits,
        unknown: unknown_terms(alloc, &index.terms, &keywords)?,
        document,
    })
}
