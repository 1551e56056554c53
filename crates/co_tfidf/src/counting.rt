//! Counting the terms of a corpus, in an ordered map.
ghost use Rattle.std.specs.Prelude.{◌≡◌, ◌≤◌, ◌<◌, ◌++◌, ◌&&◌, ℕ, List, All, length, IfOk, OnOk, Some, if◌then◌else◌};
ghost use Rattle.std.specs.Str.{bytes_eq};
ghost use Rattle.std.specs.BTreeMap.{get_by_text};
ghost use Rattle.co_text.specs.Terms.{terms, folded, is_short};
ghost use Rattle.co_text.specs.declared.limits.TheConstants.{MOST_DOCUMENTS};
ghost use Rattle.co_corpus.specs.Documents.{IsDocument};
ghost use Rattle.co_tfidf.specs.Counts.{term_frequency};
ghost use Rattle.co_tfidf.specs.Postings.{counted, posting, postings, postings_of, listed};

use crate::postings::Postings;
use co_corpus::Document;
use co_text::{LONGEST_TERM, fold, is_folded};
use std::alloc::{AllocError, Global};
use std::collections::BTreeMap;
use unicode_segmentation::UnicodeSegmentation;

/// The postings of each term.
pub type Counts = BTreeMap<String, Postings>;

// Whether there was memory to count.
type Counted = Result<(), AllocError>;

// One occurrence more of a term.
fn count_term(alloc: Global, counts: &mut Counts, term: &str, document: u32) -> Counted
    ensures { OnOk result ((w : List ℕ) → get_by_text counts.new w
        ≡ (if bytes_eq w term.now then Some (counted (postings_of counts.old w) document)
        else get_by_text counts.old w)) }
{
    match counts.get_mut(term) {
        Some(postings) => {
            postings.count(document)?;
            Ok(())
        }
        None => {
            let key = String::from_str(alloc, term)?;
            counts.insert(key, Postings::once(alloc, document))?;
            Ok(())
        }
    }
}

// One occurrence more of a folded word, if it isn't too long for a term.
fn count_folded(alloc: Global, counts: &mut Counts, term: &str, document: u32) -> Counted
    ensures { OnOk result ((w : List ℕ) → get_by_text counts.new w
        ≡ (if is_short term.now && bytes_eq w term.now
        then Some (counted (postings_of counts.old w) document) else get_by_text counts.old w)) }
{
    if term.len() > LONGEST_TERM {
        return Ok(());
    }
    count_term(alloc, counts, term, document)
}

// One occurrence more of a word. One that is its own folding is looked up as it stands.
fn count_word(alloc: Global, counts: &mut Counts, word: &str, document: u32) -> Counted
    ensures { OnOk result ((w : List ℕ) → get_by_text counts.new w
        ≡ (if is_short (folded word.now) && bytes_eq w (folded word.now)
        then Some (counted (postings_of counts.old w) document) else get_by_text counts.old w)) }
{
    if is_folded(word) {
        return count_folded(alloc, counts, word, document);
    }
    let term = fold(alloc, word)?;
    count_folded(alloc, counts, term.as_str(), document)
}

// A document's text as text.
fn text_of(document: &Document) -> &str
    requires { IsDocument document.now }
    ensures { result.now ≡ document.now.text }
{
    match str::from_utf8(document.text.as_slice()) {
        Ok(text) => text,
        Err(_) => unreachable!(),
    }
}

// The terms of one document more.
fn count_document(alloc: Global, counts: &mut Counts, document: &Document, number: u32) -> Counted
    requires document { IsDocument document.now }
    requires listed { (w : List ℕ) → get_by_text counts.old w ≡ listed (postings_of counts.old w) }
    requires before { (w : List ℕ) → All (λ p. p.document < number) (postings_of counts.old w) }
    ensures { OnOk result ((w : List ℕ) → get_by_text counts.new w
        ≡ listed (postings_of counts.old w ++ posting number
        (term_frequency w (terms document.now.text)))) }
{
    let text = text_of(document);
    for word in text.unicode_words() {
        count_word(alloc, counts, word, number)?;
    }
    Ok(())
}

/// The postings of each term of these documents.
pub fn count_documents(alloc: Global, documents: &[Document]) -> Result<Counts, AllocError>
    requires each { All IsDocument documents.now }
    requires few { length documents.now ≤ MOST_DOCUMENTS }
    ensures { IfOk result (λ counts. (w : List ℕ) → get_by_text counts w
        ≡ listed (postings w 0 documents.now)) }
{
    let mut counts = BTreeMap::new(alloc);
    for (number, document) in documents.iter().enumerate() {
        count_document(alloc, &mut counts, document, number as u32)?;
    }
    Ok(counts)
}
