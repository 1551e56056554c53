//! The generator of `rehearse`: documents and queries that are made from a number.
ghost use Rattle.std.specs.Prelude.{◌≡◌, ◌<◌, ◌≤◌, IfOk, map, string_bytes};
ghost use Rattle.co_commands.specs.Generator.{draw, word_draw, words_draw, document_draw};
ghost use Rattle.co_commands.specs.Generator.{documents_draw, queries_draw, documents_of, queries_of};

use crate::words::join;
use co_corpus::{Corpus, Document, Documents};
use co_link::Bytes;
use co_text::Title;
use std::alloc::{AllocError, Global};

/// How many documents are made.
const DOCUMENTS: u32 = 600;

/// How many queries are made.
pub const QUERIES: u32 = 8;

// A number below a bound. The state moves first.
fn draw(bound: u64, state: &mut u64) -> u64
    requires { 0 < bound }
    ensures { (result, state.new) ≡ draw bound state.old }
{
    let next = state.wrapping_mul(6_364_136_223_846_793_005);
    *state = next.wrapping_add(1_442_695_040_888_963_407);
    (*state >> 33) % bound
}

// A word, by the lesser of two draws.
fn word(alloc: Global, state: &mut u64) -> Result<String, AllocError>
    ensures { IfOk result (λ word. (string_bytes word, state.new) ≡ word_draw state.old) }
{
    let one = draw(300, state);
    let other = draw(300, state);
    let number = one.min(other);
    format!(in alloc; "w{number}")
}

// So many words.
#[tactic(auto, unfolding(crate::specs::Generator::words_draw))]
fn words(alloc: Global, count: u64, state: &mut u64) -> Result<Vec<String>, AllocError>
    ensures { IfOk result (λ words.
        (map string_bytes words.items, state.new) ≡ words_draw count state.old) }
{
    let mut made = Vec::new(alloc);
    for _ in 0..count {
        made.push(word(alloc, state)?)?;
    }
    Ok(made)
}

// The document of a number.
#[tactic(auto, unfolding(crate::specs::Generator::document_draw))]
fn document(alloc: Global, number: u32, state: &mut u64) -> Result<Document, AllocError>
    requires { number < 600 }
    ensures { IfOk result (λ document. (document, state.new) ≡ document_draw number state.old) }
{
    let more = draw(41, state);
    let words = words(alloc, 20 + more, state)?;
    let text = join(alloc, &words)?;
    let Some(title) = Title::from_text(format!(in alloc; "Paper {number}")?) else {
        unreachable!()
    };
    Ok(Document {
        title,
        text: Bytes::from_vec(text.into_bytes()),
    })
}

// So many documents.
#[tactic(auto, unfolding(crate::specs::Generator::documents_draw))]
fn documents(alloc: Global, count: u32, state: &mut u64) -> Result<Documents, AllocError>
    requires { count ≤ 600 }
    ensures { IfOk result (λ documents.
        (documents, state.new) ≡ documents_draw count state.old) }
{
    let mut made = Documents::new(alloc);
    for number in 0..count {
        made.push(document(alloc, number, state)?)?;
    }
    Ok(made)
}

// So many queries, each by its words.
#[tactic(auto, unfolding(crate::specs::Generator::queries_draw))]
fn queries(alloc: Global, count: u32, state: &mut u64) -> Result<Vec<Vec<String>>, AllocError>
    ensures { IfOk result (λ queries.
        (map (λ words. map string_bytes words.items) queries.items, state.new)
        ≡ queries_draw count state.old) }
{
    let mut made = Vec::new(alloc);
    for number in 0..count {
        made.push(words(alloc, 2 + number as u64, state)?)?;
    }
    Ok(made)
}

/// What is made from a number.
#[derive(Drop)]
pub struct Made {
    /// The documents.
    pub corpus: Corpus,
    /// The queries, each by its words.
    pub queries: Vec<Vec<String>>,
}

/// The documents and queries of a number.
pub fn make(alloc: Global, number: u64) -> Result<Made, AllocError>
    ensures corpus { IfOk result (λ made. made.corpus ≡ documents_of number) }
    ensures queries { IfOk result (λ made.
        map (λ words. map string_bytes words.items) made.queries.items ≡ queries_of number) }
{
    let mut state = number;
    let documents = documents(alloc, DOCUMENTS, &mut state)?;
    let queries = queries(alloc, QUERIES, &mut state)?;
    Ok(Made {
        corpus: Corpus::new(documents),
        queries,
    })
}
