//! From the bytes of a file to its documents.
ghost use Rattle.std.specs.Prelude.{◌≡◌, ◌≤◌, length, codes, string_bytes, option_map, option_and_then, All, IfOk};
ghost use Rattle.co_corpus.specs.Documents.{IsDocument};
ghost use Rattle.co_text.specs.declared.limits.TheConstants.{MOST_DOCUMENTS};
ghost use Rattle.serde_json.specs.View.{view};
ghost use Rattle.serde_json.specs.Find.{get, as_str};
ghost use Rattle.co_corpus.specs.declared.reading.CorpusFault.TheVariants.{OutOfMemory};
ghost use Rattle.co_corpus.specs.Reading.{title_in, of_data, document_of, add_line, corpus_of, IsAnswer};

use crate::lines::{cut_line, is_blank, without_mark};
use crate::{Corpus, Document, Documents};
use co_link::Bytes;
use co_text::{LONGEST_TEXT, MOST_DOCUMENTS, Title};
use serde_json::Value;
use std::alloc::{AllocError, Global};
use thiserror::Error;

/// Why a file is no corpus. Lines count from 1. The first faulty line decides, and of its faults
/// the first in this order; `Empty` is left where no line has a fault.
#[derive(Clone, Copy, Debug, PartialEq, Eq, Error)]
pub enum CorpusFault {
    #[error("no document")]
    Empty,
    #[error("line {line}: not JSON")]
    BadJson { line: u64 },
    #[error("line {line}: not an object")]
    NotObject { line: u64 },
    #[error("line {line}: no text")]
    NoText { line: u64 },
    #[error("line {line}: title is not text")]
    TitleNotText { line: u64 },
    #[error("line {line}: text too long")]
    TextTooLong { line: u64 },
    #[error("line {line}: too many documents")]
    TooMany { line: u64 },
    #[error("out of memory")]
    OutOfMemory,
}

impl From<AllocError> for CorpusFault {
    ghost from_gives = { λ _ e. e ≡ OutOfMemory };

    fn from(_e: AllocError) -> CorpusFault {
        CorpusFault::OutOfMemory
    }
}

// The title of an object, if it has one that is text.
fn read_title(alloc: Global, value: &Value) -> Result<Option<Title>, AllocError>
    ensures { IfOk result (λ title. title ≡ title_in (get (codes "title") (view value.now))) }
{
    match value.get("title") {
        None => Ok(Some(Title::empty(alloc))),
        Some(Value::Null) => Ok(Some(Title::empty(alloc))),
        Some(Value::String(text)) => Ok(Some(Title::cut(alloc, text.as_str())?)),
        Some(_) => Ok(None),
    }
}

// The text of an object, if it has one, taken out of it with no copy.
fn take_text(value: &mut Value) -> Option<String>
    ensures { option_map string_bytes result ≡ option_and_then as_str
        (get (codes "text") (view value.old)) }
{
    match value.get_mut("text") {
        None => None,
        Some(text) => match text.take() {
            Value::String(text) => Some(text),
            _ => None,
        },
    }
}

// The document of a value.
fn read_value(alloc: Global, line: u64, mut value: Value) -> Result<Document, CorpusFault>
    ensures value { IsAnswer (λ d. d) (of_data line (view value)) result }
    ensures document { IfOk result (λ d. IsDocument d) }
{
    if !value.is_object() {
        return Err(CorpusFault::NotObject { line });
    }
    let title = read_title(alloc, &value)?;
    let Some(text) = take_text(&mut value) else {
        return Err(CorpusFault::NoText { line });
    };
    let Some(title) = title else {
        return Err(CorpusFault::TitleNotText { line });
    };
    if text.len() > LONGEST_TEXT {
        return Err(CorpusFault::TextTooLong { line });
    }
    Ok(Document {
        title,
        text: Bytes::from_vec(text.into_bytes()),
    })
}

// The document of a line.
fn read_line(alloc: Global, line: u64, bytes: &[u8]) -> Result<Document, CorpusFault>
    ensures value { IsAnswer (λ d. d) (document_of line bytes.now) result }
    ensures document { IfOk result (λ d. IsDocument d) }
{
    match Value::from_slice(alloc, bytes) {
        Ok(value) => read_value(alloc, line, value),
        Err(e) => {
            if e.is_memory() {
                Err(CorpusFault::OutOfMemory)
            } else {
                Err(CorpusFault::BadJson { line })
            }
        }
    }
}

// Adds the document of a line, if the line isn't blank.
fn add_line(
    alloc: Global,
    line: u64,
    bytes: &[u8],
    documents: &mut Documents,
) -> Result<(), CorpusFault>
    ensures value { IsAnswer (λ _. documents.new) (add_line line documents.old bytes.now) result }
    ensures many { length documents.old ≤ MOST_DOCUMENTS → length documents.new ≤ MOST_DOCUMENTS }
    ensures each { All IsDocument documents.old → All IsDocument documents.new }
{
    if is_blank(bytes) {
        return Ok(());
    }
    let document = read_line(alloc, line, bytes)?;
    if documents.len() >= MOST_DOCUMENTS {
        return Err(CorpusFault::TooMany { line });
    }
    documents.push(document)?;
    Ok(())
}

/// The documents of a corpus file, or its first fault. A byte order mark at the front is skipped,
/// and so are lines of spaces, tabs and carriage returns alone; a last line needs no line feed.
/// Members other than `text` and `title` are ignored. Each answer but want of memory is exactly
/// that of the definition.
pub fn read_corpus(alloc: Global, bytes: &[u8]) -> Result<Corpus, CorpusFault>
    ensures { IsAnswer (λ c. c) (corpus_of bytes.now) result }
{
    let mut documents = Documents::new(alloc);
    let mut rest = Some(without_mark(bytes));
    let mut line = 1u64;
    while let Some(left) = rest {
        let (first, after) = cut_line(left);
        add_line(alloc, line, first, &mut documents)?;
        line += 1;
        rest = after;
    }
    if documents.is_empty() {
        return Err(CorpusFault::Empty);
    }
    Ok(Corpus::new(documents))
}
