//! Weights and the index.

use crate::cases::{BadCase, Case};
use crate::lines::{put, put_text};
use crate::text::put_terms;
use co_corpus::{Corpus, read_corpus};
use co_tfidf::{build_index, quarter_bits};
use std::alloc::AllocError;

/// The line of a case, behind the name of its call.
pub fn line(case: Case) -> Result<String, BadCase> {
    let mut line = String::new(case.alloc);
    match case.call() {
        "quarter_bits" => put_quarter_bits(&mut line, case)?,
        "index" => put_index(&mut line, case)?,
        _ => return Err(BadCase::Unfit),
    }
    Ok(line)
}

fn put_quarter_bits(line: &mut String, case: Case) -> Result<(), BadCase> {
    let documents = case.number("documents");
    let frequency = case.number("frequency");
    if frequency == 0 || frequency > documents || documents > 65_536 {
        return Err(BadCase::Unfit);
    }
    put(line, quarter_bits(documents, frequency) as u128)?;
    Ok(())
}

/// The corpus whose lines a field holds.
pub fn corpus(case: Case) -> Result<Corpus, BadCase> {
    match read_corpus(case.alloc, case.text("corpus").as_bytes()) {
        Ok(corpus) => Ok(corpus),
        Err(_) => return Err(BadCase::Unfit),
    }
}

/// The vocabulary, and then its weights.
fn put_index(line: &mut String, case: Case) -> Result<(), BadCase> {
    let index = build_index(case.alloc, &corpus(case)?, case.number("terms"))?;
    put_terms(line, &index.terms)?;
    put_text(line, "weights")?;
    put_weights(line, index.weights.as_slice())?;
    Ok(())
}

/// Term, document and weight of each entry.
pub fn put_weights(line: &mut String, weights: &[(u32, u32, u16)]) -> Result<(), AllocError> {
    for (term, document, weight) in weights {
        write!(line, " {term} {document} {weight}")?;
    }
    Ok(())
}
