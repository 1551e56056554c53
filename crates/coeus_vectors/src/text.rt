//! The terms of a text, and of a query.

use crate::cases::{BadCase, Case};
use crate::lines::{put, put_text};
use co_text::{QueryFault, Terms, all_terms, distinct_terms, query_terms};
use std::alloc::AllocError;

/// The line of a case, behind the name of its call.
pub fn line(case: Case) -> Result<String, BadCase> {
    let mut line = String::new(case.alloc);
    match case.call() {
        "terms" => put_terms(&mut line, &all_terms(case.alloc, case.text("text"))?)?,
        "distinct" => put_distinct(&mut line, case)?,
        "query" => put_query(&mut line, case)?,
        _ => return Err(BadCase::Unfit),
    }
    Ok(line)
}

/// Terms, in order.
pub fn put_terms(line: &mut String, terms: &Terms) -> Result<(), AllocError> {
    for term in terms.as_slice() {
        put_text(line, term.as_str())?;
    }
    Ok(())
}

fn put_distinct(line: &mut String, case: Case) -> Result<(), AllocError> {
    let terms = all_terms(case.alloc, case.text("text"))?;
    put_terms(line, &distinct_terms(case.alloc, &terms)?)
}

/// The distinct terms, or how many they are, where they are too many.
fn put_query(line: &mut String, case: Case) -> Result<(), BadCase> {
    match query_terms(case.alloc, case.text("text")) {
        Ok(terms) => put_terms(line, &terms)?,
        Err(QueryFault::TooManyKeywords { found }) => {
            put_text(line, "too many:")?;
            put(line, found as u128)?;
        }
        Err(QueryFault::OutOfMemory) => return Err(BadCase::OutOfMemory),
    }
    Ok(())
}
