//! Numbers of terms in a vocabulary.
ghost use Rattle.std.specs.Prelude.{◌≡◌, ◌≤◌, ◌^◌, length, is_some, IfOk};
ghost use Rattle.std.specs.List.{list_any};
ghost use Rattle.std.specs.List.Sorted.{IsStrictlySortedBy};
ghost use Rattle.std.specs.Str.{bytes_eq};
ghost use Rattle.std.specs.Ordering.{nat_cmp};
ghost use Rattle.std.specs.Cmp.Lexicographic.{slice_cmp};
ghost use Rattle.co_text.specs.Numbers.{number_of, numbers_of, unknown_in};

use crate::Terms;
use co_list::Listed;
use std::alloc::{AllocError, Global};

/// The number of a term in a vocabulary, which ascends in bytes: its place, from 0. It is found by
/// halving.
pub fn number_of(vocabulary: &Terms, term: &str) -> Option<usize>
    requires { IsStrictlySortedBy (slice_cmp nat_cmp) vocabulary.now }
    ensures number { result ≡ number_of vocabulary.now term.now }
    ensures known { is_some result ≡ list_any (bytes_eq term.now) vocabulary.now }
{
    vocabulary
        .as_slice()
        .binary_search_by(|known| known.as_str().cmp(term))
        .ok()
}

/// The numbers of those terms that are in the vocabulary, in the order of the terms.
pub fn numbers_of(
    alloc: Global,
    vocabulary: &Terms,
    terms: &Terms,
) -> Result<Listed<u32>, AllocError>
    requires sorted { IsStrictlySortedBy (slice_cmp nat_cmp) vocabulary.now }
    requires few { length vocabulary.now ≤ 2 ^ 32 }
    ensures { IfOk result (λ numbers. numbers ≡ numbers_of vocabulary.now terms.now) }
{
    let mut numbers = Listed::new(alloc);
    for term in terms.as_slice() {
        if let Some(number) = number_of(vocabulary, term.as_str()) {
            numbers.push(number as u32)?;
        }
    }
    Ok(numbers)
}

/// The terms that are not in the vocabulary, in order.
pub fn unknown_terms(alloc: Global, vocabulary: &Terms, terms: &Terms) -> Result<Terms, AllocError>
    requires { IsStrictlySortedBy (slice_cmp nat_cmp) vocabulary.now }
    ensures { IfOk result (λ unknown. unknown ≡ unknown_in vocabulary.now terms.now) }
{
    let mut unknown = Terms::new(alloc);
    for term in terms.as_slice() {
        if number_of(vocabulary, term.as_str()).is_none() {
            unknown.push(term.copy()?)?;
        }
    }
    Ok(unknown)
}
