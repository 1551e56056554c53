//! The order of hits.
ghost use Rattle.std.specs.Prelude.{◌≡◌, ◌≤◌, ◌^◌, map, take, length, nat_lt, if◌then◌else◌, IfOk, OnOk};
ghost use Rattle.std.specs.BTreeSet.{insert_key};
ghost use Rattle.co_text.specs.Ranking.{ranking};
ghost use Rattle.co_text.specs.Keys.{key_cmp, shown};

use co_list::Listed;
use std::alloc::{AllocError, Global};
use std::cmp::Reverse;
use std::collections::BTreeSet;

/// A document and its score.
#[derive(Clone, Copy, Debug, PartialEq, Eq)]
pub struct Ranked {
    /// The document's number.
    pub document: u32,
    /// Its score, at least 1 where it is ranked.
    pub score: u32,
}

// The best documents so far: higher scores first, and of equal scores the lower number.
type Best = BTreeSet<(Reverse<u32>, u32)>;

// One document more, of which so many are kept.
fn keep_best(best: &mut Best, most: usize, document: u32, score: u32) -> Result<(), AllocError>
    requires { length best.old.keys ≤ most }
    ensures keys { OnOk result (best.new.keys ≡ take most (if nat_lt 0 score
        then insert_key key_cmp best.old.keys (record { 0 = score }, document)
        else best.old.keys)) }
    ensures few { OnOk result (length best.new.keys ≤ most) }
{
    if score == 0 {
        return Ok(());
    }
    best.insert((Reverse(score), document))?;
    if best.len() > most {
        best.pop_last();
    }
    Ok(())
}

// The documents with their scores, in the same order.
fn list_best(alloc: Global, best: &Best) -> Result<Listed<Ranked>, AllocError>
    ensures { IfOk result (λ hits. hits ≡ map shown best.now.keys) }
{
    let mut hits = Listed::with_capacity(alloc, best.len())?;
    for (score, document) in best.iter() {
        hits.push(Ranked {
            document: *document,
            score: score.0,
        })?;
    }
    Ok(hits)
}

/// The documents of score at least 1, by score downwards and then by number, the first so many. The
/// score of a document stands at its number.
pub fn ranking(alloc: Global, scores: &[u32], most: u32) -> Result<Listed<Ranked>, AllocError>
    requires { length scores.now ≤ 2 ^ 32 }
    ensures { IfOk result (λ hits. hits ≡ ranking most scores.now) }
{
    let mut best = BTreeSet::new(alloc);
    for (number, score) in scores.iter().enumerate() {
        keep_best(&mut best, most as usize, number as u32, *score)?;
    }
    list_best(alloc, &best)
}
