//! The vocabulary: the terms of the most documents.
ghost use Rattle.std.specs.Prelude.{◌≡◌, map, take, IfOk, OnOk, string_bytes, []};
ghost use Rattle.std.specs.BTreeMap.{insert_entry, IsOrdered};
ghost use Rattle.std.specs.Ordering.{nat_cmp};
ghost use Rattle.std.specs.String.{string_cmp};
ghost use Rattle.std.specs.Cmp.Lexicographic.{slice_cmp};
ghost use Rattle.co_tfidf.specs.Tables.{term_cmp, shown, shown_ranked, ranked_as, unranked, put_all};

use crate::counting::Counts;
use crate::postings::Postings;
use std::alloc::{AllocError, Global};
use std::cmp::Reverse;
use std::collections::BTreeMap;

/// Terms with their postings, those of more documents first, and of equally many the lower in
/// bytes.
type Ranked = BTreeMap<(Reverse<usize>, String), Postings>;

// Puts a term at its rank.
fn rank_term(ranked: &mut Ranked, term: String, postings: Postings) -> Result<(), AllocError>
    ensures { OnOk result (map shown_ranked ranked.new.entries
        ≡ insert_entry term_cmp (map shown_ranked ranked.old.entries)
        (ranked_as (term, postings)).0 postings) }
{
    ranked.insert((Reverse(postings.len()), term), postings)?;
    Ok(())
}

// All terms by rank.
fn rank_terms(alloc: Global, counts: Counts) -> Result<Ranked, AllocError>
    ensures ranked { IfOk result (λ ranked. map shown_ranked ranked.entries
        ≡ put_all term_cmp [] (map ranked_as counts.entries)) }
    ensures ordered { IsOrdered string_cmp counts }
{
    let mut ranked = BTreeMap::new(alloc);
    for (term, postings) in counts {
        rank_term(&mut ranked, term, postings)?;
    }
    Ok(ranked)
}

// Puts a term at its place in the order of bytes.
fn keep_term(kept: &mut Counts, term: String, postings: Postings) -> Result<(), AllocError>
    ensures { OnOk result (map shown kept.new.entries
        ≡ insert_entry (slice_cmp nat_cmp) (map shown kept.old.entries)
        (string_bytes term) postings) }
{
    kept.insert(term, postings)?;
    Ok(())
}

/// The terms of the most documents, at most so many, in the order of their bytes.
pub fn keep_terms(alloc: Global, counts: Counts, most: u32) -> Result<Counts, AllocError>
    ensures kept { IfOk result (λ kept. map shown kept.entries
        ≡ put_all (slice_cmp nat_cmp) []
        (map unranked (take most (put_all term_cmp [] (map ranked_as counts.entries))))) }
    ensures ordered { IsOrdered string_cmp counts }
{
    let ranked = rank_terms(alloc, counts)?;
    let mut kept = BTreeMap::new(alloc);
    let mut room = most;
    for ((_, term), postings) in ranked {
        if room == 0 {
            return Ok(kept);
        }
        keep_term(&mut kept, term, postings)?;
        room -= 1;
    }
    Ok(kept)
}
