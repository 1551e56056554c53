//! The hits of a query, and where they are placed.

ghost use Rattle.std.specs.Prelude.{◌≡◌, ◌^◌, ◌≤◌, true, ℕ, List, length, IfOk, IfErr, OnOk};
ghost use Rattle.std.specs.List.Sorted.{IsStrictlySortedBy};
ghost use Rattle.std.specs.Ordering.{nat_cmp};
ghost use Rattle.std.specs.Cmp.Lexicographic.{slice_cmp};
ghost use Rattle.co_link.specs.declared.messages.Target.TheVariants as targets;
ghost use Rattle.co_text.specs.Numbers.{numbers_of, unknown_in};
ghost use Rattle.co_wire.specs.Lengths.{reply_size};
ghost use Rattle.co_rounds.specs.Asked.{AreKeywordMessages};
ghost use Rattle.co_client.specs.Rounds.{round_call, RoundFails, LinkFails, Ranks, queries_request, queries_rest};
ghost use Rattle.co_client.specs.Placings.{ArePlaced, shown_of};

use crate::fault::SearchFault;
use crate::placing::{Witness, place_hits};
use crate::scoring::score_hits;
use crate::starting::Reader;
use co_bucket::Placement;
use co_link::Link;
use co_list::Listed;
use co_text::{Ranked as RankedDocument, Terms, numbers_of, unknown_terms};
use rand_core::Rng;
use std::alloc::Global;

/// The hits of a query, and the bucket in which each is placed.
#[derive(Drop)]
pub struct Ranked {
    /// By rank: documents and their scores.
    pub hits: Listed<RankedDocument>,
    /// The query's terms that the library doesn't have.
    pub unknown: Terms,
    /// Bucket by bucket the rank of the hit that is placed there, from 0.
    pub buckets: Placement,
    /// Where the hits can't be placed, why: documents and buckets, ascending, one bucket fewer than
    /// documents. Then no bucket has a hit.
    pub refused: Option<Witness>,
}

impl Ranked {
    /// The hits whose records are read: all where they are placed, else none.
    pub fn shown(&self) -> &[RankedDocument]
        ensures { result.now ≡ shown_of self.now.refused self.now.hits }
    {
        match &self.refused {
            None => self.hits.as_slice(),
            Some(_) => &[],
        }
    }
}

/// Asks for the scores of a query by a library's terms, which ascend, ranks the documents by them,
/// and places the hits. After an error the rest of the stream is not stated.
pub fn rank<K: Link, R: Rng>(
    alloc: Global,
    reader: &Reader,
    link: &mut K,
    rng: &mut R,
    terms: &Terms,
    query: &Terms,
) -> Result<Ranked, SearchFault>
    requires ready { K.is_ready link.old ≡ true }
    requires sorted { IsStrictlySortedBy (slice_cmp nat_cmp) terms.now }
    requires few { length terms.now ≤ 2 ^ 32 }
    ensures ranked { IfOk result (λ ranked. (messages : List (List ℕ))
        → AreKeywordMessages reader.now.shape
        (numbers_of terms.now query.now) messages
        → Ranks reader.now.shape reader.now.secret (K.exchanges link.old) (K.exchanges link.new)
        (queries_request targets.Score reader.now.secret messages (R.stream rng.old))
        ranked.hits) }
    ensures few { IfOk result (λ ranked. length ranked.hits ≤ reader.now.shape.hits) }
    ensures unknown { IfOk result (λ ranked. ranked.unknown ≡ unknown_in terms.now query.now) }
    ensures placed { IfOk result (λ ranked. ArePlaced reader.now.shape ranked.hits ranked.buckets
        ranked.refused) }
    ensures rest { OnOk result ((messages : List (List ℕ)) → AreKeywordMessages reader.now.shape
        (numbers_of terms.now query.now) messages
        → R.stream rng.new ≡ queries_rest reader.now.secret messages (R.stream rng.old)) }
    ensures refused { IfErr result (λ fault. (messages : List (List ℕ))
        → AreKeywordMessages reader.now.shape
        (numbers_of terms.now query.now) messages
        → RoundFails (reply_size reader.now.shape targets.Score) (K.exchanges link.old)
        (K.exchanges link.new)
        (queries_request targets.Score reader.now.secret messages (R.stream rng.old)) fault) }
    ensures cause { LinkFails (K.faults link.old) (K.faults link.new) (K.last_failed link.new)
        (round_call reader.now.shape targets.Score) result }
    ensures ready { K.is_ready link.new ≡ true }
    ensures beside { K.beside link.new ≡ K.beside link.old }
{
    let Ok(keywords) = numbers_of(alloc, terms, query) else {
        return Err(SearchFault::OutOfMemory);
    };
    let Ok(unknown) = unknown_terms(alloc, terms, query) else {
        return Err(SearchFault::OutOfMemory);
    };
    let hits = score_hits(alloc, link, rng, reader, keywords.as_slice())?;
    let shape = reader.tested().shape();
    let _ = shape.degree();
    let Ok(placing) = place_hits(alloc, shape, hits.as_slice()) else {
        return Err(SearchFault::OutOfMemory);
    };
    Ok(Ranked {
        hits,
        unknown,
        buckets: placing.buckets,
        refused: placing.refused,
    })
}
