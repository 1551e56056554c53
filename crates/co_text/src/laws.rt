//! Facts on terms and rankings. Each function returns nothing: its contract is the fact.
ghost use Rattle.std.specs.Prelude.{◌≡◌, ◌<◌, ◌≤◌, ◌==◌, ℕ, false, List, length, All, slice_get, Some, None};
ghost use Rattle.std.specs.List.{list_any, IsDistinct};
ghost use Rattle.std.specs.List.Sorted.{IsStrictlySortedBy};
ghost use Rattle.std.specs.Str.{bytes_eq};
ghost use Rattle.std.specs.Ordering.{nat_cmp};
ghost use Rattle.std.specs.Cmp.Lexicographic.{slice_cmp};
ghost use Rattle.co_text.specs.Terms.{distinct};
ghost use Rattle.co_text.specs.Numbers.{number_of, numbers_of};
ghost use Rattle.co_text.specs.Ranking.{ranking, IsRanking};
ghost use Rattle.co_text.specs.declared.ranks.Ranked.{Ranked};

/// The distinct terms of a list are its terms, each once; so of distinct terms they are all.
#[tactic(auto, using(crate::proofs::Numbered::distinct_once, crate::proofs::Numbered::distinct_members, crate::proofs::Numbered::distinct_few, crate::proofs::Numbered::distinct_again))]
pub fn distinct_terms_stand_once()
    ensures once { (ts : List (List ℕ)) → IsDistinct bytes_eq (distinct ts) }
    ensures same { (ts : List (List ℕ)) (t : List ℕ) → list_any (bytes_eq t) (distinct ts)
        ≡ list_any (bytes_eq t) ts }
    ensures few { (ts : List (List ℕ)) → length (distinct ts) ≤ length ts }
    ensures again { (ts : List (List ℕ)) → distinct (distinct ts) ≡ distinct ts }
{}

/// The number of a term in a vocabulary is its only place, and a term without a number isn't there.
pub fn a_number_is_a_place()
    ensures known { (v : List (List ℕ)) (t : List ℕ) (i : ℕ) → number_of v t ≡ Some i
        → slice_get v i ≡ Some t }
    ensures unknown { (v : List (List ℕ)) (t : List ℕ) → number_of v t ≡ None
        → list_any (bytes_eq t) v ≡ false }
    ensures placed { (v : List (List ℕ)) (t : List ℕ) (i : ℕ)
        → IsStrictlySortedBy (slice_cmp nat_cmp) v → slice_get v i ≡ Some t
        → number_of v t ≡ Some i }
{}

/// The numbers of distinct terms are distinct places of the vocabulary, no more than there are
/// terms.
pub fn numbers_are_distinct()
    ensures once { (v ts : List (List ℕ)) → IsDistinct bytes_eq ts
        → IsDistinct ◌==◌ (numbers_of v ts) }
    ensures within { (v ts : List (List ℕ)) → All (λ n. n < length v) (numbers_of v ts) }
    ensures few { (v ts : List (List ℕ)) → length (numbers_of v ts) ≤ length ts }
{}

/// The ranking has the documents of score at least 1, by score downwards and then by number, the
/// first so many; and no other list has.
pub fn one_ranking()
    ensures is { (most : ℕ) (scores : List ℕ) → IsRanking most scores (ranking most scores) }
    ensures only { (most : ℕ) (scores : List ℕ) (hits : List Ranked) → IsRanking most scores hits
        → hits ≡ ranking most scores }
{}
