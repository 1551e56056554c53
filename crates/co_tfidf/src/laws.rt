//! Facts on vocabularies, entries, scores and hits. Each function returns nothing: its contract is
//! the fact.
ghost use Rattle.std.specs.Prelude.{◌≡◌, ◌≤◌, ◌*◌, ℕ, List, length, All, sum_by, slice_get, Some, None};
ghost use Rattle.co_text.specs.Terms.{HasSize};
ghost use Rattle.co_text.specs.Numbers.{numbers_of};
ghost use Rattle.co_text.specs.declared.found.Hit.{Hit};
ghost use Rattle.co_corpus.specs.declared.documents.Document.{Document};
ghost use Rattle.co_tfidf.specs.Vocabulary.{vocabulary, IsVocabulary};
ghost use Rattle.co_tfidf.specs.Entries.{entries, AreEntries};
ghost use Rattle.co_tfidf.specs.EntryScores.{weight_at, weight_in, query_score};
ghost use Rattle.co_tfidf.specs.Scores.{score_of};
ghost use Rattle.co_tfidf.specs.Hits.{hits_of, AreHits};
ghost use Rattle.co_tfidf.specs.declared.postings.TheConstants.{MOST_WEIGHT};

/// The vocabulary has its properties, and no other list has them.
pub fn one_vocabulary()
    ensures is { (most : ℕ) (documents : List Document)
        → IsVocabulary most documents (vocabulary most documents) }
    ensures only { (most : ℕ) (documents : List Document) (ws : List (List ℕ))
        → IsVocabulary most documents ws → ws ≡ vocabulary most documents }
{}

/// A vocabulary has at most as many terms as asked for, each of 1 to 64 bytes.
pub fn vocabulary_sizes()
    ensures few { (most : ℕ) (documents : List Document)
        → length (vocabulary most documents) ≤ most }
    ensures sized { (most : ℕ) (documents : List Document)
        → All HasSize (vocabulary most documents) }
{}

/// The entries of an index ascend by term and document, with weights from 1 to `MOST_WEIGHT`.
pub fn entries_are_in_order()
    ensures { (documents : List Document) (ws : List (List ℕ))
        → AreEntries (length ws) (length documents) None (entries documents 0 ws) }
{}

/// The weight that stands at a term's number and a document's is the term's in the document.
pub fn entries_show_weights()
    ensures { (documents : List Document) (ws : List (List ℕ)) (w : List ℕ) (i d : ℕ)
        → slice_get ws i ≡ Some w
        → weight_at i d (entries documents 0 ws) ≡ weight_in documents w (slice_get documents d) }
{}

/// A document's score is what the query's terms add, and what stands at their numbers.
pub fn scores_add_up()
    ensures terms { (most : ℕ) (documents : List Document) (query : List (List ℕ)) (d : ℕ)
        (e : Document) → slice_get documents d ≡ Some e
        → query_score documents (vocabulary most documents) query d
        ≡ score_of most documents query e }
    ensures numbers { (documents : List Document) (ws query : List (List ℕ)) (f : ℕ → ℕ) (d : ℕ)
        → ((i : ℕ) (w : List ℕ) → slice_get ws i ≡ Some w
        → f i ≡ weight_in documents w (slice_get documents d))
        → sum_by f (numbers_of ws query) ≡ query_score documents ws query d }
    ensures few { (documents : List Document) (ws query : List (List ℕ)) (d : ℕ)
        → query_score documents ws query d ≤ MOST_WEIGHT * length query }
{}

/// The hits are the documents of score at least 1 with their titles, by score downwards and then by
/// number, the first so many; and no other list is.
pub fn one_list_of_hits()
    ensures is { (most : ℕ) (documents : List Document) (hits : ℕ) (query : List (List ℕ))
        → AreHits most documents hits query (hits_of most documents hits query) }
    ensures only { (most : ℕ) (documents : List Document) (hits : ℕ) (query : List (List ℕ))
        (found : List Hit) → AreHits most documents hits query found
        → found ≡ hits_of most documents hits query }
{}
