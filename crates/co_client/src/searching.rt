//! The search.

ghost use Rattle.std.specs.Prelude.{◌≡◌, ◌≤◌, ℕ, List, All, Option, Some, true, length, Ok, IfOk, IfErr};
ghost use Rattle.co_text.specs.Terms.{terms, distinct};
ghost use Rattle.co_text.specs.declared.limits.TheConstants.{MOST_KEYWORDS};
ghost use Rattle.co_link.specs.declared.messages.Exchange.{Exchange};
ghost use Rattle.co_link.specs.declared.messages.Target.TheVariants as targets;
ghost use Rattle.co_bfv.specs.Ciphertexts.{Ciphertext};
ghost use Rattle.co_noise.specs.Limits.{most_hits};
ghost use Rattle.co_noise.specs.Shapes.{Numbers};
ghost use Rattle.co_noise.specs.Bounds.{test_of};
ghost use Rattle.co_corpus.specs.declared.documents.Document.{Document};
ghost use Rattle.co_library.specs.declared.settings.Settings.{Settings};
ghost use Rattle.co_library.specs.Libraries.{Parts};
ghost use Rattle.co_wire.specs.Bodies.{SpellsCiphers};
ghost use Rattle.co_wire.specs.Lengths.{reply_size};
ghost use Rattle.co_rounds.specs.Honest.{AreHonest};
ghost use Rattle.co_rounds.specs.Plans.{made, Extends, FollowsPlan, IsWholePlan};
ghost use Rattle.co_rounds.specs.Recording.{IsLibraryFor, is_within_bins};
ghost use Rattle.co_client.specs.Causes.{search_by, Publishes, IsRead, IsCause, IsAnswered, Asks};
ghost use Rattle.co_client.specs.Going.{GoesOn};
ghost use Rattle.co_client.specs.Earlier.{EndsFirst};
ghost use Rattle.co_client.specs.Plain.{AnswersPlainly};
ghost use Rattle.co_client.specs.Sure.{AreSure};
ghost use Rattle.co_client.specs.Telling.{Told};
ghost use Rattle.co_client.specs.Faults.{IsReadAs, IsManyTerms, IsForFew};
ghost use Rattle.co_client.specs.Placings.{shown_of};
ghost use Rattle.co_client.specs.Records.{hit_shown, hits_shown};
ghost use Rattle.co_client.specs.Shown.{concluded, answer_read};

use crate::fault::SearchFault;
use crate::fetching::{bin_of, fetch, read_document};
use crate::placing::Witness;
use crate::publishing::consult;
use crate::ranking::{Ranked, rank};
use crate::recording::records;
use crate::starting::{Reader, start};
use co_link::Link;
use co_pack::Record;
use co_text::{Found, Hit, Hits, QueryFault, Ranked as RankedDocument, Terms, query_terms};
use rand_core::Rng;
use std::alloc::{AllocError, Global};

/// The distinct terms of a query.
fn keywords_of(alloc: Global, query: &str) -> Result<Terms, SearchFault>
    ensures found { IfOk result (λ found. found ≡ distinct (terms query.now)) }
    ensures few { IfOk result (λ found. length found ≤ MOST_KEYWORDS) }
    ensures refused { IfErr result (IsManyTerms (length (distinct (terms query.now)))) }
{
    match query_terms(alloc, query) {
        Ok(keywords) => Ok(keywords),
        Err(QueryFault::TooManyKeywords { found }) => Err(SearchFault::TooManyKeywords { found }),
        Err(QueryFault::OutOfMemory) => Err(SearchFault::OutOfMemory),
    }
}

/// A hit with the title of its record.
fn with_title(ranked: &RankedDocument, read: &Record) -> Result<Hit, AllocError>
    ensures { IfOk result (λ hit. hit ≡ hit_shown ranked.now read.now) }
{
    Ok(Hit {
        document: ranked.document,
        score: ranked.score,
        title: read.title.copy()?,
    })
}

/// Hits with the titles of their records.
fn with_titles(
    alloc: Global,
    ranked: &[RankedDocument],
    records: &[Record],
) -> Result<Hits, AllocError>
    requires { length records.now ≡ length ranked.now }
    ensures { IfOk result (λ hits. hits ≡ hits_shown ranked.now records.now) }
{
    let mut hits = Hits::with_capacity(alloc, ranked.len())?;
    for at in 0..ranked.len() {
        hits.push(with_title(&ranked[at], &records[at])?)?;
    }
    Ok(hits)
}

/// The answer where the hits are placed, else that they can't be.
fn conclude(refused: Option<Witness>, found: Found) -> Result<Found, SearchFault>
    ensures { result ≡ concluded refused found }
{
    match refused {
        None => Ok(found),
        Some((documents, buckets)) => Err(SearchFault::NoPlacement { documents, buckets }),
    }
}

/// The answer by the ranked hits, their records, and the reply that spells the picked document's
/// bin.
fn show(
    alloc: Global,
    reader: &Reader,
    ranked: Ranked,
    records: &[Record],
    body: &[u8],
    pick: u32,
) -> Result<Found, SearchFault>
    requires pick { 1 ≤ pick }
    requires long { length records.now ≡ length (shown_of ranked.refused ranked.hits) }
    requires within { All (λ r. is_within_bins reader.now.shape r.place ≡ true) records.now }
    requires whole { length body.now ≡ reply_size reader.now.shape targets.Document }
    ensures { (cs : List Ciphertext) → SpellsCiphers reader.now.shape.degree
        reader.now.shape.chunks cs body.now
        → IsReadAs result (answer_read reader.now.secret cs ranked records.now pick) }
{
    let document = read_document(alloc, reader, body, records, pick)?;
    let Ok(hits) = with_titles(alloc, ranked.shown(), records) else {
        return Err(SearchFault::OutOfMemory);
    };
    conclude(
        ranked.refused,
        Found {
            hits,
            unknown: ranked.unknown,
            document,
        },
    )
}

/// The search, with all that it tells in one clause.
fn conduct<K: Link, R: Rng>(
    alloc: Global,
    link: &mut K,
    rng: &mut R,
    query: &str,
    pick: u32,
) -> Result<Found, SearchFault>
    requires pick { 1 ≤ pick }
    requires ready { K.is_ready link.old ≡ true }
    ensures told { Told (search_by (terms query.now) pick (R.stream rng.old) (K.faults link.old)
        (K.faults link.new) (K.last_failed link.new)) (K.exchanges link.old) (K.exchanges link.new)
        result (R.stream rng.new) }
    ensures faults { K.faults link.old ≤ K.faults link.new }
    ensures ready { K.is_ready link.new ≡ true }
    ensures beside { K.beside link.new ≡ K.beside link.old }
{
    let keywords = keywords_of(alloc, query)?;
    let published = consult(alloc, link)?;
    let reader = start(alloc, link, rng, &published.tested)?;
    let ranked = rank(alloc, &reader, link, rng, &published.terms, &keywords)?;
    let bins = reader.tested().shape().bins();
    let listed = records(alloc, &reader, link, rng, &ranked, bins)?;
    let read = listed.as_slice();
    let bin = bin_of(read, pick);
    let chunks = fetch(alloc, link, rng, &reader, bin)?;
    show(alloc, &reader, ranked, read, chunks.as_slice(), pick)
}

/// Searches a library over a link: the hits by score with their titles, the query's unknown terms,
/// and the document of the pick-th hit.
///
/// The order of work: the keywords; the published parameters and their test; secret and keys are
/// drawn; the exchanges for keys, scores, records and the document. Where the hits can't be placed,
/// the last two rounds are made with rows and a bin that nobody needs, and then that is answered;
/// so is the document's round where the pick is past the hits.
pub fn search<K: Link, R: Rng>(
    alloc: Global,
    link: &mut K,
    rng: &mut R,
    query: &str,
    pick: u32,
) -> Result<Found, SearchFault>
    requires pick { (1 ≤ pick) × (pick ≤ most_hits) }
    requires ready { K.is_ready link.old ≡ true }
    // Over any link, one that doesn't tell its exchanges too: all that the search tells of those
    // that it made.
    ensures told { Told (search_by (terms query.now) pick (R.stream rng.old) (K.faults link.old)
        (K.faults link.new) (K.last_failed link.new)) (K.exchanges link.old) (K.exchanges link.new)
        result (R.stream rng.new) }
    // Over exchanges that are honest to the library of a corpus: the plain answer exactly where its
    // hits can be placed.
    ensures plain { (es : List Exchange) → made (K.exchanges link.old)
        (K.exchanges link.new) ≡ Some es
        → (documents : List Document) (settings : Settings) (l : Parts) (held : Option (List ℕ))
        → IsLibraryFor documents settings l → AreHonest l held es
        → AnswersPlainly documents settings l (terms query.now) pick result }
    // And each ciphertext that it decrypts means its message, with twice its noise below q.
    ensures sure { (es : List Exchange) → made (K.exchanges link.old)
        (K.exchanges link.new) ≡ Some es
        → (documents : List Document) (settings : Settings) (l : Parts) (held : Option (List ℕ))
        → IsLibraryFor documents settings l → AreHonest l held es
        → (s : Numbers) (ts : List (List ℕ)) → Publishes es s ts → test_of s ≡ Ok s
        → AreSure (search_by (terms query.now) pick (R.stream rng.old) (K.faults link.old)
        (K.faults link.new) (K.last_failed link.new)) es s ts }
    // Over any exchanges: number, order and lengths of the requests follow the published
    // parameters.
    ensures planned { (es : List Exchange) → made (K.exchanges link.old) (K.exchanges link.new)
        ≡ Some es → FollowsPlan es }
    ensures whole { (es : List Exchange) → made (K.exchanges link.old) (K.exchanges link.new)
        ≡ Some es → IsAnswered result → IsWholePlan es }
    // What is answered is read from the exchanges, and each refusal has its cause there.
    ensures read { (es : List Exchange) → made (K.exchanges link.old)
        (K.exchanges link.new) ≡ Some es
        → IfOk result
        (IsRead (search_by (terms query.now) pick (R.stream rng.old) (K.faults link.old)
        (K.faults link.new) (K.last_failed link.new)) es) }
    ensures refused { (es : List Exchange) → made (K.exchanges link.old)
        (K.exchanges link.new) ≡ Some es
        → IfErr result
        (IsCause (search_by (terms query.now) pick (R.stream rng.old) (K.faults link.old)
        (K.faults link.new) (K.last_failed link.new)) es) }
    // It ends at the first cause: whatever it answers, it went past none of another refusal.
    ensures earlier { (es : List Exchange) → made (K.exchanges link.old) (K.exchanges link.new)
        ≡ Some es
        → EndsFirst (search_by (terms query.now) pick (R.stream rng.old) (K.faults link.old)
        (K.faults link.new) (K.last_failed link.new)) es result }
    // Any other answer than too many keywords, or want of memory, comes only for few.
    ensures few { IsForFew (length (distinct (terms query.now))) result }
    // The requests are the drawn ones.
    ensures asked { (es : List Exchange) → made (K.exchanges link.old)
        (K.exchanges link.new) ≡ Some es
        → (s : Numbers) (ts : List (List ℕ)) → Publishes es s ts → test_of s ≡ Ok s
        → Asks (search_by (terms query.now) pick (R.stream rng.old) (K.faults link.old)
        (K.faults link.new) (K.last_failed link.new)) es s ts result (R.stream rng.new) }
    // When one round follows another.
    ensures goes_on { (es : List Exchange) → made (K.exchanges link.old) (K.exchanges link.new)
        ≡ Some es
        → GoesOn (search_by (terms query.now) pick (R.stream rng.old) (K.faults link.old)
        (K.faults link.new) (K.last_failed link.new)) es }
    ensures extends { Extends (K.exchanges link.old) (K.exchanges link.new) }
    ensures faults { K.faults link.old ≤ K.faults link.new }
    ensures ready { K.is_ready link.new ≡ true }
    ensures beside { K.beside link.new ≡ K.beside link.old }
{
    conduct(alloc, link, rng, query, pick)
}
