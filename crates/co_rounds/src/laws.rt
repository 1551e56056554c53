//! Facts on rounds. Each function returns nothing: its contract is the fact.
//!
//! Over honest exchanges a client that asks as planned reads the plain answer; and a session has
//! one answer to a request.

ghost use Rattle.std.specs.Prelude.{◌≡◌, ◌≢◌, ◌≤◌, ◌<◌, ◌*◌, ◌⊎◌, [], ◌∷◌, ℕ, ℤ, List, length, take, drop, slice_get, Option, Some, Ok};
ghost use Rattle.std.specs.List.{Contains};
ghost use Rattle.co_bucket.specs.Lists.{bucket_count, candidates_of};
ghost use Rattle.co_bucket.specs.Bytes.{record_chunks};
ghost use Rattle.co_math.specs.Coefficients.{AreBelow, signed_coefficients};
ghost use Rattle.co_noise.specs.Shapes.{numbers, keyword_blocks, document_blocks};
ghost use Rattle.co_noise.specs.Bounds.{HasRoom, score_bound};
ghost use Rattle.co_slots.specs.Payloads.{IsPayload};
ghost use Rattle.co_bfv.specs.Secrets.{IsSecret};
ghost use Rattle.co_bfv.specs.Ciphertexts.{Ciphertext};
ghost use Rattle.co_bfv.specs.Totals.{ciphertext_at};
ghost use Rattle.co_switch.specs.Keys.{Keys, AreGoodKeys};
ghost use Rattle.co_matvec.specs.Weights.{numbers_of, AreEntries, weight_of};
ghost use Rattle.co_matvec.specs.Replies.{AreScoreReplies};
ghost use Rattle.co_pir.specs.Tables.{IsTable, row_bytes};
ghost use Rattle.co_pir.specs.Replies.{retrieved};
ghost use Rattle.co_pir.specs.Openings.{opened_reply};
ghost use Rattle.co_corpus.specs.declared.documents.Document.{Document};
ghost use Rattle.co_pack.specs.Records.{record_of};
ghost use Rattle.co_text.specs.Terms.{distinct};
ghost use Rattle.co_text.specs.Numbers.{numbers_of as keywords_of};
ghost use Rattle.co_tfidf.specs.Scores.{scores};
ghost use Rattle.co_tfidf.specs.EntryScores.{weight_in};
ghost use Rattle.co_wire.specs.Bodies.{AreKeysFor, AreCiphers, SpellsCiphers, SpellsKeys};
ghost use Rattle.co_wire.specs.Public.{public_of};
ghost use Rattle.co_link.specs.declared.messages.Target.TheVariants.{Public, Keys as ForKeys, Score, Meta, Document as ForDocument};
ghost use Rattle.co_link.specs.declared.messages.Request.{Request};
ghost use Rattle.co_link.specs.declared.messages.Exchange.{Exchange};
ghost use Rattle.co_link.specs.Exchanges.{exchange_of};
ghost use Rattle.co_library.specs.declared.settings.Settings.{Settings};
ghost use Rattle.co_library.specs.Libraries.{Parts, IsLibrary};
ghost use Rattle.co_library.specs.Refusals.{IsBuilt};
ghost use Rattle.co_rounds.specs.declared.answer.Answer.{Answer};
ghost use Rattle.co_rounds.specs.declared.answer.Answer.TheVariants.{OutOfMemory};
ghost use Rattle.co_rounds.specs.Serving.{weights_of, gathered, bucket_table, bin_table};
ghost use Rattle.co_rounds.specs.Answers.{IsAnswer, IsGoodRequest, Spells, reply_with};
ghost use Rattle.co_rounds.specs.Honest.{IsHonest, AreHeld};
ghost use Rattle.co_rounds.specs.Plans.{plan};
ghost use Rattle.co_rounds.specs.Scoring.{AskScores, scores_read};
ghost use Rattle.co_rounds.specs.Placing.{document_row, document_start};
ghost use Rattle.co_rounds.specs.Retrieving.{OverRecordRound, OverDocumentRound};
ghost use Rattle.co_rounds.specs.Recording.{IsLibraryFor, ShowsDocument, CanBeOpened, AsksFor, bytes_of, bucket_replies};
ghost use Rattle.co_text.specs.declared.limits.TheConstants.{MOST_KEYWORDS};
ghost use Rattle.co_pack.specs.declared.records.TheConstants.{RECORD_BYTES};

/// The entries of a library are entries of its weight matrix. The weight of a term there is that of
/// the plain search, by the term's number.
pub fn entries_are_weights()
    ensures entries { (l : Parts) → IsLibrary l
        → AreEntries l.shape.documents l.shape.terms l.weights }
    ensures weights { (documents : List Document) (settings : Settings) (l : Parts)
        → IsBuilt documents settings l
        → (term : List ℕ) (number document : ℕ) → slice_get l.terms number ≡ Some term
        → weight_of l.weights number document ≡ weight_in documents term
        (slice_get documents document) }
{}

/// The noise of a score reply over the weights of a library is bounded as the library's numbers
/// say.
pub fn score_bounds_agree()
    ensures { (l : Parts) → score_bound (numbers_of (weights_of l)) ≡ score_bound l.shape }
{}

/// The buckets and the bins of a library that leaves room for its noise can be retrieved from.
pub fn tables_are_whole()
    ensures buckets { (l : Parts) → IsLibrary l → HasRoom l.shape → (bucket : ℕ)
        → bucket < bucket_count l.shape.hits → IsTable (bucket_table l bucket) }
    ensures bins { (l : Parts) → IsLibrary l → HasRoom l.shape → IsTable (bin_table l) }
{}

/// The plan for degree 512, 4 documents, 5 terms, 16 hits, and one row, bin and chunk, in numerals.
pub fn a_plan_in_numerals()
    ensures { plan (numbers 512 4 5 16 0 1 1 1) ≡ (Public, 0) ∷ (ForKeys, 688128) ∷ (Score, 14336)
        ∷ (Meta, 344064) ∷ (ForDocument, 14336) ∷ [] }
{}

/// A request has one answer under the keys that are held, but for want of memory.
pub fn one_answer()
    ensures { (l : Parts) → IsLibrary l → (held : Option Keys) (r : Request) (a b : Answer)
        → a ≢ OutOfMemory → b ≢ OutOfMemory
        → IsAnswer l held r a → IsAnswer l held r b → a ≡ b }
{}

/// Over an honest exchange a good request is answered 200, or 503 for want of memory.
pub fn good_requests_are_answered()
    ensures { (l : Parts) (held : Option (List ℕ)) (e : Exchange) → IsHonest l held e
        → (keys : Option Keys) → AreHeld l.shape held keys
        → IsGoodRequest l.shape keys e.request.target e.request.body → (e.reply.status ≡ 200)
        ⊎ (e.reply.status ≡ 503) }
{}

/// Over an honest exchange the public bytes read as the library's numbers and terms.
pub fn public_round_tells()
    ensures { (l : Parts) → IsLibrary l → (held : Option (List ℕ)) (asked reply : List ℕ)
        → IsHonest l held (exchange_of (record { target = Public; body = asked })
        (reply_with 200 reply))
        → public_of reply ≡ Ok (l.shape, l.terms) }
{}

/// Honest replies of status 200 spell as many ciphertexts as a client wants.
pub fn replies_are_spelled()
    ensures score { (l : Parts) → IsLibrary l → (held : Option (List ℕ)) (asked reply : List ℕ)
        → IsHonest l held (exchange_of (record { target = Score; body = asked })
        (reply_with 200 reply))
        → Spells l.shape.degree (document_blocks l.shape) reply }
    ensures records { (l : Parts) → IsLibrary l → (held : Option (List ℕ)) (asked reply : List ℕ)
        → IsHonest l held (exchange_of (record { target = Meta; body = asked })
        (reply_with 200 reply))
        → Spells l.shape.degree (bucket_count l.shape.hits * record_chunks l.shape.degree) reply }
    ensures document { (l : Parts) → IsLibrary l → (held : Option (List ℕ)) (asked reply : List ℕ)
        → IsHonest l held (exchange_of (record { target = ForDocument; body = asked })
        (reply_with 200 reply))
        → Spells l.shape.degree l.shape.chunks reply }
{}

/// What a client reads from score replies are the scores of the documents, where the replies are
/// those of the corpus's library under the client's keys, and its queries ask for the query's
/// terms.
pub fn scores_are_plain()
    ensures { (documents : List Document) (settings : Settings) (l : Parts)
        → IsBuilt documents settings l → HasRoom l.shape
        → (secret : List ℤ) → IsSecret secret → length secret ≡ l.shape.degree
        → (keys : Keys) → AreKeysFor l.shape keys → AreGoodKeys (signed_coefficients secret) keys
        → (query : List (List ℕ)) → length (distinct query) ≤ MOST_KEYWORDS
        → (queries replies : List Ciphertext)
        → AreCiphers l.shape.degree (keyword_blocks l.shape) queries
        → AskScores l.shape.degree secret (keywords_of l.terms (distinct query)) queries
        → AreScoreReplies (weights_of l) keys queries replies
        → scores_read l.shape secret replies ≡ scores settings.terms documents query }
{}

/// The scoring round whole: over an honest exchange a client that asks for the query's terms, under
/// keys that are good for its secret, reads the scores of the documents.
pub fn score_round_is_plain()
    ensures { (documents : List Document) (settings : Settings) (l : Parts)
        → IsBuilt documents settings l → HasRoom l.shape
        → (secret : List ℤ) → IsSecret secret → length secret ≡ l.shape.degree
        → (keys : Keys) (keys_body : List ℕ) → SpellsKeys l.shape keys keys_body
        → AreGoodKeys (signed_coefficients secret) keys
        → (query : List (List ℕ)) → length (distinct query) ≤ MOST_KEYWORDS
        → (queries : List Ciphertext) (asked : List ℕ)
        → SpellsCiphers l.shape.degree (keyword_blocks l.shape) queries asked
        → AskScores l.shape.degree secret (keywords_of l.terms (distinct query)) queries
        → (reply : List ℕ) → IsHonest l (Some keys_body)
        (exchange_of (record { target = Score; body = asked }) (reply_with 200 reply))
        → (replies : List Ciphertext)
        → SpellsCiphers l.shape.degree (document_blocks l.shape) replies reply
        → scores_read l.shape secret replies ≡ scores settings.terms documents query }
{}

/// In each of its buckets stands a document's record, where a client looks for it, and in the bin
/// that the record names stands its text.
pub fn documents_are_shown()
    ensures { (documents : List Document) (settings : Settings) (l : Parts)
        → IsLibraryFor documents settings l
        → (bucket number : ℕ) (document : Document) → bucket < bucket_count l.shape.hits
        → slice_get documents number ≡ Some document
        → Contains (candidates_of l.shape.salt (bucket_count l.shape.hits) number) bucket
        → ShowsDocument l bucket number document }
{}

/// The bytes that a client reads of a payload are the payload's, and no coefficient of it is
/// refused.
pub fn payloads_are_read()
    ensures bytes { (bytes coeffs : List ℕ) → IsPayload bytes coeffs → bytes_of coeffs ≡ bytes }
    ensures small { (bytes coeffs : List ℕ) → IsPayload bytes coeffs → AreBelow 65536 coeffs }
{}

/// What a client opens of a bucket's reply is the row that it asked.
pub fn buckets_open()
    ensures { (l : Parts) (secret : List ℤ) (keys : Keys) → CanBeOpened l secret keys
        → (queries : List Ciphertext) (bucket row : ℕ) → bucket < bucket_count l.shape.hits
        → AsksFor l.shape.degree secret (ciphertext_at queries bucket) l.shape.rows row
        → IsPayload (row_bytes (bucket_table l bucket) row)
        (opened_reply secret (bucket_replies l.shape (gathered l keys queries) bucket)) }
{}

/// What a client opens of the reply of the bins is the bin that it asked.
pub fn bins_open()
    ensures { (l : Parts) (secret : List ℤ) (keys : Keys) → CanBeOpened l secret keys
        → (query : Ciphertext) (bin : ℕ) → AsksFor l.shape.degree secret query l.shape.bins bin
        → IsPayload (row_bytes (bin_table l) bin)
        (opened_reply secret (retrieved (bin_table l) keys query)) }
{}

/// The round of the records: over an honest exchange a client opens, of each bucket, the row that
/// it asked.
pub fn record_round_opens()
    ensures { (l : Parts) (secret : List ℤ) (keys : Keys)
        → OverRecordRound l secret keys (λ queries replies. (bucket row : ℕ)
        → bucket < bucket_count l.shape.hits
        → AsksFor l.shape.degree secret (ciphertext_at queries bucket) l.shape.rows row
        → IsPayload (row_bytes (bucket_table l bucket) row)
        (opened_reply secret (bucket_replies l.shape replies bucket))) }
{}

/// The round of the document: over an honest exchange a client opens the bin that it asked.
pub fn document_round_opens()
    ensures { (l : Parts) (secret : List ℤ) (keys : Keys)
        → OverDocumentRound l secret keys (λ query replies. (bin : ℕ)
        → AsksFor l.shape.degree secret query l.shape.bins bin
        → IsPayload (row_bytes (bin_table l) bin) (opened_reply secret replies)) }
{}

/// So a client that asks a bucket for the row of a document reads the document's record there.
pub fn records_are_read()
    ensures { (l : Parts) (secret : List ℤ) (keys : Keys)
        → OverRecordRound l secret keys (λ queries replies. (bucket number : ℕ)
        (document : Document) (shown : ShowsDocument l bucket number document)
        → bucket < bucket_count l.shape.hits
        → AsksFor l.shape.degree secret (ciphertext_at queries bucket) l.shape.rows
        (document_row l.shape bucket number)
        → record_of (take RECORD_BYTES (drop (document_start l.shape bucket number)
        (bytes_of (opened_reply secret (bucket_replies l.shape replies bucket)))))
        ≡ Ok (record { document = number; place = shown.place; title = document.title })) }
{}

/// And a client that asks for the bin that the record names reads the document's text there.
pub fn texts_are_read()
    ensures { (l : Parts) (secret : List ℤ) (keys : Keys)
        → OverDocumentRound l secret keys (λ query replies. (bucket number : ℕ)
        (document : Document) (shown : ShowsDocument l bucket number document)
        → AsksFor l.shape.degree secret query l.shape.bins shown.place.bin
        → take shown.place.length (drop shown.place.offset (bytes_of (opened_reply secret replies)))
        ≡ document.text) }
{}
