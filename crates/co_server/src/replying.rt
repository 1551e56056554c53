//! Replies under a client's keys.

ghost use Rattle.std.specs.Prelude.{◌≡◌, ◌≤◌, ◌<◌, Option, Some, None, true, IfOk, IfErr};
ghost use Rattle.co_switch.specs.Keys.{Keys};
ghost use Rattle.co_bfv.specs.Ciphertexts.{ciphertext_degree};
ghost use Rattle.co_pir.specs.Replies.{retrieved};
ghost use Rattle.co_wire.specs.Bodies.{AreCiphers, SpellsCiphers};
ghost use Rattle.co_bucket.specs.Lists.{bucket_count};
ghost use Rattle.co_rounds.specs.Serving.{bucket_table, gathered};
ghost use Rattle.co_link.specs.declared.messages.Target.TheVariants as targets;
ghost use Rattle.co_board.specs.declared.board.TheConstants.{MOST_WORKERS};
ghost use Rattle.co_wire.specs.BadBodies.{IsBadBody};
ghost use Rattle.co_wire.specs.Bodies.{AreKeysFor};
ghost use Rattle.co_wire.specs.Lengths.{request_size};
ghost use Rattle.co_rounds.specs.Answers.{IsAnswer, needs_keys};
ghost use Rattle.co_server.specs.Queries.{query_count, AreReplies};
ghost use Rattle.co_server.specs.Refusals.{RefusedAs};

use crate::loaded::Loaded;
use co_bfv::Cipher;
use co_board::Gate;
use co_bucket::buckets;
use co_link::{Request, Target};
use co_matvec::score;
use co_pir::answer;
use co_ring::Degree;
use co_rounds::Answer;
use co_switch::{KeySet, Steps};
use co_wire::{WireFault, read_ciphers, request_length, write_ciphers, write_public};
use std::alloc::{AllocError, Global};
use std::thread::Threads;

/// What is answered to a body that isn't read.
pub(crate) fn refusal(fault: WireFault) -> Answer
    ensures { RefusedAs fault result }
{
    match fault {
        WireFault::Length { wanted, found } => Answer::Length { wanted, found },
        WireFault::Range { place } => Answer::Range { place },
        WireFault::Public { .. } | WireFault::OutOfMemory => Answer::OutOfMemory,
    }
}

/// What is answered where no keys are held, to a request that needs some.
pub(crate) fn without_keys(loaded: &Loaded, request: &Request) -> Answer
    requires { needs_keys request.now.target ≡ true }
    ensures { IsAnswer loaded.now None request.now result }
{
    let wanted = request_length(loaded.tested(), request.target);
    let found = request.body.len() as u64;
    if found != wanted {
        return Answer::Length { wanted, found };
    }
    Answer::NoKeys
}

/// What is answered to a request for the published parameters.
pub(crate) fn public_answer(alloc: Global, loaded: &Loaded, request: &Request) -> Answer
    requires { request.now.target ≡ targets.Public }
    ensures { (held : Option Keys) → IsAnswer loaded.now held request.now result }
{
    let found = request.body.len() as u64;
    if found != 0 {
        return Answer::Length { wanted: 0, found };
    }
    let library = loaded.library();
    match write_public(alloc, library.shape(), library.terms()) {
        Ok(bytes) => Answer::Done(bytes),
        Err(_) => Answer::OutOfMemory,
    }
}

/// The answer to a request for scores, records or a document under these keys, which were read for
/// the library's shape. It is the one of a session that has them, so no keys are never missing.
pub fn reply_with<R: Threads + Sync, G: Gate, L>(
    rt: &R,
    alloc: Global,
    loaded: &Loaded,
    keys: &KeySet,
    request: &Request,
    workers: u32,
    gate: &G,
    steps: &mut Steps<L>,
) -> Answer
    requires target { needs_keys request.now.target ≡ true }
    requires keys { AreKeysFor loaded.now.shape keys.now }
    requires workers { (1 ≤ workers) × (workers ≤ MOST_WORKERS) }
    ensures { IsAnswer loaded.now (Some keys.now) request.now result }
{
    let queries = match read_queries(alloc, loaded, request) {
        Ok(queries) => queries,
        Err(fault) => return refusal(fault),
    };
    let target = request.target;
    let Ok(replies) = replies(
        rt, alloc, loaded, keys, target, &queries, workers, gate, steps,
    ) else {
        return Answer::OutOfMemory;
    };
    match write_ciphers(alloc, &replies) {
        Ok(bytes) => Answer::Done(bytes),
        Err(_) => Answer::OutOfMemory,
    }
}

/// How many queries a request for scores, records or a document has.
fn count_queries(loaded: &Loaded, target: Target) -> u32
    requires { needs_keys target ≡ true }
    ensures { result ≡ query_count loaded.now.shape target }
{
    let shape = loaded.tested().shape();
    let _ = shape.degree();
    match target {
        Target::Score => shape.keyword_blocks(),
        Target::Meta => buckets(shape.hits()),
        Target::Document => 1,
        Target::Public | Target::Keys => unreachable!(),
    }
}

/// The queries of a request for scores, records or a document.
fn read_queries(alloc: Global, loaded: &Loaded, request: &Request) -> Result<Vec<Cipher>, WireFault>
    requires { needs_keys request.now.target ≡ true }
    ensures spelled { IfOk result
        (λ cs. SpellsCiphers loaded.now.shape.degree
        (query_count loaded.now.shape request.now.target) cs.items request.now.body) }
    ensures fault { IfErr result
        (IsBadBody (request_size loaded.now.shape request.now.target) request.now.body) }
{
    let degree = Degree::of(loaded.tested().shape().degree() as usize);
    let count = count_queries(loaded, request.target);
    let queries = read_ciphers(alloc, degree, count, request.body.as_slice())?;
    Ok(queries)
}

/// The replies to the queries for scores, records or a document.
fn replies<R: Threads + Sync, G: Gate, L>(
    rt: &R,
    alloc: Global,
    loaded: &Loaded,
    keys: &KeySet,
    target: Target,
    queries: &[Cipher],
    workers: u32,
    gate: &G,
    steps: &mut Steps<L>,
) -> Result<Vec<Cipher>, AllocError>
    requires target { needs_keys target ≡ true }
    requires queries { AreCiphers loaded.now.shape.degree (query_count loaded.now.shape target)
        queries.now }
    requires keys { AreKeysFor loaded.now.shape keys.now }
    requires workers { (1 ≤ workers) × (workers ≤ MOST_WORKERS) }
    ensures { IfOk result (λ cs. AreReplies loaded.now keys.now target queries.now cs.items) }
{
    match target {
        Target::Score => {
            let weights = loaded.weights();
            score(rt, alloc, weights, keys, queries, workers, gate, steps)
        }
        Target::Meta => gather(rt, alloc, loaded, keys, queries, workers, gate, steps),
        Target::Document => {
            let query = &queries[0];
            answer(rt, alloc, loaded.bins(), keys, query, workers, gate, steps)
        }
        Target::Public | Target::Keys => unreachable!(),
    }
}

/// The replies of all buckets, each to its query.
fn gather<R: Threads + Sync, G: Gate, L>(
    rt: &R,
    alloc: Global,
    loaded: &Loaded,
    keys: &KeySet,
    queries: &[Cipher],
    workers: u32,
    gate: &G,
    steps: &mut Steps<L>,
) -> Result<Vec<Cipher>, AllocError>
    requires queries { AreCiphers loaded.now.shape.degree (bucket_count loaded.now.shape.hits)
        queries.now }
    requires keys { AreKeysFor loaded.now.shape keys.now }
    requires workers { (1 ≤ workers) × (workers ≤ MOST_WORKERS) }
    ensures { IfOk result (λ cs. cs.items ≡ gathered loaded.now keys.now queries.now) }
{
    let mut replies = Vec::new(alloc);
    for b in 0..queries.len() {
        let mut more = bucket_reply(
            rt,
            alloc,
            loaded,
            keys,
            b,
            &queries[b],
            workers,
            gate,
            steps,
        )?;
        replies.append(&mut more)?;
    }
    Ok(replies)
}

/// The reply of a bucket to its query.
fn bucket_reply<R: Threads + Sync, G: Gate, L>(
    rt: &R,
    alloc: Global,
    loaded: &Loaded,
    keys: &KeySet,
    bucket: usize,
    query: &Cipher,
    workers: u32,
    gate: &G,
    steps: &mut Steps<L>,
) -> Result<Vec<Cipher>, AllocError>
    requires bucket { bucket < bucket_count loaded.now.shape.hits }
    requires degree { ciphertext_degree query.now ≡ loaded.now.shape.degree }
    requires keys { AreKeysFor loaded.now.shape keys.now }
    requires workers { (1 ≤ workers) × (workers ≤ MOST_WORKERS) }
    ensures { IfOk result (λ cs. cs.items ≡ retrieved (bucket_table loaded.now bucket) keys.now
        query.now) }
{
    let rows = loaded.bucket(bucket);
    answer(rt, alloc, rows, keys, query, workers, gate, steps)
}
