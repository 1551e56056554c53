//! The expansion of a query by workers, each of which makes a part of every level.

ghost use Rattle.std.specs.Prelude.{ℕ, ◌≡◌, ◌-◌, ◌*◌, ◌^◌, ◌<◌, ◌≤◌, length, slice_index_or, vec_len, All, IfOk, OnOk, OnErr};
ghost use Rattle.co_math.specs.Logarithms.{log2_up};
ghost use Rattle.co_bfv.specs.Ciphertexts.{ciphertext_degree};
ghost use Rattle.co_bfv.specs.Totals.{ciphertext_at};
ghost use Rattle.co_switch.specs.Keys.{key_degree, keys_degree};
ghost use Rattle.co_switch.specs.Steps.{raised, HasRisen};
ghost use Rattle.co_pir.specs.Expansions.{doubled, AreHalves, CanDouble};
ghost use Rattle.co_pir.specs.Meanings.{IsExpansion};

use crate::expansion::{exponent_at, first_level, halves, key_at};
use crate::queries::levels;
use co_bfv::Cipher;
use co_switch::{GaloisKey, KeySet, Steps};
use std::alloc::{AllocError, Global};
use std::thread;
use std::thread::Threads;

/// The two ciphertexts that one of a level becomes, where memory sufficed, and the steps made.
#[derive(Drop)]
struct Halves<L> {
    pair: Result<(Cipher, Cipher), AllocError>,
    steps: Steps<L>,
}

/// A place for the halves of each ciphertext of a level.
fn places<L>(alloc: Global, count: usize, steps: &Steps<L>) -> Result<Vec<Halves<L>>, AllocError>
    ensures count { IfOk result (λ places. vec_len places ≡ count) }
    ensures none { IfOk result (λ places. All (λ h. h.steps ≡ 0) places.items) }
{
    let mut places = Vec::with_capacity(alloc, count)?;
    for place in 0..count {
        let _ = place;
        let empty = Halves {
            pair: Err(AllocError),
            steps: steps.part(),
        };
        places.push(empty)?;
    }
    Ok(places)
}

/// Puts a ciphertext's halves in their place.
fn put_halves<L>(
    alloc: Global,
    cipher: &Cipher,
    key: &GaloisKey,
    exponent: u32,
    place: &mut Halves<L>,
)
    requires one_degree { ciphertext_degree cipher.now ≡ key_degree key.now }
    requires within { exponent < 2 * key_degree key.now }
    requires none { place.old.steps ≡ 0 }
    ensures { AreHalves exponent key.now cipher.now place.new.pair place.new.steps }
{
    let Halves { pair, steps } = place;
    *pair = halves(alloc, cipher, key, exponent, steps);
}

/// Puts the halves of all ciphertexts in their places, by at most so many workers.
fn put_all<R: Threads + Sync, L>(
    rt: &R,
    alloc: Global,
    ciphers: &[Cipher],
    key: &GaloisKey,
    exponent: u32,
    workers: usize,
    places: &mut [Halves<L>],
)
    requires some { 0 < workers }
    requires count { length places.old ≡ length ciphers.now }
    requires one_degree { All (λ c. ciphertext_degree c ≡ key_degree key.now) ciphers.now }
    requires within { exponent < 2 * key_degree key.now }
    requires none { All (λ h. h.steps ≡ 0) places.old }
    ensures { (i : ℕ) (d : _) → i < length ciphers.now → AreHalves exponent key.now
        (ciphertext_at ciphers.now i) (slice_index_or places.new i d).pair
        (slice_index_or places.new i d).steps }
{
    thread::for_each_mut(
        rt,
        places,
        workers,
        &|i, place: &mut Halves<L>|
            requires { (i < length ciphers.now) × (exponent < 2 * key_degree key.now)
                × (ciphertext_degree (ciphertext_at ciphers.now i) ≡ key_degree key.now)
                × (place.now.steps ≡ 0) }
        { put_halves(alloc, &ciphers[i], key, exponent, place) },
    );
}

/// One level of an expansion by at most so many workers: at a level of 2^j ciphertexts the power of
/// X is 2n - 2^j.
fn double_by<R: Threads + Sync, L>(
    rt: &R,
    alloc: Global,
    ciphers: &[Cipher],
    key: &GaloisKey,
    workers: usize,
    steps: &mut Steps<L>,
) -> Result<Vec<Cipher>, AllocError>
    requires level { CanDouble key.now ciphers.now }
    requires workers { 0 < workers }
    ensures value { IfOk result (λ cs. cs.items
        ≡ doubled (2 * key_degree key.now - length ciphers.now) key.now ciphers.now) }
    ensures steps { OnOk result (steps.new ≡ raised steps.old (length ciphers.now)) }
    ensures few_steps { OnErr result (HasRisen steps.old (length ciphers.now) steps.new) }
{
    let count = ciphers.len();
    let exponent = exponent_at(key, count);
    let mut places = places(alloc, count, steps)?;
    put_all(
        rt,
        alloc,
        ciphers,
        key,
        exponent,
        workers,
        places.as_mut_slice(),
    );
    let mut evens = Vec::new(alloc);
    let mut odds = Vec::new(alloc);
    for place in places {
        let Halves { pair, steps: part } = place;
        let (even, odd) = pair?;
        steps.take_in(part);
        evens.push(even)?;
        odds.push(odd)?;
    }
    evens.append(&mut odds)?;
    Ok(evens)
}

/// The expansion that `expand` makes, each level by at most so many workers.
pub(crate) fn expand_by<R: Threads + Sync, L>(
    rt: &R,
    alloc: Global,
    query: &Cipher,
    keys: &KeySet,
    rows: u32,
    workers: u32,
    steps: &mut Steps<L>,
) -> Result<Vec<Cipher>, AllocError>
    requires workers { 1 ≤ workers }
    requires rows { (1 ≤ rows) × (rows ≤ ciphertext_degree query.now) }
    requires keys { (keys_degree keys.now ≡ ciphertext_degree query.now)
        × (log2_up rows ≤ length keys.now.expansions) }
    ensures expansion { IfOk result (λ cs. IsExpansion keys.now query.now rows cs.items) }
    ensures degrees { IfOk result (λ cs. All (λ c. ciphertext_degree c
        ≡ ciphertext_degree query.now) cs.items) }
    ensures steps { OnOk result (steps.new ≡ raised steps.old (2 ^ log2_up rows - 1)) }
    ensures few_steps { OnErr result (HasRisen steps.old (2 ^ log2_up rows - 1) steps.new) }
{
    let mut ciphers = first_level(alloc, query, keys)?;
    for level in 0..levels(rows) {
        ciphers = double_by(
            rt,
            alloc,
            &ciphers,
            key_at(keys, level),
            workers as usize,
            steps,
        )?;
    }
    Ok(ciphers)
}
