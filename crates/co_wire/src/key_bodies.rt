//! Key sets as bytes.

ghost use Rattle.std.specs.Prelude.{◌≡◌, ◌+◌, ◌*◌, ◌/◌, ◌%◌, ◌<◌, ◌≤◌, ◌++◌, [], length, IfOk, IfErr, OnOk};
ghost use Rattle.std.specs.List.{flat_map};
ghost use Rattle.co_link.specs.declared.messages.Target.TheVariants as targets;
ghost use Rattle.co_math.specs.Coefficients.{IsDegree};
ghost use Rattle.co_math.specs.Logarithms.{log2_up};
ghost use Rattle.co_switch.specs.Keys.{IsKey, key_degree, rotation_element, expansion_element};
ghost use Rattle.co_wire.specs.BadBodies.{IsBadBody};
ghost use Rattle.co_wire.specs.Bodies.{SpellsKeys, key_bytes, keys_bytes};
ghost use Rattle.co_wire.specs.Parts.{AreInRangeTo, AreReadPairs, AreReadKeys, ReadsTo, IsRangeFault, IsSetRead};
ghost use Rattle.co_wire.specs.Lengths.{key_size, request_size};

use crate::bodies::{CIPHER_BYTES, check_length, put_polynomial, read_polynomial};
use crate::fault::WireFault;
use crate::lengths::request_length;
use co_link::{Bytes, Target};
use co_math::{DIGIT_COUNT, log2_up};
use co_noise::Tested;
use co_ring::Degree;
use co_rns::Pair;
use co_switch::{GaloisKey, KeySet};
use std::alloc::{AllocError, Global};

// ---- writing

/// Adds a key at the end: for each digit the two polynomials of its pair.
#[tactic(auto, unfolding(crate::specs::Bodies::pairs_bytes))]
fn put_key(out: &mut Vec<u8>, key: &GaloisKey) -> Result<(), AllocError>
    ensures { OnOk result (out.new.items ≡ out.old.items ++ key_bytes key.now) }
{
    let _ = key.degree();
    for index in 0..DIGIT_COUNT {
        put_polynomial(out, key.k0(index))?;
        put_polynomial(out, key.k1(index))?;
    }
    Ok(())
}

/// Adds keys at the end, one after another.
fn put_keys(out: &mut Vec<u8>, keys: &[GaloisKey]) -> Result<(), AllocError>
    ensures { OnOk result (out.new.items ≡ out.old.items ++ flat_map key_bytes keys.now) }
{
    for key in keys {
        put_key(out, key)?;
    }
    Ok(())
}

/// The bytes of all these keys, which have one degree.
fn room(keys: &[GaloisKey]) -> usize {
    match keys.first() {
        Some(key) => keys
            .len()
            .wrapping_mul(key.degree())
            .wrapping_mul(DIGIT_COUNT as usize * CIPHER_BYTES),
        None => 0,
    }
}

/// The bytes of a key set: the rotation keys in order, then the expansion keys.
pub fn write_keys(alloc: Global, keys: &KeySet) -> Result<Bytes, AllocError>
    ensures { IfOk result (λ bytes. bytes ≡ keys_bytes keys.now) }
{
    let room = room(keys.rotations()).wrapping_add(room(keys.expansions()));
    let mut out = Vec::with_capacity(alloc, room)?;
    put_keys(&mut out, keys.rotations())?;
    put_keys(&mut out, keys.expansions())?;
    Ok(Bytes::from_vec(out))
}

// ---- reading

/// Adds the pairs of a key's digits, which stand behind so many residues, to two empty lists.
fn read_pairs(
    alloc: Global,
    degree: Degree,
    body: &[u8],
    from: usize,
    k0: &mut Vec<Pair>,
    k1: &mut Vec<Pair>,
) -> Result<(), WireFault>
    requires room { 7 * (from + 24 * degree) ≤ length body.now }
    requires even { from % 2 ≡ 0 }
    requires before { AreInRangeTo body.now from }
    requires k0 { k0.old.items ≡ [] }
    requires k1 { k1.old.items ≡ [] }
    ensures pairs { OnOk result (AreReadPairs degree from 6 (from + 24 * degree) k0.new.items
        k1.new.items body.now) }
    ensures fault { IfErr result (IsRangeFault body.now) }
{
    let half = 2 * degree.get() as usize;
    let mut at = from;
    for index in 0..DIGIT_COUNT {
        let _ = index;
        let first = read_polynomial(alloc, degree, body, at)?;
        let Ok(()) = k0.push(first) else {
            return Err(WireFault::OutOfMemory);
        };
        let second = read_polynomial(alloc, degree, body, at + half)?;
        let Ok(()) = k1.push(second) else {
            return Err(WireFault::OutOfMemory);
        };
        at += 2 * half;
    }
    Ok(())
}

/// The key for an element, which stands behind so many residues.
fn read_key(
    alloc: Global,
    degree: Degree,
    element: u32,
    body: &[u8],
    from: usize,
) -> Result<GaloisKey, WireFault>
    requires room { 7 * (from + 24 * degree) ≤ length body.now }
    requires even { from % 2 ≡ 0 }
    requires before { AreInRangeTo body.now from }
    requires odd { element % 2 ≡ 1 }
    requires within { element < 2 * degree }
    ensures read { ReadsTo key_bytes from (from + 24 * degree) body.now result }
    ensures element { IfOk result (λ key. key.element ≡ element) }
    ensures degree { IfOk result (λ key. key_degree key ≡ degree) }
    ensures key { IfOk result IsKey }
{
    let mut k0 = Vec::with_capacity(alloc, DIGIT_COUNT as usize)?;
    let mut k1 = Vec::with_capacity(alloc, DIGIT_COUNT as usize)?;
    read_pairs(alloc, degree, body, from, &mut k0, &mut k1)?;
    Ok(GaloisKey::from_parts(alloc, element, k0, k1)?)
}

/// The square modulo a small number.
fn square(element: u32, modulus: u32) -> u32
    requires reduced { element < modulus }
    requires small { modulus ≤ 8192 }
    ensures { result ≡ element * element % modulus }
{
    element * element % modulus
}

/// Adds the keys for 3^(2^b) modulo 2n, in the order of b, from the front of a body on, to none.
fn read_rotations(
    alloc: Global,
    degree: Degree,
    count: u32,
    body: &[u8],
    keys: &mut Vec<GaloisKey>,
) -> Result<(), WireFault>
    requires whole { count * (168 * degree) ≤ length body.now }
    requires known { IsDegree degree }
    requires none { keys.old.items ≡ [] }
    ensures read { OnOk result (AreReadKeys degree (rotation_element degree) 0 count
        (count * (24 * degree)) keys.new.items body.now) }
    ensures fault { IfErr result (IsRangeFault body.now) }
{
    let n = degree.get();
    let step = 24 * n as usize;
    let mut at = 0;
    let mut element = 3;
    for b in 0..count {
        let _ = b;
        let key = read_key(alloc, degree, element, body, at)?;
        let Ok(()) = keys.push(key) else {
            return Err(WireFault::OutOfMemory);
        };
        at += step;
        element = square(element, 2 * n);
    }
    Ok(())
}

/// Adds the keys for n / 2^j + 1, in the order of j, behind so many residues, to none.
fn read_expansions(
    alloc: Global,
    degree: Degree,
    count: u32,
    body: &[u8],
    from: usize,
    keys: &mut Vec<GaloisKey>,
) -> Result<(), WireFault>
    requires whole { 7 * (from + count * (24 * degree)) ≤ length body.now }
    requires even { from % 2 ≡ 0 }
    requires before { AreInRangeTo body.now from }
    requires known { IsDegree degree }
    requires few { count ≤ log2_up (degree / 2) + 1 }
    requires none { keys.old.items ≡ [] }
    ensures read { OnOk result (AreReadKeys degree (expansion_element degree) from count
        (from + count * (24 * degree)) keys.new.items body.now) }
    ensures fault { IfErr result (IsRangeFault body.now) }
{
    let n = degree.get();
    let step = 24 * n as usize;
    let mut at = from;
    for j in 0..count {
        let key = read_key(alloc, degree, (n >> j) + 1, body, at)?;
        let Ok(()) = keys.push(key) else {
            return Err(WireFault::OutOfMemory);
        };
        at += step;
    }
    Ok(())
}

/// The key set that a body of the right length spells.
fn read_set(
    alloc: Global,
    degree: Degree,
    turns: u32,
    levels: u32,
    body: &[u8],
) -> Result<KeySet, WireFault>
    requires whole { length body.now ≡ (turns + levels) * key_size degree }
    requires known { IsDegree degree }
    requires turns { turns ≡ log2_up (degree / 2) }
    requires few { levels ≤ turns + 1 }
    ensures spelled { IfOk result (λ keys. IsSetRead degree levels keys body.now) }
    ensures fault { IfErr result (IsRangeFault body.now) }
{
    let mut rotations = Vec::with_capacity(alloc, turns as usize)?;
    read_rotations(alloc, degree, turns, body, &mut rotations)?;
    let from = turns as usize * (24 * degree.get() as usize);
    let mut expansions = Vec::with_capacity(alloc, levels as usize)?;
    read_expansions(alloc, degree, levels, body, from, &mut expansions)?;
    Ok(KeySet::from_parts(rotations, expansions))
}

/// The key set of a shape that some bytes spell.
///
/// The faults are, in this order, `Length` exactly where the body has not as many bytes as the
/// shape's key set, and `Range` exactly at the first residue that is at or above its modulus.
pub fn read_keys(alloc: Global, tested: &Tested, bytes: &[u8]) -> Result<KeySet, WireFault>
    ensures spelled { IfOk result (λ keys. SpellsKeys tested.now keys bytes.now) }
    ensures fault { IfErr result (IsBadBody (request_size tested.now targets.Keys) bytes.now) }
{
    check_length(bytes, request_length(tested, Target::Keys))?;
    let shape = tested.shape();
    let degree = Degree::of(shape.degree() as usize);
    let turns = log2_up(shape.degree() / 2);
    read_set(alloc, degree, turns, shape.levels(), bytes)
}
