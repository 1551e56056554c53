//! Replies, checked whole and then opened one ciphertext after another.

ghost use Rattle.std.specs.Prelude.{◌≡◌, ◌+◌, ◌*◌, ◌^◌, ◌<◌, ◌≤◌, ℕ, List, length, take, drop, IfOk, IfErr, OnOk};
ghost use Rattle.co_bfv.specs.Ciphertexts.{Ciphertext, ciphertext_degree};
ghost use Rattle.co_bfv.specs.Totals.{ciphertext_at};
ghost use Rattle.co_bfv.specs.Encryptions.{decrypted};
ghost use Rattle.co_pir.specs.Openings.{opened_reply, IsCauseFrom};
ghost use Rattle.co_wire.specs.Bodies.{SpellsCiphers};
ghost use Rattle.co_wire.specs.Lengths.{cipher_size};
ghost use Rattle.co_client.specs.Openings.{AddsPayload, AreSpelled, IsRefusedBody, IsPlaceBelow, OpensTo, part_of};
ghost use Rattle.co_client.specs.Records.{opened_bytes};
ghost use Rattle.co_client.specs.Faults.{IsReadAs};

use crate::fault::SearchFault;
use co_bfv::{Cipher, Secret};
use co_link::{Bytes, Target};
use co_pir::open_reply;
use co_ring::Degree;
use co_slots::ByteFault;
use co_wire::{CIPHER_BYTES, WireFault, read_ciphers};
use std::alloc::{AllocError, Global};

/// The bytes of the ciphertext at a place.
fn piece_at(degree: Degree, body: &[u8], at: usize) -> &[u8]
    requires { (at + 1) * cipher_size degree ≤ length body.now }
    ensures { result.now ≡ take (cipher_size degree) (drop (at * cipher_size degree) body.now) }
{
    let size = CIPHER_BYTES * degree.get() as usize;
    let start = at * size;
    &body[start..start + size]
}

/// Checks that the body of a reply to a target spells so many ciphertexts, one of which is held at
/// a time.
pub(crate) fn check_reply(
    alloc: Global,
    degree: Degree,
    count: u32,
    target: Target,
    body: &[u8],
) -> Result<(), SearchFault>
    ensures spelled { OnOk result (AreSpelled degree count body.now) }
    ensures refused { IfErr result (IsRefusedBody (count * cipher_size degree) target body.now) }
{
    let n = degree.get() as usize;
    let found = body.len();
    let wanted = count as usize * (CIPHER_BYTES * n);
    if found != wanted {
        return Err(SearchFault::BadReply {
            target,
            place: found.min(wanted) as u64,
        });
    }
    for at in 0..count as usize {
        match read_ciphers(alloc, degree, 1, piece_at(degree, body, at)) {
            Ok(ciphers) => {
                let _ = ciphers.len();
            }
            Err(WireFault::Range { place }) => {
                return Err(SearchFault::BadReply {
                    target,
                    place: (at * (CIPHER_BYTES * n)) as u64 + place,
                });
            }
            Err(WireFault::Length { .. } | WireFault::Public { .. } | WireFault::OutOfMemory) => {
                return Err(SearchFault::OutOfMemory);
            }
        }
    }
    Ok(())
}

/// The ciphertext at a place of a body that spells ciphertexts.
pub(crate) fn cipher_at(
    alloc: Global,
    degree: Degree,
    body: &[u8],
    at: usize,
) -> Result<Cipher, AllocError>
    requires { (at + 1) * cipher_size degree ≤ length body.now }
    ensures value { IfOk result (λ c. (cs : List Ciphertext) (count : ℕ)
        → SpellsCiphers degree count cs
        body.now → c ≡ ciphertext_at cs at) }
    ensures degree { IfOk result (λ c. ciphertext_degree c ≡ degree) }
{
    let _n = degree.get();
    let Ok(mut ciphers) = read_ciphers(alloc, degree, 1, piece_at(degree, body, at)) else {
        return Err(AllocError);
    };
    Ok(ciphers.remove(0))
}

/// The bytes that the ciphertext at a place opens to.
fn open_at(
    alloc: Global,
    secret: &Secret,
    degree: Degree,
    body: &[u8],
    at: usize,
) -> Result<Bytes, ByteFault>
    requires one_degree { length secret.now ≡ degree }
    requires whole { (at + 1) * cipher_size degree ≤ length body.now }
    ensures opened { OpensTo degree body.now
        (λ cs. decrypted secret.now (ciphertext_at cs at)) result }
    ensures within { IfErr result (IsPlaceBelow degree) }
    ensures long { IfOk result (λ bytes. length bytes ≡ 2 * degree) }
{
    let n = degree.get();
    let Ok(cipher) = cipher_at(alloc, degree, body, at) else {
        return Err(ByteFault::OutOfMemory);
    };
    let one = [cipher];
    open_reply(alloc, secret, &one)
}

/// Adds the bytes of the ciphertext at a place, the chunk of this number. The place of a fault
/// counts the coefficients of earlier chunks, too.
fn open_one(
    alloc: Global,
    secret: &Secret,
    degree: Degree,
    body: &[u8],
    at: usize,
    chunk: usize,
    bytes: &mut Bytes,
) -> Result<(), ByteFault>
    requires one_degree { length secret.now ≡ degree }
    requires whole { (at + 1) * cipher_size degree ≤ length body.now }
    requires few { (chunk + 1) * degree ≤ 2 ^ 32 }
    ensures bytes { OnOk result
        ((cs : List Ciphertext) (count : ℕ) → SpellsCiphers degree count cs body.now
        → AddsPayload bytes.old bytes.new (decrypted secret.now (ciphertext_at cs at))) }
    ensures fault { IfErr result (λ fault. (cs : List Ciphertext) (count : ℕ)
        → SpellsCiphers degree count cs body.now
        → IsCauseFrom (chunk * degree) (decrypted secret.now (ciphertext_at cs at)) fault) }
    ensures long { OnOk result (length bytes.new ≡ length bytes.old + 2 * degree) }
{
    let n = degree.get() as usize;
    match open_at(alloc, secret, degree, body, at) {
        Ok(piece) => match bytes.append(piece.as_slice()) {
            Ok(()) => Ok(()),
            Err(_) => Err(ByteFault::OutOfMemory),
        },
        Err(ByteFault::NotByte { place }) => Err(ByteFault::NotByte {
            place: (chunk * n) as u32 + place,
        }),
        Err(ByteFault::OutOfMemory) => Err(ByteFault::OutOfMemory),
    }
}

/// The bytes of so many ciphertexts of a reply, from one on.
fn open_from(
    alloc: Global,
    secret: &Secret,
    degree: Degree,
    body: &[u8],
    from: usize,
    count: usize,
) -> Result<Bytes, ByteFault>
    requires one_degree { length secret.now ≡ degree }
    requires whole { (from + count) * cipher_size degree ≤ length body.now }
    requires few { count * degree ≤ 2 ^ 32 }
    ensures opened { OpensTo degree body.now
        (λ cs. opened_reply secret.now (part_of from count cs)) result }
    ensures long { IfOk result (λ bytes. length bytes ≡ 2 * (count * degree)) }
{
    let n = degree.get() as usize;
    let Ok(mut bytes) = Bytes::with_capacity(alloc, 2 * n * count) else {
        return Err(ByteFault::OutOfMemory);
    };
    for chunk in 0..count {
        open_one(alloc, secret, degree, body, from + chunk, chunk, &mut bytes)?;
    }
    Ok(bytes)
}

/// The bytes that part number `reply` of a target's reply opens to, each part having so many
/// ciphertexts.
pub(crate) fn open_part(
    alloc: Global,
    secret: &Secret,
    degree: Degree,
    body: &[u8],
    count: u32,
    target: Target,
    reply: u32,
) -> Result<Bytes, SearchFault>
    requires one_degree { length secret.now ≡ degree }
    requires whole { (reply * count + count) * cipher_size degree ≤ length body.now }
    requires few { count * degree ≤ 2 ^ 32 }
    ensures read { (cs : List Ciphertext) (all : ℕ) → SpellsCiphers degree all cs body.now
        → IsReadAs result
        (opened_bytes target reply
        (opened_reply secret.now (part_of (reply * count) count cs))) }
    ensures long { IfOk result (λ bytes. length bytes ≡ 2 * (count * degree)) }
{
    let from = reply as usize * count as usize;
    match open_from(alloc, secret, degree, body, from, count as usize) {
        Ok(bytes) => Ok(bytes),
        Err(ByteFault::NotByte { place }) => Err(SearchFault::NotByte {
            target,
            reply,
            place,
        }),
        Err(ByteFault::OutOfMemory) => Err(SearchFault::OutOfMemory),
    }
}
