//! Queries, spelled one after another into the body of a request, and what is asked with them.

ghost use Rattle.std.specs.Prelude.{◌≡◌, ◌≢◌, ◌*◌, ◌<◌, ◌≤◌, ◌++◌, true, length, IfOk, IfErr, OnOk};
ghost use Rattle.co_link.specs.declared.messages.Target.TheVariants as targets;
ghost use Rattle.co_ring.specs.Polynomials.{degree_of};
ghost use Rattle.co_bfv.specs.Draws.{encryption_draw};
ghost use Rattle.co_wire.specs.Bodies.{cipher_bytes};
ghost use Rattle.co_wire.specs.Lengths.{cipher_size, reply_size};
ghost use Rattle.co_rounds.specs.Asked.{row_message};
ghost use Rattle.co_client.specs.Rounds.{round_call, RoundFails, LinkFails, Gives};

use crate::asking::{LEAST_LIMIT, ask};
use crate::fault::SearchFault;
use crate::reading::check_reply;
use crate::starting::Reader;
use co_bfv::{Secret, encrypt};
use co_link::{Bytes, Link, Target};
use co_pir::query_message;
use co_ring::{Degree, Modulus, Poly};
use co_wire::{reply_length, write_ciphers};
use rand_core::Rng;
use std::alloc::{AllocError, Global};

/// Encrypts a message, and adds the ciphertext at the end of a body. After an error the rest of the
/// stream is not stated.
pub(crate) fn put_query<R: Rng>(
    alloc: Global,
    secret: &Secret,
    message: &Poly,
    rng: &mut R,
    body: &mut Vec<u8>,
) -> Result<(), AllocError>
    requires plain_modulus { message.now.modulus ≡ Modulus.Plain }
    requires one_degree { degree_of message.now ≡ length secret.now }
    ensures spelled { OnOk result
        (body.new.items ≡ body.old.items ++ cipher_bytes
        (encryption_draw secret.now message.now.coeffs (R.stream rng.old)).0) }
    ensures rest { OnOk result
        (R.stream rng.new ≡ (encryption_draw secret.now message.now.coeffs (R.stream rng.old)).1) }
{
    let cipher = [encrypt(alloc, secret, message, rng)?];
    let bytes = write_ciphers(alloc, &cipher)?;
    body.extend_from_slice(bytes.as_slice())
}

/// Adds a query for a row of so many rows. After an error the rest of the stream is not stated.
pub(crate) fn put_row<R: Rng>(
    alloc: Global,
    reader: &Reader,
    rows: u32,
    row: u32,
    rng: &mut R,
    body: &mut Vec<u8>,
) -> Result<(), AllocError>
    requires in_range { row < rows }
    requires few { rows ≤ reader.now.shape.degree }
    ensures spelled { OnOk result
        (body.new.items ≡ body.old.items ++ cipher_bytes
        (encryption_draw reader.now.secret (row_message reader.now.shape.degree rows row)
        (R.stream rng.old)).0) }
    ensures rest { OnOk result
        (R.stream rng.new
        ≡ (encryption_draw reader.now.secret (row_message reader.now.shape.degree rows row)
        (R.stream rng.old)).1) }
{
    let shape = reader.tested().shape();
    let secret = reader.secret();
    let degree = Degree::of(shape.degree() as usize);
    let message = query_message(alloc, degree, rows, row)?;
    put_query(alloc, secret, &message, rng, body)
}

/// Asks with a body of queries, and gives the body of the reply, which spells so many ciphertexts.
pub(crate) fn ask_ciphers<K: Link>(
    alloc: Global,
    link: &mut K,
    reader: &Reader,
    target: Target,
    queries: Bytes,
    count: u32,
) -> Result<Bytes, SearchFault>
    requires ready { K.is_ready link.old ≡ true }
    requires target { (target ≢ targets.Public) × (target ≢ targets.Keys) }
    requires count { count * cipher_size reader.now.shape.degree
        ≡ reply_size reader.now.shape target }
    ensures came { IfOk result
        (Gives reader.now.shape.degree count (K.exchanges link.old) (K.exchanges link.new)
        (record { target = target; body = queries })) }
    ensures refused { IfErr result
        (RoundFails (reply_size reader.now.shape target) (K.exchanges link.old)
        (K.exchanges link.new) (record { target = target; body = queries })) }
    ensures cause { LinkFails (K.faults link.old) (K.faults link.new) (K.last_failed link.new)
        (round_call reader.now.shape target) result }
    ensures ready { K.is_ready link.new ≡ true }
    ensures beside { K.beside link.new ≡ K.beside link.old }
{
    let degree = Degree::of(reader.tested().shape().degree() as usize);
    let limit = reply_length(reader.tested(), target).max(LEAST_LIMIT);
    let body = ask(link, target, queries, limit)?;
    check_reply(alloc, degree, count, target, body.as_slice())?;
    Ok(body)
}
