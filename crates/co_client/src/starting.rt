//! The round of the keys.

ghost use Rattle.std.specs.Prelude.{◌≡◌, [], true, length, IfOk, IfErr, OnOk};
ghost use Rattle.co_link.specs.declared.messages.Target.TheVariants as targets;
ghost use Rattle.co_bfv.specs.Draws.{secret_draw};
ghost use Rattle.co_rounds.specs.Answers.{reply_with};
ghost use Rattle.co_client.specs.Rounds.{round_call, Comes, RoundFails, LinkFails, keys_asked, keys_request};

use crate::asking::{LEAST_LIMIT, ask};
use crate::fault::SearchFault;
use co_bfv::{Secret, sample_secret};
use co_link::{Link, Target};
use co_noise::Tested;
use co_ring::Degree;
use co_switch::make_keys;
use co_wire::write_keys;
use rand_core::Rng;
use std::alloc::Global;
use std::marker::Model;

/// A reader of a library, whose server has the reader's keys.
#[derive(Drop)]
pub struct Reader {
    tested: Tested,
    secret: Secret,
}

impl Model for Reader {
    ghost use Rattle.std.specs.Prelude.{◌≡◌, length};
    ghost use Rattle.co_client.specs.Rounds.{round_call, ReaderState};

    ghost Value = { ReaderState };

    ghost view = { λ r. record { shape = r.tested; secret = r.secret } };

    ghost invariant = { λ r. length r.secret ≡ r.tested.degree };
}

impl Reader {
    /// The library's numbers, which passed the test.
    pub fn tested(&self) -> &Tested
        ensures { result.now ≡ self.now.shape }
    {
        &self.tested
    }

    /// The secret whose keys the server has.
    pub fn secret(&self) -> &Secret
        ensures value { result.now ≡ self.now.secret }
        ensures degree { length self.now.secret ≡ self.now.shape.degree }
    {
        &self.secret
    }
}

/// Draws a secret and a key set and hands over the keys. After an error the rest of the stream is
/// not stated.
#[tactic(auto, unfolding(crate::specs::Rounds::keys_asked, crate::specs::Rounds::keys_request))]
pub fn start<K: Link, R: Rng>(
    alloc: Global,
    link: &mut K,
    rng: &mut R,
    tested: &Tested,
) -> Result<Reader, SearchFault>
    requires { K.is_ready link.old ≡ true }
    ensures reader { IfOk result
        (λ r. r
        ≡
        record
        { shape = tested.now; secret = (secret_draw tested.now.degree (R.stream rng.old)).0 }) }
    ensures rest { OnOk result (R.stream rng.new ≡ (keys_asked tested.now (R.stream rng.old)).1) }
    ensures came { OnOk result
        (Comes (K.exchanges link.old) (K.exchanges link.new)
        (keys_request tested.now (R.stream rng.old)) (reply_with 200 [])) }
    ensures refused { IfErr result
        (RoundFails 0 (K.exchanges link.old) (K.exchanges link.new)
        (keys_request tested.now (R.stream rng.old))) }
    ensures cause { LinkFails (K.faults link.old) (K.faults link.new) (K.last_failed link.new)
        (round_call tested.now targets.Keys) result }
    ensures ready { K.is_ready link.new ≡ true }
    ensures beside { K.beside link.new ≡ K.beside link.old }
{
    let degree = Degree::of(tested.shape().degree() as usize);
    let Ok(secret) = sample_secret(alloc, degree, rng) else {
        return Err(SearchFault::OutOfMemory);
    };
    let Ok(keys) = make_keys(alloc, tested, &secret, rng) else {
        return Err(SearchFault::OutOfMemory);
    };
    let Ok(body) = write_keys(alloc, &keys) else {
        return Err(SearchFault::OutOfMemory);
    };
    let reply = ask(link, Target::Keys, body, LEAST_LIMIT)?;
    if !reply.is_empty() {
        return Err(SearchFault::BadReply {
            target: Target::Keys,
            place: 0,
        });
    }
    Ok(Reader {
        tested: *tested,
        secret,
    })
}
