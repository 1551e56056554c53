//! Rotations of a ciphertext.

ghost use Rattle.std.specs.Prelude.{◌≡◌, length};
ghost use Rattle.co_bfv.specs.Ciphertexts.{ciphertext_degree};
ghost use Rattle.co_switch.specs.Keys.{keys_degree};

use crate::bfv::{Shown, encryption, put_each_opened, slots_message};
use crate::cases::{BadCase, Case};
use crate::lines::put;
use crate::switch::keyed;
use co_bfv::{Cipher, Secret};
use co_rot::{Visitor, crown, parent, subtree_count, subtree_size, walk_subtree};
use co_switch::{KeySet, Steps};
use rand_core::SeedableRng;
use rand_xoshiro::SplitMix64;
use std::alloc::{AllocError, Global};

/// The line of a case, behind the name of its call.
pub fn line(case: Case) -> Result<String, BadCase> {
    let mut line = String::new(case.alloc);
    match case.call() {
        "parents" => put_parents(&mut line, case)?,
        "rotations" => put_rotations(&mut line, case)?,
        _ => return Err(BadCase::Unfit),
    }
    Ok(line)
}

fn put_parents(line: &mut String, case: Case) -> Result<(), BadCase> {
    for number in case.numbers("of")?.iter() {
        if *number > 0 {
            put(line, parent(*number) as u128)?;
        }
    }
    Ok(())
}

/// Keeps the rotations that it is shown.
#[derive(Drop)]
struct Kept {
    alloc: Global,
    degree: usize,
    rotations: Vec<Cipher>,
}

impl Visitor for Kept {
    ghost visits = { λ _ _ _ _. Unit {0} };

    ghost degree = { λ k. k.degree };

    fn visit(&mut self, _rotation: u32, cipher: &Cipher) -> Result<(), AllocError> {
        let copy = cipher.copy(self.alloc)?;
        self.rotations.push(copy)?;
        Ok(())
    }
}

/// Shows a visitor all rotations, subtree by subtree.
fn walk_all<V: Visitor>(
    alloc: Global,
    query: &Cipher,
    keys: &KeySet,
    visitor: &mut V,
) -> Result<(), AllocError>
    requires query { ciphertext_degree query.now ≡ keys_degree keys.now }
    requires visitor { V.degree visitor.old ≡ keys_degree keys.now }
{
    let _ = keys.rotations();
    let mut steps = Steps::begin();
    let roots = crown(alloc, query, keys, &mut steps)?;
    let size = subtree_size(keys);
    for r in 0..subtree_count(keys) {
        walk_subtree(
            alloc,
            r * size,
            &roots[r as usize],
            keys,
            visitor,
            &mut steps,
        )?;
    }
    Ok(())
}

/// The rotations of the encryption of some slots: the slots that each opens to, then the digests.
fn put_rotations(line: &mut String, case: Case) -> Result<(), BadCase> {
    let mut words = SplitMix64::seed_from_u64(case.number("stream") as u64);
    let (secret, keys) = keyed(case, &mut words)?;
    put_rotations_by(line, case, &secret, &keys, &mut words)
}

fn put_rotations_by(
    line: &mut String,
    case: Case,
    secret: &Secret,
    keys: &KeySet,
    words: &mut SplitMix64,
) -> Result<(), BadCase>
    requires { keys_degree keys.now ≡ length secret.now }
{
    let message = slots_message(case, "slots")?;
    let query = encryption(case.alloc, &message, secret, words)?;
    let rotations = rotations(case.alloc, &query, keys)?;
    put_each_opened(case.alloc, line, secret, &rotations, Shown::Slots)
}

fn rotations(alloc: Global, query: &Cipher, keys: &KeySet) -> Result<Vec<Cipher>, AllocError>
    requires { ciphertext_degree query.now ≡ keys_degree keys.now }
{
    let mut kept = Kept {
        alloc,
        degree: query.degree(),
        rotations: Vec::new(alloc),
    };
    walk_all(alloc, query, keys, &mut kept)?;
    Ok(kept.rotations)
}
