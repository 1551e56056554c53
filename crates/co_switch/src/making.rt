//! Keys made from a secret and a generator's words.

ghost use Rattle.std.specs.Prelude.{ℕ, ℤ, [], ◌∷◌, ◌++◌, ◌≡◌, ◌+◌, ◌*◌, ◌/◌, ◌%◌, ◌<◌, ◌≤◌, length, IfOk, OnOk};
ghost use Rattle.co_math.specs.Parameters.{q};
ghost use Rattle.co_math.specs.Polynomials.{plus, minus, product};
ghost use Rattle.co_math.specs.Coefficients.{coefficients, IsDegree, residues_of};
ghost use Rattle.co_math.specs.Coefficients.{signed_coefficients};
ghost use Rattle.co_noise.specs.Shapes.{levels};
ghost use Rattle.co_math.specs.Logarithms.{log2_up};
ghost use Rattle.co_bfv.specs.Draws.{uniform_draw, error_draw};
ghost use Rattle.co_switch.specs.Keys.{IsGoodKey, AreGoodKeys, key_degree, keys_degree};
ghost use Rattle.co_switch.specs.Keys as elements;
ghost use Rattle.co_switch.specs.Draws.{key_draw, keys_draw, key_set_draw};
ghost use Rattle.co_switch.specs.Switches.{automorphism};

use crate::galois::{expansion_element, rotation_element};
use crate::key_sets::KeySet;
use crate::keys::GaloisKey;
use crate::switching::substitute;
use co_bfv::{Secret, sample_error, sample_uniform};
use co_math::{DIGIT_BASE, DIGIT_COUNT, log2_up};
use co_noise::Tested;
use co_ring::Degree;
use co_rns::Pair;
use rand_core::Rng;
use std::alloc::{AllocError, Global};

/// The key for a Galois element, by five words for each coefficient and digit.
/// After an error the rest of the stream is not stated.
pub fn make_key<R: Rng>(
    alloc: Global,
    secret: &Secret,
    element: u32,
    rng: &mut R,
) -> Result<GaloisKey, AllocError>
    requires odd { element % 2 ≡ 1 }
    requires within { element < 2 * length secret.now }
    ensures value { IfOk result (λ key. key ≡ (key_draw secret.now element (R.stream rng.old)).0) }
    ensures rest { OnOk result (R.stream rng.new
        ≡ (key_draw secret.now element (R.stream rng.old)).1) }
    ensures good { IfOk result (IsGoodKey (signed_coefficients secret.now)) }
    ensures degree { IfOk result (λ key. key_degree key ≡ length secret.now) }
{
    let _ = secret.degree();
    let mut k0 = Vec::with_capacity(alloc, DIGIT_COUNT as usize)?;
    let mut k1 = Vec::with_capacity(alloc, DIGIT_COUNT as usize)?;
    make_pairs(alloc, secret, element, rng, &mut k0, &mut k1)?;
    GaloisKey::from_parts(alloc, element, k0, k1)
}

// The pairs of a key, the lowest digit first.
fn make_pairs<R: Rng>(
    alloc: Global,
    secret: &Secret,
    element: u32,
    rng: &mut R,
    k0: &mut Vec<Pair>,
    k1: &mut Vec<Pair>,
) -> Result<(), AllocError>
    requires odd { element % 2 ≡ 1 }
    requires within { element < 2 * length secret.now }
    requires no_first { k0.old.items ≡ [] }
    requires no_second { k1.old.items ≡ [] }
    ensures { OnOk result (
        (record { element = element; k0 = k0.new.items; k1 = k1.new.items }, R.stream rng.new)
        ≡ key_draw secret.now element (R.stream rng.old)) }
{
    let _ = secret.degree();
    let whole = secret.residues(alloc)?;
    let mut hidden = substitute(alloc, &whole, element)?;
    hide_all(alloc, secret, &mut hidden, rng, k0, k1)
}

// The pairs that hide a polynomial times the powers of the base, the lowest first. The polynomial
// is multiplied in place.
fn hide_all<R: Rng>(
    alloc: Global,
    secret: &Secret,
    hidden: &mut Pair,
    rng: &mut R,
    k0: &mut Vec<Pair>,
    k1: &mut Vec<Pair>,
) -> Result<(), AllocError>
    requires no_first { k0.old.items ≡ [] }
    requires no_second { k1.old.items ≡ [] }
    requires degree { length hidden.old ≡ length secret.now }
    ensures { OnOk result ((g : ℕ) → g % 2 ≡ 1
        → hidden.old ≡ automorphism g
        (residues_of q (length secret.now) (signed_coefficients secret.now))
        → (record { element = g; k0 = k0.new.items; k1 = k1.new.items }, R.stream rng.new)
        ≡ key_draw secret.now g (R.stream rng.old)) }
{
    let _ = secret.degree();
    for index in 0..DIGIT_COUNT {
        push_pair(alloc, secret, hidden, rng, k0, k1)?;
        hidden.scale(DIGIT_BASE);
    }
    Ok(())
}

// A uniform polynomial a and an error e: one more pair of e - a * s + hidden, and a.
fn push_pair<R: Rng>(
    alloc: Global,
    secret: &Secret,
    hidden: &Pair,
    rng: &mut R,
    k0: &mut Vec<Pair>,
    k1: &mut Vec<Pair>,
) -> Result<(), AllocError>
    requires { length hidden.now ≡ length secret.now }
    ensures first { OnOk result (let n = length secret.now in
        let a = uniform_draw n (R.stream rng.old) in
        k0.new.items ≡ k0.old.items ++ residues_of q n (plus
        (minus (signed_coefficients (error_draw n a.1).0)
        (product n (coefficients a.0) (signed_coefficients secret.now)))
        (coefficients hidden.now)) ∷ []) }
    ensures second { OnOk result (k1.new.items
        ≡ k1.old.items ++ (uniform_draw (length secret.now) (R.stream rng.old)).0 ∷ []) }
    ensures rest { OnOk result (let n = length secret.now in
        R.stream rng.new ≡ (error_draw n (uniform_draw n (R.stream rng.old)).1).1) }
{
    let at = k1.len();
    k1.push(sample_uniform(alloc, Degree::of(secret.degree()), rng)?)?;
    k0.push(hide(alloc, secret, &k1[at], hidden, rng)?)?;
    Ok(())
}

// With an error e and a polynomial a: e - a * s + hidden.
fn hide<R: Rng>(
    alloc: Global,
    secret: &Secret,
    uniform: &Pair,
    hidden: &Pair,
    rng: &mut R,
) -> Result<Pair, AllocError>
    requires hidden_degree { length hidden.now ≡ length secret.now }
    requires uniform_degree { length uniform.now ≡ length secret.now }
    ensures value { IfOk result (λ pair. let n = length secret.now in
        let e = (error_draw n (R.stream rng.old)).0 in
        pair ≡ residues_of q n (plus (minus (signed_coefficients e)
        (product n (coefficients uniform.now) (signed_coefficients secret.now)))
        (coefficients hidden.now))) }
    ensures rest { OnOk result (
        R.stream rng.new ≡ (error_draw (length secret.now) (R.stream rng.old)).1) }
{
    let degree = Degree::of(secret.degree());
    let mut sum = sample_error(alloc, degree, rng)?;
    hide_in(alloc, &mut sum, secret, uniform, hidden)?;
    Ok(sum)
}

// Takes a * s from an error, and adds what is hidden.
fn hide_in(
    alloc: Global,
    sum: &mut Pair,
    secret: &Secret,
    uniform: &Pair,
    hidden: &Pair,
) -> Result<(), AllocError>
    requires sum_degree { length sum.old ≡ length secret.now }
    requires hidden_degree { length hidden.now ≡ length secret.now }
    requires uniform_degree { length uniform.now ≡ length secret.now }
    ensures { OnOk result ((e : ℤ → ℤ) → sum.old ≡ residues_of q (length secret.now) e
        → sum.new ≡ residues_of q (length secret.now) (plus (minus e
        (product (length secret.now) (coefficients uniform.now) (signed_coefficients secret.now)))
        (coefficients hidden.now))) }
{
    let product = secret.mul(alloc, uniform)?;
    sum.sub_in(&product);
    sum.add_in(hidden);
    Ok(())
}

/// The keys for a tested shape: the rotation keys, then as many expansion keys as the shape has
/// levels.
/// After an error the rest of the stream is not stated.
pub fn make_keys<R: Rng>(
    alloc: Global,
    tested: &Tested,
    secret: &Secret,
    rng: &mut R,
) -> Result<KeySet, AllocError>
    requires { length secret.now ≡ tested.now.degree }
    ensures value { IfOk result (λ keys.
        keys ≡ (key_set_draw secret.now (levels tested.now) (R.stream rng.old)).0) }
    ensures rest { OnOk result (
        R.stream rng.new ≡ (key_set_draw secret.now (levels tested.now) (R.stream rng.old)).1) }
    ensures good { IfOk result (AreGoodKeys (signed_coefficients secret.now)) }
    ensures degree { IfOk result (λ keys. keys_degree keys ≡ tested.now.degree) }
    ensures rotations { IfOk result (λ keys.
        length keys.rotations ≡ log2_up (tested.now.degree / 2)) }
    ensures expansions { IfOk result (λ keys. length keys.expansions ≡ levels tested.now) }
{
    let _ = secret.degree();
    let shape = tested.shape();
    let degree = shape.degree();
    let levels = shape.levels();
    let mut rotations = Vec::with_capacity(alloc, log2_up(degree / 2) as usize)?;
    make_rotations(alloc, secret, degree, rng, &mut rotations)?;
    let mut expansions = Vec::with_capacity(alloc, levels as usize)?;
    make_expansions(alloc, secret, degree, levels, rng, &mut expansions)?;
    Ok(KeySet::from_parts(rotations, expansions))
}

// The keys for 3^(2^b) modulo 2n, in the order of b.
fn make_rotations<R: Rng>(
    alloc: Global,
    secret: &Secret,
    degree: u32,
    rng: &mut R,
    keys: &mut Vec<GaloisKey>,
) -> Result<(), AllocError>
    requires one_degree { length secret.now ≡ degree }
    requires degree { IsDegree degree }
    requires none { keys.old.items ≡ [] }
    ensures value { OnOk result (let n = length secret.now in
        keys.new.items
        ≡ (keys_draw secret.now (elements.rotation_element n) (log2_up (n / 2))
        (R.stream rng.old)).0) }
    ensures rest { OnOk result (let n = length secret.now in
        R.stream rng.new
        ≡ (keys_draw secret.now (elements.rotation_element n) (log2_up (n / 2))
        (R.stream rng.old)).1) }
{
    for index in 0..log2_up(degree / 2) {
        let element = rotation_element(degree, index);
        keys.push(make_key(alloc, secret, element, rng)?)?;
    }
    Ok(())
}

// The keys for n / 2^j + 1, in the order of j.
fn make_expansions<R: Rng>(
    alloc: Global,
    secret: &Secret,
    degree: u32,
    levels: u32,
    rng: &mut R,
    keys: &mut Vec<GaloisKey>,
) -> Result<(), AllocError>
    requires one_degree { length secret.now ≡ degree }
    requires degree { IsDegree degree }
    requires few { levels ≤ log2_up (degree / 2) + 1 }
    requires none { keys.old.items ≡ [] }
    ensures value { OnOk result (let n = length secret.now in
        keys.new.items
        ≡ (keys_draw secret.now (elements.expansion_element n) levels (R.stream rng.old)).0) }
    ensures rest { OnOk result (let n = length secret.now in
        R.stream rng.new
        ≡ (keys_draw secret.now (elements.expansion_element n) levels (R.stream rng.old)).1) }
{
    for index in 0..levels {
        let element = expansion_element(degree, index);
        keys.push(make_key(alloc, secret, element, rng)?)?;
    }
    Ok(())
}
