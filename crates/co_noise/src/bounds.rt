//! The noise of each step, as a formula in a shape.

ghost use Rattle.std.specs.Prelude.{◌≡◌, ◌<◌, ◌^◌, IsTrue};
ghost use Rattle.co_math.specs.Parameters.{q};
ghost use Rattle.co_math.specs.Bounds as parameter_bounds;
ghost use Rattle.co_noise.specs.Limits.{most_rows};
ghost use Rattle.co_noise.specs.Shapes.{is_degree, is_within};
ghost use Rattle.co_noise.specs.Bounds as bounds;

use crate::shape::Shape;
use co_math::{CIPHER_MODULUS, DIGIT_BASE, DIGIT_COUNT, ERROR_BOUND, PLAIN_MODULUS, log2_up};

/// The greatest absolute value of a centred number modulo t.
const PLAIN_HALF: u128 = PLAIN_MODULUS as u128 / 2;

/// The modulus of ciphertexts.
pub fn modulus() -> u128
    ensures { result ≡ q }
{
    CIPHER_MODULUS
}

/// The noise of a fresh ciphertext.
pub fn fresh_bound() -> u128
    ensures { result ≡ parameter_bounds.fresh_bound }
{
    ERROR_BOUND as u128 * PLAIN_MODULUS as u128 + PLAIN_HALF
}

/// The noise that one key switch adds.
#[tactic(auto, unfolding(co_math::specs::Bounds::switch_bound))]
pub fn switch_bound(degree: u32) -> u128
    requires { IsTrue (is_degree degree) }
    ensures value { result ≡ parameter_bounds.switch_bound degree }
    ensures small { result < 2 ^ 52 }
{
    let digits = PLAIN_MODULUS as u128 * DIGIT_COUNT as u128 * degree as u128;
    digits * (DIGIT_BASE as u128 - 1) * ERROR_BOUND as u128
}

/// The noise of a score reply.
#[tactic(auto, unfolding(crate::specs::Bounds::score_bound))]
pub fn score_bound(shape: &Shape) -> u128
    ensures value { result ≡ bounds.score_bound shape.now }
    ensures small { result < 2 ^ 112 }
{
    let degree = shape.degree();
    let turns = log2_up(degree / 2);
    let noise = fresh_bound() + turns as u128 * switch_bound(degree);
    shape.keyword_blocks() as u128 * (degree / 2) as u128 * degree as u128 * PLAIN_HALF * noise
}

/// The noise of a retrieval's reply.
#[tactic(auto, unfolding(crate::specs::Bounds::retrieve_bound))]
pub fn retrieve_bound(degree: u32, rows: u32) -> u128
    requires degree { IsTrue (is_degree degree) }
    requires rows { IsTrue (is_within 1 most_rows rows) }
    ensures value { result ≡ bounds.retrieve_bound degree rows }
    ensures small { result < 2 ^ 112 }
{
    let leaves = 1u128 << log2_up(rows);
    let noise = leaves * fresh_bound() + (leaves - 1) * switch_bound(degree);
    rows as u128 * degree as u128 * PLAIN_HALF * noise
}
