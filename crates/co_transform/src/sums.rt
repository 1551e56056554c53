//! Sums of products in 128 bits, and their residues.

ghost use Rattle.std.specs.Prelude.{◌≡◌, ◌+◌, ◌-◌, ◌*◌, ◌<◌, ◌≤◌, ◌%◌, ◌^◌, [], ◌∷◌, length};
ghost use Rattle.co_transform.specs.Trees.{AreWithin, HaveResidues};
ghost use Rattle.co_transform.specs.Gathered.{Gathered, GatheredAll, IsReducer};

use crate::products::mul_shoup;
use crate::tables::{TWO_TO_64, quotient};

/// What takes any number of 128 bits modulo q by products alone.
#[derive(Clone, Copy)]
pub struct Reducer {
    /// The modulus.
    pub q: u64,
    /// floor(2^64/q).
    pub one: u64,
    /// 2^64 modulo q.
    pub fold: u64,
    /// floor(fold*2^64/q).
    pub quotient: u64,
}

/// What reduces modulo q. It divides three times.
pub fn reducer_of(q: u64) -> Reducer
    requires modulus { 1 < q }
    requires room { q < 2 ^ 62 }
    ensures modulus { result.q ≡ q }
    ensures reducer { IsReducer result }
{
    let fold = (TWO_TO_64 % q as u128) as u64;
    Reducer {
        q,
        one: quotient(1, q),
        fold,
        quotient: quotient(fold, q),
    }
}

/// x, less m where it is at least m.
#[inline]
pub fn less(x: u64, m: u64) -> u64
    ensures below { x < m → result ≡ x }
    ensures above { m ≤ x → result ≡ x - m }
{
    x.min(x.wrapping_sub(m))
}

/// A number below 4q modulo q.
#[inline]
pub fn below_four(x: u64, q: u64) -> u64
    requires below { x < 4 * q }
    requires room { q < 2 ^ 62 }
    ensures { result ≡ x % q }
{
    less(less(x, 2 * q), q)
}

/// x modulo q.
#[inline]
pub fn reduce_wide(x: u128, by: Reducer) -> u64
    requires { IsReducer by }
    ensures { result ≡ x % by.q }
{
    let high = mul_shoup((x >> 64) as u64, by.fold, by.quotient, by.q);
    let low = mul_shoup((x % TWO_TO_64) as u64, 1, by.one, by.q);
    below_four(high + low, by.q)
}

/// The sums modulo q.
pub fn reduce_sums(sums: &[u128], by: Reducer, into: &mut [u64])
    requires one_length { length into.old ≡ length sums.now }
    requires by { IsReducer by }
    ensures { HaveResidues by.q sums.now into.new }
{
    for i in 0..into.len() {
        into[i] = reduce_wide(sums[i], by);
    }
}

/// Makes all sums 0.
pub fn clear(sums: &mut [u128])
    ensures len { length sums.new ≡ length sums.old }
    ensures zeros { AreWithin 0 sums.new }
{
    for i in 0..sums.len() {
        sums[i] = 0;
    }
}

/// Adds the products of two lists, place by place, to sums that are not reduced.
/// `count` says how many products each sum has so far; 2^25 have room.
pub fn gather(sums: &mut [u128], a: &[u64], b: &[u64], count: u64, q: u64)
    requires first { length a.now ≡ length sums.old }
    requires second { length b.now ≡ length sums.old }
    requires modulus { q < 2 ^ 51 }
    requires a_below { AreWithin q a.now }
    requires b_below { AreWithin q b.now }
    requires within { AreWithin (count * (q * q)) sums.old }
    requires room { count < 2 ^ 25 }
    ensures within_after { AreWithin ((count + 1) * (q * q)) sums.new }
    ensures sums { Gathered sums.old a.now b.now (length sums.old) sums.new }
{
    for i in 0..sums.len() {
        sums[i] += a[i] as u128 * b[i] as u128;
    }
}

/// The same of three products in one pass, so that the sums are read and written once.
#[inline]
pub fn gather_three(
    sums: &mut [u128],
    a: &[u64],
    b: &[u64],
    c: &[u64],
    d: &[u64],
    e: &[u64],
    f: &[u64],
    count: u64,
    q: u64,
)
    requires a_length { length a.now ≡ length sums.old }
    requires b_length { length b.now ≡ length sums.old }
    requires c_length { length c.now ≡ length sums.old }
    requires d_length { length d.now ≡ length sums.old }
    requires e_length { length e.now ≡ length sums.old }
    requires f_length { length f.now ≡ length sums.old }
    requires modulus { q < 2 ^ 51 }
    requires a_below { AreWithin q a.now }
    requires b_below { AreWithin q b.now }
    requires c_below { AreWithin q c.now }
    requires d_below { AreWithin q d.now }
    requires e_below { AreWithin q e.now }
    requires f_below { AreWithin q f.now }
    requires within { AreWithin (count * (q * q)) sums.old }
    requires room { count + 3 ≤ 2 ^ 25 }
    ensures within_after { AreWithin ((count + 3) * (q * q)) sums.new }
    ensures sums { GatheredAll sums.old ((a.now, b.now) ∷ (c.now, d.now) ∷ (e.now, f.now) ∷ [])
        (length sums.old) sums.new }
{
    for i in 0..sums.len() {
        let first = a[i] as u128 * b[i] as u128 + c[i] as u128 * d[i] as u128;
        sums[i] += first + e[i] as u128 * f[i] as u128;
    }
}
