//! Sums of the products of digits and a key's polynomials, by values.

ghost use Rattle.std.specs.Prelude.{ℕ, ℤ, List, [], ◌∷◌, ◌≡◌, ◌<◌, ◌≤◌, ◌+◌, length, slice_index_or, IfOk};
ghost use Rattle.co_math.specs.Parameters.{digit_count, q};
ghost use Rattle.co_math.specs.Coefficients.{IsDegree, coefficients, residues_of};
ghost use Rattle.co_ring.specs.Product_sums.{most_products};
ghost use Rattle.co_rns.specs.Spectra.{IsNoPairSum, IsPairSumOf, IsPairSumWithAll, IsSpectrumOf, PairValues, spectrum_degree};
ghost use Rattle.co_switch.specs.Keys.{AreOfDegree, AreSpectra, IsDigitRoom};
ghost use Rattle.co_switch.specs.Switches.{digit_polynomial, digit_sum};

use co_math::DIGIT_COUNT;
use co_ring::Degree;
use co_rns::{Decomposition, Pair, PairSpectrum, PairSum, Tables};
use std::alloc::{AllocError, Global};

/// The sums over the digits of a polynomial of the digit times a key's polynomial: for the first
/// polynomials of its pairs, and for the second. Each sum is reduced once.
pub fn digit_sums(
    alloc: Global,
    tables: &Tables,
    poly: &Pair,
    values0: &[PairSpectrum],
    values1: &[PairSpectrum],
) -> Result<(Pair, Pair), AllocError>
    requires one_degree { length poly.now ≡ tables.now }
    requires values0 { AreOfDegree tables.now values0.now }
    requires values1 { AreOfDegree tables.now values1.now }
    ensures first { IfOk result (λ sums. (ks : List (List ℕ)) → AreSpectra tables.now ks values0.now
        → sums.0 ≡ residues_of q tables.now (digit_sum poly.now ks)) }
    ensures second { IfOk result (λ sums. (ks : List (List ℕ))
        → AreSpectra tables.now ks values1.now
        → sums.1 ≡ residues_of q tables.now (digit_sum poly.now ks)) }
    ensures first_degree { IfOk result (λ sums. length sums.0 ≡ tables.now) }
    ensures second_degree { IfOk result (λ sums. length sums.1 ≡ tables.now) }
{
    let _ = poly.degree();
    let mut room = digit_room(alloc, tables.degree())?;
    room.digits.set(poly);
    sums_of_room(alloc, tables, &mut room, values0, values1)
}

/// The sums over the digits in the room.
fn sums_of_room(
    alloc: Global,
    tables: &Tables,
    room: &mut DigitRoom,
    values0: &[PairSpectrum],
    values1: &[PairSpectrum],
) -> Result<(Pair, Pair), AllocError>
    requires degree { IsDegree tables.now }
    requires room { IsDigitRoom tables.now room.old.digits room.old.low room.old.middle
        room.old.high }
    requires values0 { AreOfDegree tables.now values0.now }
    requires values1 { AreOfDegree tables.now values1.now }
    ensures first { IfOk result (λ sums. (ks : List (List ℕ)) → AreSpectra tables.now ks values0.now
        → sums.0 ≡ residues_of q tables.now (digit_sum room.old.digits ks)) }
    ensures second { IfOk result (λ sums. (ks : List (List ℕ))
        → AreSpectra tables.now ks values1.now
        → sums.1 ≡ residues_of q tables.now (digit_sum room.old.digits ks)) }
    ensures first_degree { IfOk result (λ sums. length sums.0 ≡ tables.now) }
    ensures second_degree { IfOk result (λ sums. length sums.1 ≡ tables.now) }
{
    let (mut sum0, mut sum1) = no_sums(alloc, tables.degree())?;
    gather_digits(room, tables, &mut sum0, values0, &mut sum1, values1);
    polynomials(alloc, tables, &sum0, &sum1, &mut room.low)
}

/// The polynomials whose values two sums have. The room is scratch.
fn polynomials(
    alloc: Global,
    tables: &Tables,
    sum0: &PairSum,
    sum1: &PairSum,
    room: &mut PairSpectrum,
) -> Result<(Pair, Pair), AllocError>
    requires sum0_degree { length sum0.now.first ≡ tables.now }
    requires sum1_degree { length sum1.now.first ≡ tables.now }
    requires room_degree { spectrum_degree room.old ≡ tables.now }
    ensures first { IfOk result (λ sums. (f : ℤ → ℤ) → IsPairSumOf tables.now f sum0.now
        → sums.0 ≡ residues_of q tables.now f) }
    ensures second { IfOk result (λ sums. (f : ℤ → ℤ) → IsPairSumOf tables.now f sum1.now
        → sums.1 ≡ residues_of q tables.now f) }
    ensures first_degree { IfOk result (λ sums. length sums.0 ≡ tables.now) }
    ensures second_degree { IfOk result (λ sums. length sums.1 ≡ tables.now) }
{
    let first = sum0.polynomial(alloc, tables, room)?;
    let second = sum1.polynomial(alloc, tables, room)?;
    Ok((first, second))
}

/// The digits of a polynomial, and the values of three of them.
#[derive(Drop)]
struct DigitRoom {
    digits: Decomposition,
    low: PairSpectrum,
    middle: PairSpectrum,
    high: PairSpectrum,
}

/// Room for the digits of a polynomial.
fn digit_room(alloc: Global, degree: Degree) -> Result<DigitRoom, AllocError>
    ensures { IfOk result (λ room. IsDigitRoom degree room.digits room.low room.middle room.high) }
{
    let digits = Decomposition::zero(alloc, degree)?;
    let (low, middle, high) = three_spectra(alloc, degree)?;
    Ok(DigitRoom {
        digits,
        low,
        middle,
        high,
    })
}

/// Room for the values of three polynomials.
fn three_spectra(
    alloc: Global,
    degree: Degree,
) -> Result<(PairSpectrum, PairSpectrum, PairSpectrum), AllocError>
    ensures low { IfOk result (λ room. spectrum_degree room.0 ≡ degree) }
    ensures middle { IfOk result (λ room. spectrum_degree room.1 ≡ degree) }
    ensures high { IfOk result (λ room. spectrum_degree room.2 ≡ degree) }
{
    let low = PairSpectrum::zero(alloc, degree)?;
    let middle = PairSpectrum::zero(alloc, degree)?;
    let high = PairSpectrum::zero(alloc, degree)?;
    Ok((low, middle, high))
}

/// Two sums of no products.
fn no_sums(alloc: Global, degree: Degree) -> Result<(PairSum, PairSum), AllocError>
    ensures first { IfOk result (λ sums. IsNoPairSum degree sums.0) }
    ensures second { IfOk result (λ sums. IsNoPairSum degree sums.1) }
{
    Ok((PairSum::zero(alloc, degree)?, PairSum::zero(alloc, degree)?))
}

/// Adds to two sums that are none yet the products of all digits and a key's polynomials, three a
/// pass.
fn gather_digits(
    room: &mut DigitRoom,
    tables: &Tables,
    sum0: &mut PairSum,
    values0: &[PairSpectrum],
    sum1: &mut PairSum,
    values1: &[PairSpectrum],
)
    requires degree { IsDegree tables.now }
    requires room { IsDigitRoom tables.now room.old.digits room.old.low room.old.middle
        room.old.high }
    requires none0 { IsNoPairSum tables.now sum0.old }
    requires values0 { AreOfDegree tables.now values0.now }
    requires none1 { IsNoPairSum tables.now sum1.old }
    requires values1 { AreOfDegree tables.now values1.now }
    ensures low { spectrum_degree room.new.low ≡ tables.now }
    ensures first_degree { length sum0.new.first ≡ tables.now }
    ensures second_degree { length sum1.new.first ≡ tables.now }
    ensures first { (ks : List (List ℕ)) → AreSpectra tables.now ks values0.now
        → IsPairSumOf tables.now (digit_sum room.old.digits ks) sum0.new }
    ensures second { (ks : List (List ℕ)) → AreSpectra tables.now ks values1.now
        → IsPairSumOf tables.now (digit_sum room.old.digits ks) sum1.new }
{
    for pass in 0..DIGIT_COUNT / 3 {
        let index = 3 * pass;
        digit_values(room, tables, index);
        add_three(sum0, room, values0, index as usize);
        add_three(sum1, room, values1, index as usize);
    }
}

/// The values of the polynomials of three digits, from a place on.
fn digit_values(room: &mut DigitRoom, tables: &Tables, index: u32)
    requires place { index + 2 < digit_count }
    requires room { IsDigitRoom tables.now room.old.digits room.old.low room.old.middle
        room.old.high }
    ensures same { room.new.digits ≡ room.old.digits }
    ensures low { IsSpectrumOf tables.now
        (coefficients (digit_polynomial index room.old.digits)) room.new.low }
    ensures middle { IsSpectrumOf tables.now
        (coefficients (digit_polynomial (index + 1) room.old.digits)) room.new.middle }
    ensures high { IsSpectrumOf tables.now
        (coefficients (digit_polynomial (index + 2) room.old.digits)) room.new.high }
{
    room.digits.to_spectrum(tables, index, &mut room.low);
    room.digits.to_spectrum(tables, index + 1, &mut room.middle);
    room.digits.to_spectrum(tables, index + 2, &mut room.high);
}

/// Adds the products of three digits and a key's polynomials, from a place on.
fn add_three(sum: &mut PairSum, room: &DigitRoom, keys: &[PairSpectrum], at: usize)
    requires keys { AreOfDegree (length sum.old.first) keys.now }
    requires low_degree { spectrum_degree room.now.low ≡ length sum.old.first }
    requires middle_degree { spectrum_degree room.now.middle ≡ length sum.old.first }
    requires high_degree { spectrum_degree room.now.high ≡ length sum.old.first }
    requires place { at + 2 < digit_count }
    requires room { sum.old.count + 3 ≤ most_products }
    ensures { (d : PairValues) → IsPairSumWithAll sum.old
        ((room.now.low, slice_index_or keys.now at d)
        ∷ (room.now.middle, slice_index_or keys.now (at + 1) d)
        ∷ (room.now.high, slice_index_or keys.now (at + 2) d) ∷ []) sum.new }
{
    sum.add_three(
        &room.low,
        &keys[at],
        &room.middle,
        &keys[at + 1],
        &room.high,
        &keys[at + 2],
    );
}
