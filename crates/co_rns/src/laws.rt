//! Facts of digits and of residues. Each function returns nothing: its contract is the fact.

ghost use Rattle.std.specs.Prelude.{◌≡◌, ◌*◌, ◌/◌, ◌%◌, ◌<◌, ◌^◌, ℕ, List, pos};
ghost use Rattle.co_math.specs.Parameters.{digit_base, digit_count, first_modulus, q};
ghost use Rattle.co_math.specs.Parameters.{second_modulus};
ghost use Rattle.co_math.specs.Sums.{total};
ghost use Rattle.co_math.specs.Coefficients.{AreBelow};
ghost use Rattle.co_rns.specs.Residue_pairs.{AreResiduesOf};

use crate::decompositions::Decomposition;
use crate::pairs::Pair;
use crate::spectra::{PairSpectrum, Tables};
use crate::sums::PairSum;

/// The digits of a number below q, times the powers of the base, have the number as their sum.
pub fn digits()
    ensures { (x : ℕ) → x < q
        → total digit_count (λ j. pos (x / digit_base ^ j % digit_base * digit_base ^ j)) ≡ pos x }
{}

/// Residues modulo q1 and q2 are those of one polynomial modulo q.
pub fn residues()
    ensures { (cs ds xs ys : List ℕ) → AreBelow q cs → AreBelow q ds
        → AreResiduesOf first_modulus cs xs → AreResiduesOf second_modulus cs ys
        → AreResiduesOf first_modulus ds xs → AreResiduesOf second_modulus ds ys → cs ≡ ds }
{}

/// Polynomials modulo q, tables, values, sums and decompositions may be handed to other threads,
/// and shared.
pub fn threads(
    pair: &Pair,
    tables: &Tables,
    values: &PairSpectrum,
    sum: &PairSum,
    digits: &Decomposition,
) {
    crosses(pair);
    crosses(tables);
    crosses(values);
    crosses(sum);
    crosses(digits);
}

fn crosses<T: Send + Sync>(_value: &T) {}
