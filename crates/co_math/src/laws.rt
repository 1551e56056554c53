//! Facts of numbers. Each function returns nothing: its contract is the fact.

ghost use Rattle.std.specs.Prelude.{◌≡◌, ◌+◌, ◌-◌, ◌*◌, ◌/◌, ◌%◌, ◌<◌, ◌≤◌, ◌^◌, ◌-ℤ◌, ℕ, ℤ, pos, List};
ghost use Rattle.co_math.specs.Parameters.{first_modulus, second_modulus, q, plain_modulus, inverse_of_first};
ghost use Rattle.co_math.specs.Parameters.{digit_bits, digit_base, digit_count, error_bound, fresh_bound};
ghost use Rattle.co_math.specs.Parameters.{least_exponent, most_exponent, least_degree, most_degree};
ghost use Rattle.co_math.specs.Residues.{residue};
ghost use Rattle.co_math.specs.Sums.{total};
ghost use Rattle.co_math.specs.Powers.{power, doublings, IsOneAndOdd};
ghost use Rattle.co_math.specs.Polynomials.{IsWrapped, product as product_of, convolution};
ghost use Rattle.co_math.specs.Digits.{digits_of, AreDigitsOf};
ghost use Rattle.co_math.specs.Logarithms.{log2_up, IsLogarithm};

/// The numbers of the scheme, in numerals.
pub fn numbers()
    ensures first { (first_modulus ≡ 35 * 2 ^ 45 + 1) × (first_modulus ≡ 1231453023109121) }
    ensures second { (second_modulus ≡ 19 * 2 ^ 46 + 1) × (second_modulus ≡ 1337006139375617) }
    ensures cipher { (q ≡ first_modulus * second_modulus) × (q ≡ 1646460252249558334074997702657) }
    ensures inverse { (first_modulus * inverse_of_first % second_modulus ≡ 1)
        × (inverse_of_first ≡ 891337426250424) }
    ensures plain { plain_modulus ≡ 2 ^ 16 + 1 }
    ensures base { (digit_bits ≡ 17) × (digit_base ≡ 2 ^ 17) }
    ensures count { (digit_count ≡ 6) × (q ≤ digit_base ^ digit_count) }
    ensures error { error_bound ≡ 21 }
    ensures fresh { fresh_bound ≡ 1409045 }
    ensures exponents { (least_exponent ≡ 4) × (most_exponent ≡ 12) }
    ensures degrees { (least_degree ≡ 16) × (most_degree ≡ 4096) }
{}

/// The product of polynomials modulo X^n + 1 as textbooks state it: coefficient k is the sum of
/// a_i * b_j over i + j = k, minus that over i + j = k + n.
pub fn product()
    ensures { (n : ℕ) (a b : ℤ → ℤ) (k : ℕ) → IsWrapped n b → k < n
        → product_of n a b (pos k) ≡ convolution n a b k -ℤ convolution n a b (k + n) }
{}

/// A number below q has six digits, and no other list of digits has it as its sum.
pub fn digits()
    ensures are { (x : ℕ) → x < q → AreDigitsOf x (digits_of x) }
    ensures only { (x : ℕ) (ds : List ℕ) → AreDigitsOf x ds → ds ≡ digits_of x }
{}

/// Each number has one logarithm to base 2, rounded up.
pub fn logarithms()
    ensures is { (n : ℕ) → IsLogarithm n (log2_up n) }
    ensures only { (n l : ℕ) → IsLogarithm n l → l ≡ log2_up n }
{}

/// 3 to the power (m - 1) / 2 is -1 modulo each of the moduli.
pub fn halves()
    ensures first { residue first_modulus (power (pos 3) ((first_modulus - 1) / 2))
        ≡ first_modulus - 1 }
    ensures second { residue second_modulus (power (pos 3) ((second_modulus - 1) / 2))
        ≡ second_modulus - 1 }
    ensures plain { residue plain_modulus (power (pos 3) 32768) ≡ plain_modulus - 1 }
{}

/// The sum of the powers of r below 2^l is the product of 1 + r^(2^b) over b below l.
pub fn sums()
    ensures { (r : ℤ) (l : ℕ) → total (2 ^ l) (power r) ≡ doublings r l }
{}

/// For b at least 1, 3 to the power 2^b is 1 plus an odd multiple of 2^(b + 2).
pub fn threes()
    ensures { (b : ℕ) → 1 ≤ b → IsOneAndOdd (2 ^ (b + 2)) (power (pos 3) (2 ^ b)) }
{}
