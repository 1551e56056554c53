//! Degrees and logarithms of counts.

ghost use Rattle.std.specs.Prelude.{◌≡◌, ◌↔◌, ◌≤◌, ◌^◌, IsTrue};
ghost use Rattle.co_math.specs.Degrees.{IsDegree};
ghost use Rattle.co_math.specs.Degrees as degrees;
ghost use Rattle.co_math.specs.Logarithms.{IsLogarithm};
ghost use Rattle.co_math.specs.Logarithms as logarithms;

/// Whether a polynomial may have so many coefficients: a power of two from 16 to 4096.
pub fn is_degree(n: u32) -> bool
    ensures value { result ≡ degrees.is_degree n }
    ensures exact { IsTrue result ↔ IsDegree n }
{
    matches!(n, 16 | 32 | 64 | 128 | 256 | 512 | 1024 | 2048 | 4096)
}

/// The logarithm to base 2, rounded up: the least `l` with `n <= 2^l`.
pub fn log2_up(n: u32) -> u32
    ensures value { result ≡ logarithms.log2_up n }
    ensures least { IsLogarithm n result }
    ensures within { result ≤ 32 }
    ensures few { n ≤ 2 ^ 16 → result ≤ 16 }
{
    for level in 0..32u32 {
        if n <= 1 << level {
            return level;
        }
    }
    32
}
