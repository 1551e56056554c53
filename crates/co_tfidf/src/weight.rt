//! Weights of terms, in whole numbers.
ghost use Rattle.std.specs.Prelude.{◌≡◌, ◌≤◌, ◌<◌, ◌*◌, ◌^◌, ◌+◌, ℕ};
ghost use Rattle.co_text.specs.declared.limits.TheConstants.{MOST_DOCUMENTS};
ghost use Rattle.co_tfidf.specs.Weight.{bits};

/// The greatest i with 2^i * df^4 <= documents^4: four times the binary logarithm of documents /
/// df, rounded down.
pub fn quarter_bits(documents: u32, df: u32) -> u32
    requires some { 1 ≤ df }
    requires within { df ≤ documents }
    requires many { documents ≤ MOST_DOCUMENTS }
    ensures exact { result ≡ bits documents df }
    ensures reached { 2 ^ result * df ^ 4 ≤ documents ^ 4 }
    ensures greatest { (i : ℕ) → result < i → documents ^ 4 < 2 ^ i * df ^ 4 }
    ensures small { result ≤ 64 }
{
    by_doubling(documents, df)
}

// The same, by doubling df^4 until it passes.
fn by_doubling(documents: u32, df: u32) -> u32
    requires some { 1 ≤ df }
    requires within { df ≤ documents }
    requires many { documents ≤ MOST_DOCUMENTS }
    ensures reached { 2 ^ result * df ^ 4 ≤ documents ^ 4 }
    ensures small { result ≤ 64 }
    ensures greatest { documents ^ 4 < 2 ^ (result + 1) * df ^ 4 }
{
    let d2 = u128::from(documents) * u128::from(documents);
    let whole = d2 * d2;
    let f2 = u128::from(df) * u128::from(df);
    let mut scaled = f2 * f2;
    for bits in 0u32..64 {
        if whole < 2 * scaled {
            return bits;
        }
        scaled *= 2;
    }
    64
}
