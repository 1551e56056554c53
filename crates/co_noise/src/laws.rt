//! Facts of numbers. Each function returns nothing: its contract is the fact.

ghost use Rattle.std.specs.Prelude.{◌≡◌};
ghost use Rattle.co_noise.specs.Limits.{most_documents, most_terms, most_hits, most_rows, most_bins, most_chunks, most_bin};

/// The greatest published numbers, in numerals.
pub fn limits()
    ensures documents { most_documents ≡ 65536 }
    ensures terms { most_terms ≡ 131072 }
    ensures hits { most_hits ≡ 64 }
    ensures rows { most_rows ≡ 65536 }
    ensures bins { most_bins ≡ 65536 }
    ensures chunks { most_chunks ≡ 131072 }
    ensures bin { most_bin ≡ 4194304 }
{}
