//! Facts on packings and records. Each function returns nothing: its contract is the fact.

ghost use Rattle.std.specs.Prelude.{◌≡◌, ◌≢◌, ◌+◌, ◌<◌, ◌≤◌, ◌⊎◌, ℕ, List, Ok, length};
ghost use Rattle.co_pack.specs.declared.packing.Place.{Place};
ghost use Rattle.co_pack.specs.declared.records.Record.{Record};
ghost use Rattle.co_pack.specs.Packing.{place_at, IsPacked};
ghost use Rattle.co_pack.specs.Records.{record_bytes, record_of, IsRecord};

/// Each place of a packing lies in its bin, and those of one bin lie apart. There are no more bins
/// than documents.
pub fn places_lie_in_bins()
    ensures bin { (lengths : List ℕ) (size : ℕ) (places : List Place) (bins : ℕ)
        → IsPacked lengths size places bins → (i : ℕ) → i < length lengths
        → (place_at places i).bin < bins }
    ensures inside { (lengths : List ℕ) (size : ℕ) (places : List Place) (bins : ℕ)
        → IsPacked lengths size places bins → (i : ℕ) → i < length lengths
        → (place_at places i).offset + (place_at places i).length ≤ size }
    ensures apart { (lengths : List ℕ) (size : ℕ) (places : List Place) (bins : ℕ)
        → IsPacked lengths size places bins → (i j : ℕ) → i < length lengths → j < length lengths
        → i ≢ j → (place_at places i).bin ≡ (place_at places j).bin
        → ((place_at places i).offset + (place_at places i).length ≤ (place_at places j).offset)
        ⊎ ((place_at places j).offset + (place_at places j).length ≤ (place_at places i).offset) }
    ensures few { (lengths : List ℕ) (size : ℕ) (places : List Place) (bins : ℕ)
        → IsPacked lengths size places bins → bins ≤ length lengths }
{}

/// A record has 256 bytes, and what was written reads back equal.
pub fn written_reads_back()
    ensures long { (r : Record) → IsRecord r
        → length (record_bytes r.document r.place r.title) ≡ 256 }
    ensures same { (r : Record) → IsRecord r
        → record_of (record_bytes r.document r.place r.title) ≡ Ok r }
{}
