//! Laws of retrieval replies. Each function returns nothing: its contract is the law.

ghost use Rattle.std.specs.Prelude.{ℕ, ℤ};
ghost use Rattle.co_noise.specs.Bounds.{retrieve_bound};
ghost use Rattle.co_bfv.specs.Ciphertexts.{Ciphertext};
ghost use Rattle.co_switch.specs.Keys.{Keys};
ghost use Rattle.co_pir.specs.Tables.{Table, row_bytes};
ghost use Rattle.co_pir.specs.Meanings.{AsksRow, CanRetrieve, MeansBytes};
ghost use Rattle.co_pir.specs.Replies.{retrieved};

/// The reply to a query means the bytes of the row that is asked, under every secret for which the
/// expansion keys are good.
pub fn replies_mean_rows()
    ensures { (t : Table) (keys : Keys) (query : Ciphertext) → CanRetrieve t keys query
        → (s : ℤ → ℤ) (row : ℕ) → AsksRow s keys query t.rows row
        → MeansBytes t.degree s (retrieved t keys query) (row_bytes t row)
        (retrieve_bound t.degree t.rows) }
{}
