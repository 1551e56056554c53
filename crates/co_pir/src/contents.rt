//! The bytes of the rows that a server holds.

ghost use Rattle.std.specs.Prelude.{◌≡◌, ◌+◌, ◌<◌, ◌≤◌, ◌*◌, ◌^◌, length, IfOk};
ghost use Rattle.co_math.specs.Coefficients.{AreBelow};
ghost use Rattle.co_ring.specs.declared.moduli.Modulus.TheVariants.{Plain};
ghost use Rattle.co_pir.specs.Tables as tables;
ghost use Rattle.co_pir.specs.Units.{unit_count};
ghost use Rattle.co_pir.specs.Units as units;
ghost use Rattle.co_pir.specs.Tables.{IsTable, chunk_bytes, most_row_chunks, payload_at};

use co_link::Bytes;
use co_ring::{Degree, Poly};
use co_slots::encode_bytes;
use std::alloc::{AllocError, Global};
use std::marker::Model;

/// The most chunks of a row.
pub const MOST_ROW_CHUNKS: u32 = 2_097_152;

/// How many rows a unit of work has.
pub(crate) const UNIT_ROWS: u32 = 64;

/// Rows of equal length, one after another. Each row is cut into chunks of two bytes a coefficient.
#[derive(Drop)]
pub(crate) struct Contents {
    degree: Degree,
    rows: u32,
    chunks: u32,
    bytes: Bytes,
}

impl Model for Contents {
    ghost use Rattle.std.specs.Prelude.{◌≤◌};
    ghost use Rattle.co_pir.specs.Tables.{Table, IsTable, most_row_chunks};

    ghost Value = { Table };

    ghost view = { λ t. record {
      degree = t.degree;
      rows = t.rows;
      chunks = t.chunks;
      bytes = t.bytes;
    } };

    ghost invariant = { λ t. IsTable (record {
      degree = t.degree;
      rows = t.rows;
      chunks = t.chunks;
      bytes = t.bytes;
    }) × (t.chunks ≤ most_row_chunks) };
}

impl Contents {
    /// The table of these bytes, row by row.
    pub(crate) fn new(degree: Degree, rows: u32, chunks: u32, bytes: Bytes) -> Contents
        requires some { 1 ≤ rows }
        requires few { rows ≤ degree }
        requires short { chunks ≤ most_row_chunks }
        requires whole { length bytes ≡ rows * (chunks * (2 * degree)) }
        requires below { AreBelow 256 bytes }
        ensures { result ≡ record { degree = degree; rows = rows; chunks = chunks; bytes = bytes } }
    {
        let _n = degree.get();
        Contents {
            degree,
            rows,
            chunks,
            bytes,
        }
    }

    /// The degree of the payload polynomials.
    pub(crate) fn degree(&self) -> Degree
        ensures value { result ≡ self.now.degree }
        ensures table { IsTable self.now }
    {
        self.degree
    }

    /// How many rows there are.
    pub(crate) fn rows(&self) -> u32
        ensures { result ≡ self.now.rows }
    {
        self.rows
    }

    /// How many chunks a row has.
    pub(crate) fn chunks(&self) -> u32
        ensures { result ≡ self.now.chunks }
    {
        self.chunks
    }

    /// How many units of work an answer has: for each chunk one for each 64 rows, the last with
    /// fewer.
    pub(crate) fn units(&self) -> u64
        ensures value { result ≡ unit_count self.now }
        ensures few { result ≤ 2 ^ 32 }
    {
        let _n = self.degree.get();
        self.chunks as u64 * self.pieces() as u64
    }

    /// How many units of work a chunk has.
    pub(crate) fn pieces(&self) -> u32
        ensures value { result ≡ units.pieces self.now }
        ensures some { 0 < result }
        ensures few { result ≤ 64 }
    {
        let _n = self.degree.get();
        self.rows.div_ceil(UNIT_ROWS)
    }

    fn bytes(&self) -> &[u8]
        ensures { result.now ≡ self.now.bytes }
    {
        self.bytes.as_slice()
    }

    /// The payload polynomial of a chunk of a row.
    pub(crate) fn payload(&self, alloc: Global, row: u32, chunk: u32) -> Result<Poly, AllocError>
        requires row { row < self.now.rows }
        requires chunk { chunk < self.now.chunks }
        ensures { IfOk result (λ p. p ≡ record {
          modulus = Plain;
          coeffs = payload_at self.now row chunk;
        }) }
    {
        let bytes = self.chunk(row, chunk);
        let payload = encode_bytes(alloc, self.degree(), bytes)?;
        Ok(payload)
    }

    fn chunk(&self, row: u32, chunk: u32) -> &[u8]
        requires row { row < self.now.rows }
        requires chunk { chunk < self.now.chunks }
        ensures value { result.now ≡ chunk_bytes self.now row chunk }
        ensures size { length result.now ≡ 2 * self.now.degree }
    {
        let size = 2 * self.degree().get() as usize;
        let bytes = piece(self.bytes(), self.chunks() as usize * size, row as usize);
        piece(bytes, size, chunk as usize)
    }
}

/// The piece at a place, of so many bytes.
fn piece(bytes: &[u8], size: usize, place: usize) -> &[u8]
    requires some { 0 < size }
    requires in_range { place * size + size ≤ length bytes.now }
    ensures value { result.now ≡ tables.piece size place bytes.now }
    ensures len { length result.now ≡ size }
{
    let start = place * size;
    &bytes[start..start + size]
}
