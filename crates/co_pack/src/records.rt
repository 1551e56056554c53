//! The 256 bytes of a record: which document, where its text stands, and its title.

ghost use Rattle.std.specs.Prelude.{◌≡◌, ◌+◌, ◌≤◌, ◌<◌, IfSome, Ok, Err, length, take, drop, IfOk, if◌then◌else◌};
ghost use Rattle.std.specs.List.{position};
ghost use Rattle.std.specs.Int.{w32, to_be_bytes};
ghost use Rattle.co_text.specs.declared.limits.TheConstants.{LONGEST_TITLE};
ghost use Rattle.co_pack.specs.Records.{number_at, record_bytes, record_of, is_text, is_set, title_within, IsRecord};
ghost use Rattle.co_pack.specs.RecordFaults.{IsReadAs};

use crate::packing::Place;
use co_text::{LONGEST_TITLE, Title};
use std::alloc::Global;
use thiserror::Error;

/// The bytes of a record.
pub const RECORD_BYTES: usize = 256;

/// Where the length of the title stands in a record.
pub const TITLE_LENGTH_AT: usize = 16;

/// Where the title stands in a record.
pub const TITLE_AT: usize = TITLE_LENGTH_AT + 1;

/// The bytes from there to the end of the record.
pub const TITLE_ROOM: usize = RECORD_BYTES - TITLE_AT;

/// What a record says.
#[derive(Debug, Drop)]
pub struct Record {
    /// The document's number.
    pub document: u32,
    /// Where its text stands in the bins.
    pub place: Place,
    /// Its title.
    pub title: Title,
}

/// Why bytes are not read as a record.
#[derive(Clone, Copy, Debug, PartialEq, Eq, Error)]
pub enum RecordFault {
    /// The first fault, at this offset: 16 where the title's length is above 200, 17 where the
    /// title's bytes are no title, else the first byte behind the title that is not zero.
    #[error("no record at {place}")]
    BadRecord { place: u32 },
    #[error("out of memory")]
    OutOfMemory,
}

/// Writes the bytes of a record: document, bin, offset and length, four bytes each, the highest
/// first; the length of the title, the title, and zeros to the end.
#[tactic(auto, unfolding(crate::specs::Records::record_bytes, crate::specs::Records::title_bytes))]
pub fn write_record(document: u32, place: Place, title: &Title, into: &mut [u8])
    requires { length into.old ≡ RECORD_BYTES }
    ensures { into.new ≡ record_bytes document place title.now }
{
    let title = title.as_str();
    let (number, rest) = into.split_at_mut(4);
    number.copy_from_slice(document.to_be_bytes().as_slice());
    let (bin, rest) = rest.split_at_mut(4);
    bin.copy_from_slice(place.bin.to_be_bytes().as_slice());
    let (offset, rest) = rest.split_at_mut(4);
    offset.copy_from_slice(place.offset.to_be_bytes().as_slice());
    let (length, rest) = rest.split_at_mut(4);
    length.copy_from_slice(place.length.to_be_bytes().as_slice());
    let (title_length, rest) = rest.split_at_mut(1);
    title_length[0] = title.len() as u8;
    let (text, zeros) = rest.split_at_mut(title.len());
    text.copy_from_slice(title.as_bytes());
    zeros.fill(0);
}

/// Reads a record. It accepts exactly the bytes that `write_record` writes, and gives back what was
/// written.
pub fn read_record(alloc: Global, bytes: &[u8]) -> Result<Record, RecordFault>
    requires { length bytes.now ≡ RECORD_BYTES }
    ensures found { IfOk result (λ r. IsRecord r
        × (bytes.now ≡ record_bytes r.document r.place r.title)) }
    ensures only { (r : Record) → IsRecord r → bytes.now ≡ record_bytes r.document r.place r.title
        → IsReadAs result (Ok r) }
    ensures exact { IsReadAs result (record_of bytes.now) }
{
    let title = title_in(alloc, bytes)?;
    let place = Place {
        bin: number_at(bytes, 4),
        offset: number_at(bytes, 8),
        length: number_at(bytes, 12),
    };
    Ok(Record {
        document: number_at(bytes, 0),
        place,
        title,
    })
}

/// The number that the four bytes at a place spell, the highest first.
fn number_at(bytes: &[u8], at: usize) -> u32
    requires { at + 4 ≤ length bytes.now }
    ensures value { result ≡ number_at at bytes.now }
    ensures spelled { to_be_bytes w32 result ≡ take 4 (drop at bytes.now) }
{
    let mut four = [0; 4];
    four.copy_from_slice(&bytes[at..at + 4]);
    u32::from_be_bytes(four)
}

/// The title in the bytes of a record.
#[tactic(auto, unfolding(crate::specs::Records::title_within))]
fn title_in(alloc: Global, bytes: &[u8]) -> Result<Title, RecordFault>
    requires { length bytes.now ≡ RECORD_BYTES }
    ensures { IsReadAs result (title_within bytes.now) }
{
    let size = bytes[TITLE_LENGTH_AT] as usize;
    if size > LONGEST_TITLE {
        return Err(RecordFault::BadRecord {
            place: TITLE_LENGTH_AT as u32,
        });
    }
    let (_, tail) = bytes.split_at(TITLE_AT);
    let (text, behind) = tail.split_at(size);
    let title = title_from(alloc, text)?;
    match first_set(behind) {
        Some(at) => Err(RecordFault::BadRecord {
            place: (TITLE_AT + size + at) as u32,
        }),
        None => Ok(title),
    }
}

/// Bytes as a title.
fn title_from(alloc: Global, bytes: &[u8]) -> Result<Title, RecordFault>
    requires { length bytes.now ≤ LONGEST_TITLE }
    ensures { IsReadAs result (if is_text bytes.now then Ok bytes.now else Err TITLE_AT) }
{
    let Ok(text) = str::from_utf8(bytes) else {
        return Err(RecordFault::BadRecord {
            place: TITLE_AT as u32,
        });
    };
    let Ok(text) = String::from_str(alloc, text) else {
        return Err(RecordFault::OutOfMemory);
    };
    match Title::from_text(text) {
        Some(title) => Ok(title),
        None => Err(RecordFault::BadRecord {
            place: TITLE_AT as u32,
        }),
    }
}

/// The first byte that is not zero.
fn first_set(bytes: &[u8]) -> Option<usize>
    ensures value { result ≡ position is_set bytes.now }
    ensures within { IfSome result (λ at. at < length bytes.now) }
{
    bytes.iter().position(|byte| *byte != 0)
}
