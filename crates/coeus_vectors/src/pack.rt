//! Bins and records.

ghost use Rattle.std.specs.Prelude.{◌≤◌, IsTrue};
ghost use Rattle.std.specs.List.{All};

use crate::cases::{BadCase, Case};
use crate::lines::{put, put_bytes, put_numbers, put_text};
use co_pack::{
    MOST_BIN_BYTES, MOST_DEGREE, Place, RECORD_BYTES, RecordFault, bin_size, pack_bins,
    read_record, write_record,
};
use co_text::{MOST_DOCUMENTS, Title};
use std::alloc::Global;

/// The line of a case, behind the name of its call.
pub fn line(case: Case) -> Result<String, BadCase> {
    let mut line = String::new(case.alloc);
    match case.call() {
        "size" => put_size(&mut line, case)?,
        "pack" => put_packing(&mut line, case)?,
        "many" => put_many(&mut line, case)?,
        "write" => put_record(&mut line, case)?,
        "read" => put_read(&mut line, case)?,
        _ => return Err(BadCase::Unfit),
    }
    Ok(line)
}

fn put_size(line: &mut String, case: Case) -> Result<(), BadCase> {
    let longest = case.number("longest");
    let (degree, chunks) = (case.number("degree"), case.number("chunks"));
    if longest > MOST_BIN_BYTES || degree == 0 || degree > MOST_DEGREE || chunks == 0 {
        return Err(BadCase::Unfit);
    }
    if chunks as u64 * (2 * degree as u64) > MOST_BIN_BYTES as u64 {
        return Err(BadCase::Unfit);
    }
    put(line, bin_size(longest, degree, chunks) as u128)?;
    Ok(())
}

fn are_within(lengths: &[u32], size: u32) -> bool
    ensures { IsTrue result → All (λ l. l ≤ size) lengths.now }
{
    lengths.iter().all(|length| *length <= size)
}

/// How many bins there are, and where each document stands.
fn put_packing(line: &mut String, case: Case) -> Result<(), BadCase> {
    let lengths = case.numbers("lengths")?;
    put_places(case.alloc, line, &lengths, case.number("size"), true)
}

/// How many bins so many documents of one length need.
fn put_many(line: &mut String, case: Case) -> Result<(), BadCase> {
    let lengths = vec![in case.alloc; case.number("length"); case.number("documents") as usize]?;
    put_places(case.alloc, line, &lengths, case.number("size"), false)
}

fn put_places(
    alloc: Global,
    line: &mut String,
    lengths: &[u32],
    size: u32,
    all: bool,
) -> Result<(), BadCase> {
    if lengths.is_empty() || lengths.len() > MOST_DOCUMENTS || !are_within(lengths, size) {
        return Err(BadCase::Unfit);
    }
    let (places, bins) = pack_bins(alloc, lengths, size)?;
    put(line, bins as u128)?;
    if all {
        for place in places.as_slice() {
            put_numbers(line, &[place.bin, place.offset])?;
        }
    }
    Ok(())
}

/// The bytes of a record, and what they are read as.
fn put_record(line: &mut String, case: Case) -> Result<(), BadCase> {
    let place = Place {
        bin: case.number("bin"),
        offset: case.number("offset"),
        length: case.number("length"),
    };
    let Some(title) = Title::from_text(String::from_str(case.alloc, case.text("title"))?) else {
        return Err(BadCase::Unfit);
    };
    let mut written = [1; RECORD_BYTES];
    write_record(case.number("document"), place, &title, &mut written);
    put_bytes(case.alloc, line, &written)?;
    put_reading(case.alloc, line, &written)
}

fn put_read(line: &mut String, case: Case) -> Result<(), BadCase> {
    put_reading(case.alloc, line, &case.bytes("bytes")?)
}

/// What the bytes of a record say, or the place of the first fault.
fn put_reading(alloc: Global, line: &mut String, bytes: &[u8]) -> Result<(), BadCase> {
    if bytes.len() != RECORD_BYTES {
        return Err(BadCase::Unfit);
    }
    match read_record(alloc, bytes) {
        Ok(record) => {
            let place = record.place;
            put_numbers(
                line,
                &[record.document, place.bin, place.offset, place.length],
            )?;
            put_text(line, record.title.as_str())?;
        }
        Err(RecordFault::BadRecord { place }) => {
            put_text(line, "bad at")?;
            put(line, place as u128)?;
        }
        Err(RecordFault::OutOfMemory) => return Err(BadCase::OutOfMemory),
    }
    Ok(())
}
