//! Buckets, candidates, lists and placements.

ghost use Rattle.std.specs.Prelude.{◌<◌, IsTrue};
ghost use Rattle.std.specs.List.{All};

use crate::cases::{BadCase, Case};
use crate::lines::{put, put_numbers, put_text};
use co_bucket::{
    MOST_ITEMS, PlaceFault, bucket_lists, buckets, candidates, place, record_rows, rows_needed,
};
use std::alloc::AllocError;

/// The line of a case, behind the name of its call.
pub fn line(case: Case) -> Result<String, BadCase> {
    let mut line = String::new(case.alloc);
    match case.call() {
        "buckets" => put_buckets(&mut line, case)?,
        "candidates" => put_candidates(&mut line, case)?,
        "lengths" => put_lists(&mut line, case, false)?,
        "lists" => put_lists(&mut line, case, true)?,
        "place" => put_placement(&mut line, case)?,
        _ => return Err(BadCase::Unfit),
    }
    Ok(line)
}

fn put_buckets(line: &mut String, case: Case) -> Result<(), BadCase> {
    for hits in case.numbers("hits")?.iter() {
        if *hits == 0 || *hits as usize > MOST_ITEMS {
            return Err(BadCase::Unfit);
        }
        put(line, buckets(*hits) as u128)?;
    }
    Ok(())
}

fn put_candidates(line: &mut String, case: Case) -> Result<(), BadCase> {
    let buckets = case.number("buckets");
    if buckets == 0 {
        return Err(BadCase::Unfit);
    }
    let found = candidates(case.number("salt"), buckets, case.number("document"));
    put_numbers(line, &found)?;
    Ok(())
}

/// The rows of records that are needed, by both calls, and the lists, or their lengths.
fn put_lists(line: &mut String, case: Case, whole: bool) -> Result<(), BadCase> {
    let hits = case.number("hits");
    if hits == 0 || hits as usize > MOST_ITEMS {
        return Err(BadCase::Unfit);
    }
    let (degree, salt) = (case.number("degree"), case.number("salt"));
    let documents = case.number("documents");
    let count = buckets(hits);
    let lists = bucket_lists(case.alloc, salt, count, documents)?;
    put(line, record_rows(&lists, degree) as u128)?;
    put(line, rows_needed(degree, documents, hits, salt) as u128)?;
    for bucket in 0..count {
        let list = lists.list(bucket);
        put_text(line, ":")?;
        if whole {
            put_numbers(line, list)?;
        } else {
            put(line, list.len() as u128)?;
        }
    }
    Ok(())
}

/// The candidates that a field lists, three numbers an item.
fn rows(case: Case) -> Result<Vec<[u32; 3]>, AllocError> {
    let numbers = case.numbers("candidates")?;
    let mut all = Vec::new(case.alloc);
    for row in numbers.chunks_exact(3) {
        if let [first, second, third] = row {
            all.push([*first, *second, *third])?;
        }
    }
    Ok(all)
}

fn are_below(rows: &[[u32; 3]], buckets: u32) -> bool
    ensures { IsTrue result → All (All (λ b. b < buckets)) rows.now }
{
    rows.iter().all(|row| row.iter().all(|b| *b < buckets))
}

/// The position of the item of each bucket, or the witness that there is no placement.
fn put_placement(line: &mut String, case: Case) -> Result<(), BadCase> {
    let rows = rows(case)?;
    let buckets = case.number("buckets");
    if rows.len() > MOST_ITEMS || !are_below(&rows, buckets) {
        return Err(BadCase::Unfit);
    }
    match place(case.alloc, &rows, buckets) {
        Ok(placement) => Ok(put_placed(line, placement.as_slice())?),
        Err(fault) => put_witness(line, &fault),
    }
}

fn put_witness(line: &mut String, fault: &PlaceFault) -> Result<(), BadCase> {
    let PlaceFault::NoPlacement { items, buckets } = fault else {
        return Err(BadCase::OutOfMemory);
    };
    put_text(line, "items")?;
    put_numbers(line, items.as_slice())?;
    put_text(line, "buckets")?;
    put_numbers(line, buckets.as_slice())?;
    Ok(())
}

fn put_placed(line: &mut String, placed: &[Option<u32>]) -> Result<(), AllocError> {
    for item in placed {
        match item {
            Some(position) => put(line, *position as u128)?,
            None => put_text(line, "-")?,
        }
    }
    Ok(())
}
