//! What replies are computed from: the weights, the records of the buckets and the bins.

ghost use Rattle.std.specs.Prelude.{◌≡◌, ◌<◌, ◌-◌, ◌*◌, ◌^◌, ◌++◌, length, map, replicate, All, IfOk, OnOk};
ghost use Rattle.std.specs.List.{range_with_len};
ghost use Rattle.co_bucket.specs.Lists.{bucket_count, lists_of};
ghost use Rattle.co_bucket.specs.Bytes as layouts;
ghost use Rattle.co_bucket.specs.Bytes.{bucket_bytes};
ghost use Rattle.co_rounds.specs.Serving as serving;
ghost use Rattle.co_rounds.specs.Serving.{record_at, bucket_table, bin_table};

use co_bucket::{Lists, bucket_lists, buckets};
use co_library::Library;
use co_matvec::Weights;
use co_noise::Tested;
use co_pack::RECORD_BYTES;
use co_pir::Rows;
use co_ring::Degree;
use co_wire::record_chunks;
use std::alloc::{AllocError, Global};

/// The weights of a library.
pub(crate) fn weights_of(alloc: Global, library: &Library) -> Result<Weights, AllocError>
    ensures { IfOk result (λ w. w ≡ serving.weights_of library.now) }
{
    let shape = library.shape();
    let degree = Degree::of(shape.degree() as usize);
    Weights::new(
        alloc,
        degree,
        shape.documents(),
        shape.terms(),
        library.weights(),
    )
}

/// The bins of a library.
pub(crate) fn bin_rows(
    alloc: Global,
    library: &Library,
    tested: &Tested,
) -> Result<Rows, AllocError>
    requires { tested.now ≡ library.now.shape }
    ensures { IfOk result (λ t. t ≡ bin_table library.now) }
{
    let _ = library.shape();
    let shape = tested.shape();
    let degree = Degree::of(shape.degree() as usize);
    Rows::new(alloc, degree, shape.bins(), shape.chunks(), library.bins())
}

/// The records of all buckets, in order.
pub(crate) fn bucket_rows(
    alloc: Global,
    library: &Library,
    tested: &Tested,
) -> Result<Vec<Rows>, AllocError>
    requires { tested.now ≡ library.now.shape }
    ensures { IfOk result (λ ts. ts.items ≡ map (bucket_table library.now)
        (range_with_len 0 (bucket_count library.now.shape.hits))) }
{
    let shape = library.shape();
    let _ = shape.degree();
    let count = buckets(shape.hits());
    let lists = bucket_lists(alloc, shape.salt(), count, shape.documents())?;
    let mut tables = Vec::with_capacity(alloc, count as usize)?;
    for bucket in 0..count {
        tables.push(records_of(alloc, library, tested, &lists, bucket)?)?;
    }
    Ok(tables)
}

/// The records of a bucket.
fn records_of(
    alloc: Global,
    library: &Library,
    tested: &Tested,
    lists: &Lists,
    bucket: u32,
) -> Result<Rows, AllocError>
    requires tested { tested.now ≡ library.now.shape }
    requires lists { lists.now ≡ lists_of library.now.shape.salt
        (bucket_count library.now.shape.hits) library.now.shape.documents }
    requires bucket { bucket < bucket_count library.now.shape.hits }
    ensures { IfOk result (λ t. t ≡ bucket_table library.now bucket) }
{
    let _ = library.shape();
    let shape = tested.shape();
    let degree = Degree::of(shape.degree() as usize);
    let bytes = spelled(alloc, library, lists.list(bucket))?;
    let chunks = record_chunks(shape.degree());
    Rows::new(alloc, degree, shape.rows(), chunks, bytes.as_slice())
}

/// The records of some documents, one after another, then zeros up to all rows of a bucket.
#[tactic(auto, unfolding(co_bucket::specs::Bytes::bucket_bytes))]
fn spelled(alloc: Global, library: &Library, list: &[u32]) -> Result<Vec<u8>, AllocError>
    requires { All (λ d. d < library.now.shape.documents) list.now }
    ensures { IfOk result (λ bytes. bytes.items ≡ bucket_bytes library.now.shape.degree
        library.now.shape.rows (record_at library.now.records) list.now) }
{
    let shape = library.shape();
    let size = shape.rows() as usize * row_size(shape.degree());
    let mut bytes = Vec::with_capacity(alloc, size)?;
    for document in list {
        bytes.extend_from_slice(record_of(library, *document))?;
    }
    pad(&mut bytes, size)?;
    Ok(bytes)
}

/// The bytes of a row of records.
fn row_size(degree: u32) -> usize
    requires { degree < 2 ^ 31 }
    ensures { result ≡ layouts.row_size degree }
{
    RECORD_BYTES.max(2 * degree as usize)
}

/// The record of a document.
fn record_of(library: &Library, document: u32) -> &[u8]
    requires { document < library.now.shape.documents }
    ensures { result.now ≡ record_at library.now.records document }
{
    let _ = library.shape();
    let records = library.records();
    let start = document as usize * RECORD_BYTES;
    &records[start..start + RECORD_BYTES]
}

/// Adds zeros at the end, up to a size.
fn pad(out: &mut Vec<u8>, size: usize) -> Result<(), AllocError>
    ensures { OnOk result (out.new.items ≡ out.old.items ++ replicate (size - length out.old.items)
        0) }
{
    let missing = size.saturating_sub(out.len());
    for added in 0..missing {
        let _ = added;
        out.push(0)?;
    }
    Ok(())
}
