//! How long requests and replies are.

ghost use Rattle.std.specs.Prelude.{◌≡◌, ◌≢◌, ◌<◌, ◌≤◌, ◌^◌};
ghost use Rattle.co_link.specs.declared.messages.Target.TheVariants.{Public};
ghost use Rattle.co_bucket.specs.Bytes as layouts;
ghost use Rattle.co_wire.specs.Lengths.{request_size, reply_size};

use co_bucket::{RECORD_COEFFICIENTS, buckets};
use co_link::Target;
use co_math::{DIGIT_COUNT, log2_up};
use co_noise::Tested;

/// How many payloads of one polynomial a row of records has.
pub fn record_chunks(degree: u32) -> u32
    requires { 1 ≤ degree }
    ensures { result ≡ layouts.record_chunks degree }
{
    1u32.max(RECORD_COEFFICIENTS / degree)
}

/// The bytes of a request's body.
pub fn request_length(tested: &Tested, target: Target) -> u64
    ensures value { result ≡ request_size tested.now target }
    ensures small { result < 2 ^ 48 }
{
    let shape = tested.shape();
    let cipher = 28 * shape.degree() as u64;
    let keys = log2_up(shape.degree() / 2) as u64 + shape.levels() as u64;
    match target {
        Target::Public => 0,
        Target::Keys => keys * (DIGIT_COUNT as u64 * cipher),
        Target::Score => shape.keyword_blocks() as u64 * cipher,
        Target::Meta => buckets(shape.hits()) as u64 * cipher,
        Target::Document => cipher,
    }
}

/// The bytes of a reply's body that is as asked, for every target but the published parameters.
pub fn reply_length(tested: &Tested, target: Target) -> u64
    requires { target ≢ Public }
    ensures value { result ≡ reply_size tested.now target }
    ensures small { result < 2 ^ 50 }
{
    let shape = tested.shape();
    let degree = shape.degree();
    let cipher = 28 * degree as u64;
    match target {
        Target::Public | Target::Keys => 0,
        Target::Score => shape.document_blocks() as u64 * cipher,
        Target::Meta => buckets(shape.hits()) as u64 * (record_chunks(degree) as u64 * cipher),
        Target::Document => shape.chunks() as u64 * cipher,
    }
}
