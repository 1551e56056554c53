//! Why a search over a link gives no answer: its status, and the line that says it.
ghost use Rattle.std.specs.Prelude.{◌≡◌, ◌≤◌};
ghost use Rattle.co_link.specs.Causes.{Rose};
ghost use Rattle.co_link.specs.Held.{TookWhole};
ghost use Rattle.co_commands.specs.Outside.{sink_by};
ghost use Rattle.co_commands.specs.Refusals.{round_name, status_of_refused, status_of_search};
ghost use Rattle.co_commands.specs.Refusals.{round_text, two_numbers, byte_text, numbers_text};
ghost use Rattle.co_commands.specs.Refusals.{witness_text, search_text, Says};

use crate::refusals::{put_parts, say, say_number, say_test};
use co_client::SearchFault;
use co_link::{Sink, Target};
use itoa::Buffer;

// The name of a round.
fn round_name(target: Target) -> &'static str
    ensures { result.now ≡ round_name target }
{
    match target {
        Target::Public => "public",
        Target::Keys => "keys",
        Target::Score => "score",
        Target::Meta => "meta",
        Target::Document => "document",
    }
}

// A server without memory counts as want of memory.
fn status_of_refused(status: u16) -> u8
    ensures { result ≡ status_of_refused status }
{
    if status == 503 { 10 } else { 8 }
}

/// The status of a search that gives no answer.
pub fn status_of_search(fault: &SearchFault) -> u8
    ensures { result ≡ status_of_search fault.now }
{
    match fault {
        SearchFault::TooManyKeywords { .. } => 5,
        SearchFault::BadPublic { .. } => 8,
        SearchFault::Test(_) => 4,
        SearchFault::NoPlacement { .. } => 6,
        SearchFault::Link => 7,
        SearchFault::Refused { status, .. } => status_of_refused(*status),
        SearchFault::BadReply { .. } => 8,
        SearchFault::WrongRecord { .. } => 8,
        SearchFault::BadPlace { .. } => 8,
        SearchFault::NotByte { .. } => 8,
        SearchFault::BadRecord { .. } => 8,
        SearchFault::OutOfMemory => 10,
    }
}

// Says a text with a round and a number.
fn say_round<E: Sink>(before: &'static str, target: Target, number: u64, err: &mut E)
    ensures { let at = sink_by E.put_so_far E.faults in
        Says (round_text before.now target number) (at err.old) (at err.new) }
{
    let mut digits = Buffer::new();
    say(
        &[before, round_name(target), " ", digits.format(number)],
        err,
    );
}

// Says a text with two numbers behind it.
fn say_two<E: Sink>(before: &str, first: u32, second: u32, err: &mut E)
    ensures { let at = sink_by E.put_so_far E.faults in
        Says (two_numbers before.now first second) (at err.old) (at err.new) }
{
    let mut digits = Buffer::new();
    let mut more_digits = Buffer::new();
    let first = digits.format(first);
    let second = more_digits.format(second);
    say(&[before, first, " ", second], err);
}

// Says which coefficient of an opened reply is no two bytes.
fn say_byte<E: Sink>(target: Target, reply: u32, place: u32, err: &mut E)
    ensures { let at = sink_by E.put_so_far E.faults in
        Says (byte_text target reply place) (at err.old) (at err.new) }
{
    let mut digits = Buffer::new();
    let mut more_digits = Buffer::new();
    let reply = digits.format(reply);
    let place = more_digits.format(place);
    say(
        &["not a byte ", round_name(target), " ", reply, " ", place],
        err,
    );
}

// Puts numbers on the error output, each with a space before it.
fn put_numbers<E: Sink>(numbers: &[u32], err: &mut E)
    ensures later { E.faults err.old ≤ E.faults err.new }
    ensures says { ¬ (Rose (E.faults err.old) (E.faults err.new)) →
        TookWhole (E.put_so_far err.old) (E.put_so_far err.new) (numbers_text numbers.now) }
{
    for number in numbers {
        let mut digits = Buffer::new();
        put_parts(&[" ", digits.format(*number)], err);
    }
}

// Puts documents, and their buckets, of which there are too few.
fn put_witness<E: Sink>(documents: &[u32], buckets: &[u32], err: &mut E)
    ensures later { E.faults err.old ≤ E.faults err.new }
    ensures says { ¬ (Rose (E.faults err.old) (E.faults err.new)) →
        TookWhole (E.put_so_far err.old) (E.put_so_far err.new)
        (witness_text documents.now buckets.now) }
{
    put_parts(&["no placement: documents"], err);
    put_numbers(documents, err);
    put_parts(&[" buckets"], err);
    put_numbers(buckets, err);
}

// Says which documents have too few buckets.
fn say_witness<E: Sink>(documents: &[u32], buckets: &[u32], err: &mut E)
    ensures { let at = sink_by E.put_so_far E.faults in
        Says (witness_text documents.now buckets.now) (at err.old) (at err.new) }
{
    put_parts(&["coeus: "], err);
    put_witness(documents, buckets, err);
    put_parts(&["\n"], err);
}

/// Says why a search gives no answer.
pub fn say_search<E: Sink>(fault: &SearchFault, err: &mut E)
    ensures { let at = sink_by E.put_so_far E.faults in
        Says (search_text fault.now) (at err.old) (at err.new) }
{
    match fault {
        SearchFault::TooManyKeywords { found } => {
            say_number("", *found as u128, " keywords, at most 16", err);
        }
        SearchFault::BadPublic { place } => say_number("bad public ", *place as u128, "", err),
        SearchFault::Test(fault) => say_test(*fault, err),
        SearchFault::NoPlacement { documents, buckets } => {
            say_witness(documents.as_slice(), buckets.as_slice(), err);
        }
        SearchFault::Link => say(&["link"], err),
        SearchFault::Refused { target, status } => {
            say_round("refused ", *target, *status as u64, err);
        }
        SearchFault::BadReply { target, place } => say_round("bad reply ", *target, *place, err),
        SearchFault::WrongRecord { wanted, found } => {
            say_two("wrong record ", *wanted, *found, err);
        }
        SearchFault::BadPlace { document } => {
            say_number("bad place ", *document as u128, "", err);
        }
        SearchFault::NotByte {
            target,
            reply,
            place,
        } => say_byte(*target, *reply, *place, err),
        SearchFault::BadRecord { document, place } => {
            say_two("bad record ", *document, *place, err);
        }
        SearchFault::OutOfMemory => say(&["memory"], err),
    }
}
