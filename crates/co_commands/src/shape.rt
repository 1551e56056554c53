//! The command `shape`: the noise bounds of published numbers, and the test.
ghost use Rattle.std.specs.Prelude.{◌≡◌, ◌++◌, [], ◌∷◌, IfOk, OnOk, codes};
ghost use Rattle.co_noise.specs.Bounds.{test_of};
ghost use Rattle.co_commands.specs.Words.{SpokenShape};
ghost use Rattle.co_commands.specs.Outside.{FilesState, Devices, sink_by, outside};
ghost use Rattle.co_commands.specs.ShapeLines.{number_line, test_word, shape_text};
ghost use Rattle.co_commands.specs.Runs.{Ended};

use crate::access::put_answer;
use crate::refusals::Refusal;
use co_link::{Bytes, Sink};
use co_noise::{
    Shape, TestFault, fresh_bound, modulus, retrieve_bound, score_bound, switch_bound, test,
};
use std::alloc::{AllocError, Global};

// Adds a line with a name and a number.
fn add_number(alloc: Global, out: &mut Bytes, name: &str, number: u128) -> Result<(), AllocError>
    ensures { OnOk result (out.new ≡ out.old ++ number_line name.now number) }
{
    let line = format!(in alloc; "{name} {number}\n")?;
    out.append(line.as_bytes())
}

// The word for the answer of the test.
fn test_word(shape: &Shape) -> &'static str
    ensures { result.now ≡ test_word (test_of shape.now) }
{
    match test(shape) {
        Ok(_) => "yes",
        Err(TestFault::RowsOverDegree { rows: _, degree: _ }) => "rows",
        Err(TestFault::Score { bound: _ }) => "score",
        Err(TestFault::Records { bound: _ }) => "records",
        Err(TestFault::Bins { bound: _ }) => "bins",
    }
}

// Adds the line of the test.
fn add_test(alloc: Global, out: &mut Bytes, word: &str) -> Result<(), AllocError>
    ensures { OnOk result (out.new ≡ out.old ++ (codes "test " ++ (word.now ++ (10 ∷ [])))) }
{
    let line = format!(in alloc; "test {word}\n")?;
    out.append(line.as_bytes())
}

/// The seven lines of a shape: the bounds, the modulus, and the answer of the test.
#[tactic(auto, unfolding(crate::specs::ShapeLines::shape_text))]
pub fn shape_text(alloc: Global, shape: &Shape) -> Result<Bytes, AllocError>
    ensures { IfOk result (λ text. text ≡ shape_text shape.now) }
{
    let degree = shape.degree();
    let mut out = Bytes::new(alloc);
    add_number(alloc, &mut out, "fresh", fresh_bound())?;
    add_number(alloc, &mut out, "switch", switch_bound(degree))?;
    add_number(alloc, &mut out, "score", score_bound(shape))?;
    add_number(
        alloc,
        &mut out,
        "records",
        retrieve_bound(degree, shape.rows()),
    )?;
    add_number(
        alloc,
        &mut out,
        "bins",
        retrieve_bound(degree, shape.bins()),
    )?;
    add_number(alloc, &mut out, "modulus", modulus())?;
    add_test(alloc, &mut out, test_word(shape))?;
    Ok(out)
}

/// Puts the lines of a shape. It has nothing to do with files or devices.
pub fn show<O: Sink>(alloc: Global, shape: &Shape, out: &mut O) -> Result<(), Refusal>
    ensures { let at = sink_by O.put_so_far O.faults in
        (files : FilesState) (devices : Devices) → Ended (SpokenShape shape.now)
        (outside files devices (at out.old)) (outside files devices (at out.new)) result }
{
    let Ok(text) = shape_text(alloc, shape) else {
        return Err(Refusal::Memory);
    };
    put_answer(text.as_slice(), out)?;
    match test(shape) {
        Ok(_) => Ok(()),
        Err(fault) => Err(Refusal::Test(fault)),
    }
}
