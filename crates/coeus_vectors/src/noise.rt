//! Shapes, and the test of their noise. What the bounds are stands in the black-box cases.

ghost use Rattle.std.specs.Prelude.{◌≡◌, IfOk};

use crate::cases::{BadCase, Case};
use crate::lines::{put, put_text};
use co_noise::{Shape, TestFault, Tested, test};

/// The line of a case, behind the name of its call.
pub fn line(case: Case) -> Result<String, BadCase> {
    let mut line = String::new(case.alloc);
    match case.call() {
        "shape" => put_shape(&mut line, case)?,
        "test" => put_test(&mut line, case)?,
        _ => return Err(BadCase::Unfit),
    }
    Ok(line)
}

fn shape(case: Case) -> Option<Shape> {
    Shape::new(
        case.number("degree"),
        case.number("documents"),
        case.number("terms"),
        case.number("hits"),
        case.number("salt"),
        case.number("rows"),
        case.number("bins"),
        case.number("chunks"),
    )
}

/// The shape of a case, which passes the test.
pub fn tested(case: Case) -> Result<Tested, BadCase> {
    let Some(shape) = shape(case) else {
        return Err(BadCase::Unfit);
    };
    passed(&shape)
}

/// A shape that passes the test.
#[tactic(auto, unfolding(co_noise::specs::Bounds::test_of))]
pub fn passed(shape: &Shape) -> Result<Tested, BadCase>
    ensures { IfOk result (λ t. t ≡ shape.now) }
{
    match test(shape) {
        Ok(tested) => Ok(tested),
        Err(_) => return Err(BadCase::Unfit),
    }
}

/// The numbers that follow from a shape.
fn put_shape(line: &mut String, case: Case) -> Result<(), BadCase> {
    match shape(case) {
        Some(shape) => {
            put(line, shape.keyword_blocks() as u128)?;
            put(line, shape.document_blocks() as u128)?;
            put(line, shape.levels() as u128)?;
        }
        None => put_text(line, "out of range")?,
    }
    Ok(())
}

fn put_test(line: &mut String, case: Case) -> Result<(), BadCase> {
    let Some(shape) = shape(case) else {
        return Err(BadCase::Unfit);
    };
    let answer = match test(&shape) {
        Ok(_) => "yes",
        Err(TestFault::RowsOverDegree { .. }) => "rows",
        Err(TestFault::Score { .. }) => "score",
        Err(TestFault::Records { .. }) => "records",
        Err(TestFault::Bins { .. }) => "bins",
    };
    put_text(line, answer)?;
    Ok(())
}
