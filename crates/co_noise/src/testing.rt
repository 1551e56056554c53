//! Whether a shape leaves room for its noise.

ghost use Rattle.std.specs.Prelude.{◌≡◌, ◌<◌, ◌*◌, ◌^◌, Ok, nat_le};
ghost use Rattle.co_math.specs.Parameters.{q};
ghost use Rattle.co_noise.specs.Bounds.{test_of, HasRoom};

use crate::bounds::{modulus, retrieve_bound, score_bound};
use crate::shape::Shape;
use std::marker::Model;
use thiserror::Error;

/// Why a shape leaves no room for its noise: the first comparison that fails.
#[derive(Clone, Copy, Debug, PartialEq, Eq, Error)]
pub enum TestFault {
    /// Rows, or else bins, pass the degree.
    #[error("rows {rows} over degree {degree}")]
    RowsOverDegree { rows: u32, degree: u32 },
    /// Twice the bound of a score reply is at least the modulus.
    #[error("score bound {bound}")]
    Score { bound: u128 },
    /// Twice the bound of a retrieval of records is at least the modulus.
    #[error("records bound {bound}")]
    Records { bound: u128 },
    /// Twice the bound of a retrieval from a bin is at least the modulus.
    #[error("bins bound {bound}")]
    Bins { bound: u128 },
}

/// A shape that passed the test.
#[derive(Clone, Copy, Debug)]
pub struct Tested {
    shape: Shape,
}

impl Model for Tested {
    ghost use Rattle.std.specs.Prelude.{◌≡◌, Ok};
    ghost use Rattle.co_noise.specs.Shapes.{Numbers};
    ghost use Rattle.co_noise.specs.Bounds.{test_of};

    ghost Value = { Numbers };

    ghost view = { λ t. t.shape };

    ghost invariant = { λ t. test_of t.shape ≡ Ok t.shape };

    ghost inverse = { λ s. record { shape = s } };
}

impl Tested {
    /// The shape that passed.
    pub fn shape(&self) -> &Shape
        ensures value { result.now ≡ self.now }
        ensures passes { test_of self.now ≡ Ok self.now }
        ensures room { HasRoom self.now }
    {
        &self.shape
    }
}

/// Whether twice a bound is at least the modulus.
fn is_over(bound: u128) -> bool
    requires { bound < 2 ^ 112 }
    ensures { result ≡ nat_le q (2 * bound) }
{
    2 * bound >= modulus()
}

/// Whether rows and bins fit one polynomial, and twice each bound is below the modulus.
#[tactic(auto, unfolding(crate::specs::Bounds::test_of))]
pub fn test(shape: &Shape) -> Result<Tested, TestFault>
    ensures { result ≡ test_of shape.now }
{
    let degree = shape.degree();
    let rows = shape.rows();
    let bins = shape.bins();
    if rows > degree {
        return Err(TestFault::RowsOverDegree { rows, degree });
    }
    if bins > degree {
        return Err(TestFault::RowsOverDegree { rows: bins, degree });
    }
    let bound = score_bound(shape);
    if is_over(bound) {
        return Err(TestFault::Score { bound });
    }
    let bound = retrieve_bound(degree, rows);
    if is_over(bound) {
        return Err(TestFault::Records { bound });
    }
    let bound = retrieve_bound(degree, bins);
    if is_over(bound) {
        return Err(TestFault::Bins { bound });
    }
    Ok(Tested { shape: *shape })
}
