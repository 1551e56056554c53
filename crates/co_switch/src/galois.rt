//! The Galois elements of the keys of a set.

ghost use Rattle.std.specs.Prelude.{◌≡◌, ◌+◌, ◌*◌, ◌/◌, ◌%◌, ◌<◌, ◌≤◌};
ghost use Rattle.co_math.specs.Coefficients.{IsDegree};
ghost use Rattle.co_math.specs.Logarithms.{log2_up};
ghost use Rattle.co_switch.specs.Keys as elements;

/// The element of rotation key `b` at degree n: 3^(2^b) modulo 2n, by which the rotation is by 2^b.
pub fn rotation_element(degree: u32, b: u32) -> u32
    requires degree { IsDegree degree }
    ensures value { result ≡ elements.rotation_element degree b }
    ensures odd { result % 2 ≡ 1 }
    ensures within { result < 2 * degree }
{
    let mut element = 3;
    for index in 0..b {
        element = square(element, 2 * degree);
    }
    element
}

/// The element of expansion key `j` at degree n: n / 2^j + 1.
pub fn expansion_element(degree: u32, j: u32) -> u32
    requires degree { IsDegree degree }
    requires within { j ≤ log2_up (degree / 2) }
    ensures value { result ≡ elements.expansion_element degree j }
    ensures odd { result % 2 ≡ 1 }
    ensures within { result < 2 * degree }
{
    (degree >> j) + 1
}

// The square modulo a small number.
fn square(element: u32, modulus: u32) -> u32
    requires reduced { element < modulus }
    requires small { modulus ≤ 8192 }
    ensures { result ≡ element * element % modulus }
{
    element * element % modulus
}
