//! Payload bytes, two a coefficient.

ghost use Rattle.std.specs.Prelude.{◌≡◌, ◌*◌, ◌<◌, length, IfOk, IfErr, OnOk};
ghost use Rattle.co_math.specs.Coefficients.{AreBelow};
ghost use Rattle.co_slots.specs.Payloads.{IsPayload};

use co_link::Bytes;
use co_ring::{Degree, Modulus, Poly};
use std::alloc::{AllocError, Global};
use thiserror::Error;

/// Why a polynomial spells no bytes.
#[derive(Clone, Copy, Debug, PartialEq, Eq, Error)]
pub enum ByteFault {
    /// The coefficient at this place is the first that is 65536.
    #[error("no bytes at coefficient {place}")]
    NotByte { place: u32 },
    /// There is no room for the bytes.
    #[error("out of memory")]
    OutOfMemory,
}

/// The polynomial of 2n bytes.
pub fn encode_bytes(alloc: Global, degree: Degree, bytes: &[u8]) -> Result<Poly, AllocError>
    requires { length bytes.now ≡ 2 * degree }
    ensures modulus { IfOk result (λ p. p.modulus ≡ Modulus.Plain) }
    ensures payload { IfOk result (λ p. IsPayload bytes.now p.coeffs) }
{
    let n = degree.get() as usize;
    let mut coeffs = Vec::with_capacity(alloc, n)?;
    for k in 0..n {
        let high = bytes[2 * k] as u64;
        let low = bytes[2 * k + 1] as u64;
        coeffs.push(256 * high + low)?;
    }
    Ok(Poly::from_vec(Modulus::Plain, coeffs))
}

ghost use Rattle.co_slots.specs.Faults.{IsCause};

/// The 2n bytes of a polynomial, or the first place that is no two bytes. Want of memory may
/// come in place of a later fault.
pub fn decode_bytes(alloc: Global, poly: &Poly) -> Result<Bytes, ByteFault>
    requires { poly.now.modulus ≡ Modulus.Plain }
    ensures bytes { IfOk result (λ bytes. IsPayload bytes poly.now.coeffs) }
    ensures whole { OnOk result (AreBelow 65536 poly.now.coeffs) }
    ensures fault { IfErr result (IsCause poly.now.coeffs) }
{
    let Ok(mut bytes) = Bytes::with_capacity(alloc, 2 * poly.degree()) else {
        return Err(ByteFault::OutOfMemory);
    };
    for k in 0..poly.degree() {
        let coefficient = poly.coeff(k);
        if coefficient == 65536 {
            return Err(ByteFault::NotByte { place: k as u32 });
        }
        let Ok(()) = bytes.push((coefficient / 256) as u8) else {
            return Err(ByteFault::OutOfMemory);
        };
        let Ok(()) = bytes.push((coefficient % 256) as u8) else {
            return Err(ByteFault::OutOfMemory);
        };
    }
    Ok(bytes)
}
