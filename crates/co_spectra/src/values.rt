//! The values of ciphertexts and of plain polynomials.

ghost use Rattle.std.specs.Prelude.{◌≡◌, IfOk};
ghost use Rattle.co_ring.specs.Polynomials.{degree_of};
ghost use Rattle.co_bfv.specs.Ciphertexts.{ciphertext_degree};
ghost use Rattle.co_spectra.specs.Values.{AreCipherValues, ArePlainValues};

use co_bfv::Cipher;
use co_ring::{Modulus, Poly};
use co_rns::{Pair, PairSpectrum, Tables, to_spectrum};
use std::alloc::{AllocError, Global};
use std::marker::Model;

/// The values of both parts of a ciphertext: 32 * n bytes.
#[derive(Drop)]
pub struct CipherSpectrum {
    pub(crate) c0: PairSpectrum,
    pub(crate) c1: PairSpectrum,
}

impl Model for CipherSpectrum {
    ghost use Rattle.co_spectra.specs.Values.{CipherValues};

    ghost Value = { CipherValues };

    ghost view = { λ v. record { c0 = v.c0; c1 = v.c1 } };
}

impl CipherSpectrum {
    /// The values of a ciphertext.
    pub fn new(
        alloc: Global,
        tables: &Tables,
        cipher: &Cipher,
    ) -> Result<CipherSpectrum, AllocError>
        requires { ciphertext_degree cipher.now ≡ tables.now }
        ensures { IfOk result (AreCipherValues tables.now cipher.now) }
    {
        let _ = cipher.degree();
        let mut c0 = PairSpectrum::zero(alloc, tables.degree())?;
        let mut c1 = PairSpectrum::zero(alloc, tables.degree())?;
        to_spectrum(tables, cipher.c0(), &mut c0);
        to_spectrum(tables, cipher.c1(), &mut c1);
        Ok(CipherSpectrum { c0, c1 })
    }
}

/// The values of a polynomial modulo t, taken with its centred coefficients.
pub fn plain_spectrum(
    alloc: Global,
    tables: &Tables,
    plain: &Poly,
) -> Result<PairSpectrum, AllocError>
    requires modulus { plain.now.modulus ≡ Modulus.Plain }
    requires degree { degree_of plain.now ≡ tables.now }
    ensures { IfOk result (ArePlainValues tables.now plain.now.coeffs) }
{
    let whole = Pair::centred(alloc, plain)?;
    let mut values = PairSpectrum::zero(alloc, tables.degree())?;
    to_spectrum(tables, &whole, &mut values);
    Ok(values)
}
