//! Slots, by the transform modulo t.

ghost use Rattle.std.specs.Prelude.{◌≡◌, ◌*◌, ◌/◌, ◌<◌, ℕ, length};
ghost use Rattle.std.specs.Prelude.{IfOk};
ghost use Rattle.co_math.specs.Parameters.{plain_modulus};
ghost use Rattle.co_math.specs.Coefficients.{AreBelow, IsDegree};
ghost use Rattle.co_ring.specs.Polynomials.{degree_of};
ghost use Rattle.co_slots.specs.Slots.{exponent_of, AreScattered, AreSlots, ArePlaces};

use co_ring::{Degree, Modulus, Poly, Spectrum, Table, forward, inverse, negate, power};
use co_transform::reversed;
use std::alloc::{AllocError, Global};
use std::marker::Model;

/// The table of the transform modulo t, and where each slot stands among its leaves, made once
/// for a degree: 40 * n bytes.
#[derive(Drop)]
pub struct SlotTable {
    table: Table,
    places: Vec<usize>,
}

impl Model for SlotTable {
    ghost use Rattle.std.specs.Prelude.{ℕ};
    ghost use Rattle.co_slots.specs.Slots.{IsSlotTable};

    ghost Value = { ℕ };

    ghost view = { λ t. t.table.degree };

    ghost invariant = { λ t. IsSlotTable t.table t.places.items };
}

impl SlotTable {
    /// The table for this degree.
    pub fn new(alloc: Global, degree: Degree) -> Result<SlotTable, AllocError>
        ensures { IfOk result (λ t. t ≡ degree) }
    {
        Ok(SlotTable {
            table: Table::new(alloc, Modulus::Plain, degree)?,
            places: places(alloc, degree)?,
        })
    }

    /// Writes the polynomial with these slots, the first row before the second. The spectrum is
    /// scratch.
    pub fn encode(&self, values: &[u64], scratch: &mut Spectrum, into: &mut Poly)
        requires one_degree { length values.now ≡ self.now }
        requires reduced { AreBelow plain_modulus values.now }
        requires scratch_modulus { scratch.old.modulus ≡ Modulus.Plain }
        requires scratch_degree { length scratch.old.values ≡ self.now }
        requires into_modulus { into.old.modulus ≡ Modulus.Plain }
        requires into_degree { degree_of into.old ≡ self.now }
        ensures modulus { into.new.modulus ≡ Modulus.Plain }
        ensures slots { AreSlots into.new.coeffs values.now }
        ensures scratch_modulus { scratch.new.modulus ≡ Modulus.Plain }
        ensures scratch_degree { length scratch.new.values ≡ self.now }
    {
        let _ = scratch.degree();
        scatter(&self.places, values, scratch);
        inverse(&self.table, scratch, into);
    }

    /// Writes the slots of a polynomial, the first row before the second. The spectrum is scratch.
    pub fn decode(&self, poly: &Poly, scratch: &mut Spectrum, into: &mut [u64])
        requires modulus { poly.now.modulus ≡ Modulus.Plain }
        requires one_degree { degree_of poly.now ≡ self.now }
        requires scratch_modulus { scratch.old.modulus ≡ Modulus.Plain }
        requires scratch_degree { length scratch.old.values ≡ self.now }
        requires into_degree { length into.old ≡ self.now }
        ensures slots { AreSlots poly.now.coeffs into.new }
        ensures scratch_modulus { scratch.new.modulus ≡ Modulus.Plain }
        ensures scratch_degree { length scratch.new.values ≡ self.now }
    {
        let _ = scratch.degree();
        forward(&self.table, poly, scratch);
        gather(&self.places, scratch, into);
    }
}

/// Puts the value of each slot where it stands in a spectrum.
fn scatter(places: &[usize], values: &[u64], into: &mut Spectrum)
    requires degree { IsDegree (length values.now) }
    requires places { ArePlaces (length values.now) (length values.now) places.now }
    requires reduced { AreBelow plain_modulus values.now }
    requires into_modulus { into.old.modulus ≡ Modulus.Plain }
    requires into_degree { length into.old.values ≡ length values.now }
    ensures modulus { into.new.modulus ≡ Modulus.Plain }
    ensures values { AreScattered (length values.now)
        (length values.now) values.now into.new.values }
{
    for p in 0..values.len() {
        into.set_leaf(places[p], values[p]);
    }
}

/// Reads the value of each slot where it stands in a spectrum.
fn gather(places: &[usize], values: &Spectrum, into: &mut [u64])
    requires degree { IsDegree (length into.old) }
    requires places { ArePlaces (length into.old) (length into.old) places.now }
    requires one_degree { length values.now.values ≡ length into.old }
    ensures len { length into.new ≡ length into.old }
    ensures values { AreScattered (length into.old) (length into.old) into.new values.now.values }
{
    for p in 0..into.len() {
        into[p] = values.leaf(places[p]);
    }
}

/// The exponent of the root whose power is the point of slot p.
fn exponent(n: usize, p: usize) -> u64
    requires degree { IsDegree n }
    requires in_range { p < n }
    ensures { result ≡ exponent_of n p }
{
    let turn = 2 * n as u64;
    if p < n / 2 {
        power(3, p as u64, turn)
    } else {
        negate(power(3, (p - n / 2) as u64, turn), turn)
    }
}

/// Where each slot stands among the leaves of the transform.
fn places(alloc: Global, degree: Degree) -> Result<Vec<usize>, AllocError>
    ensures { IfOk result (λ v. ArePlaces degree degree v.items) }
{
    let n = degree.get() as usize;
    let levels = degree.exponent();
    let mut all = Vec::with_capacity(alloc, n)?;
    for p in 0..n {
        all.push(reversed(levels, exponent(n, p) as usize / 2))?;
    }
    Ok(all)
}

/// The polynomial with these slots, the first row before the second.
pub fn encode_slots(alloc: Global, degree: Degree, values: &[u64]) -> Result<Poly, AllocError>
    requires one_degree { length values.now ≡ degree }
    requires reduced { AreBelow plain_modulus values.now }
    ensures modulus { IfOk result (λ p. p.modulus ≡ Modulus.Plain) }
    ensures slots { IfOk result (λ p. AreSlots p.coeffs values.now) }
{
    let table = SlotTable::new(alloc, degree)?;
    let mut scratch = Spectrum::zero(alloc, Modulus::Plain, degree)?;
    let mut poly = Poly::zero(alloc, Modulus::Plain, degree)?;
    table.encode(values, &mut scratch, &mut poly);
    Ok(poly)
}

/// The slots of a polynomial, the first row before the second.
pub fn decode_slots(alloc: Global, poly: &Poly) -> Result<Vec<u64>, AllocError>
    requires { poly.now.modulus ≡ Modulus.Plain }
    ensures { IfOk result (λ v. AreSlots poly.now.coeffs v.items) }
{
    let degree = poly.shape();
    let table = SlotTable::new(alloc, degree)?;
    let mut scratch = Spectrum::zero(alloc, Modulus::Plain, degree)?;
    let mut slots = vec![in alloc; 0; poly.degree()]?;
    table.decode(poly, &mut scratch, &mut slots);
    Ok(slots)
}
