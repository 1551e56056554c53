//! Polynomials over one modulus.

ghost use Rattle.std.specs.Prelude.{◌≡◌, IfOk};
ghost use Rattle.co_ring.specs.Polynomials.{degree_of};

use crate::cases::{BadCase, Case};
use crate::lines::{put, put_poly};
use co_ring::{Modulus, Poly, Spectrum, Table, forward, inverse};

/// The line of a case, behind the name of its call.
pub fn line(case: Case) -> Result<String, BadCase> {
    let modulus = case.modulus();
    let mut line = String::new(case.alloc);
    match case.call() {
        "value" => put(&mut line, modulus.value() as u128)?,
        "root" => put(&mut line, modulus.root(case.degree()?) as u128)?,
        "mul" => put_poly(&mut line, &product(modulus, case)?)?,
        "values" => put_values(&mut line, modulus, case)?,
        "add" => put_poly(&mut line, &sum(modulus, case, false)?)?,
        "sub" => put_poly(&mut line, &sum(modulus, case, true)?)?,
        "scale" => put_poly(&mut line, &scaled(modulus, case)?)?,
        "substitute" => put_poly(&mut line, &substituted(modulus, case)?)?,
        "shift" => put_poly(&mut line, &shifted(modulus, case)?)?,
        _ => return Err(BadCase::Unfit),
    }
    Ok(line)
}

/// Two polynomials of one degree.
fn both(modulus: Modulus, case: Case) -> Result<(Poly, Poly), BadCase>
    ensures first_modulus { IfOk result (λ p. p.0.modulus ≡ modulus) }
    ensures second_modulus { IfOk result (λ p. p.1.modulus ≡ modulus) }
    ensures one_degree { IfOk result (λ p. degree_of p.1 ≡ degree_of p.0) }
{
    let a = case.poly(modulus, "a")?;
    let b = case.poly(modulus, "b")?;
    if a.degree() != b.degree() {
        return Err(BadCase::Unfit);
    }
    Ok((a, b))
}

fn product(modulus: Modulus, case: Case) -> Result<Poly, BadCase> {
    let (a, b) = both(modulus, case)?;
    Ok(a.mul(case.alloc, &b)?)
}

fn scaled(modulus: Modulus, case: Case) -> Result<Poly, BadCase> {
    let mut a = case.poly(modulus, "a")?;
    a.scale(case.text("factor").parse().unwrap_or(0));
    Ok(a)
}

fn substituted(modulus: Modulus, case: Case) -> Result<Poly, BadCase> {
    let a = case.poly(modulus, "a")?;
    let g = case.number("g");
    if g % 2 == 0 || g as usize / 2 >= a.degree() {
        return Err(BadCase::Unfit);
    }
    let mut into = Poly::zero(case.alloc, modulus, a.shape())?;
    a.substitute(g, &mut into);
    Ok(into)
}

fn shifted(modulus: Modulus, case: Case) -> Result<Poly, BadCase> {
    let a = case.poly(modulus, "a")?;
    let exponent = case.number("exponent");
    if exponent as usize / 2 >= a.degree() {
        return Err(BadCase::Unfit);
    }
    let mut into = Poly::zero(case.alloc, modulus, a.shape())?;
    a.monomial_mul(exponent, &mut into);
    Ok(into)
}

/// The sum, or the difference.
fn sum(modulus: Modulus, case: Case, negated: bool) -> Result<Poly, BadCase> {
    let (mut a, b) = both(modulus, case)?;
    if negated {
        a.sub_in(&b);
    } else {
        a.add_in(&b);
    }
    Ok(a)
}

/// The values of a polynomial, and the polynomial back from them.
fn put_values(line: &mut String, modulus: Modulus, case: Case) -> Result<(), BadCase> {
    let a = case.poly(modulus, "a")?;
    let table = Table::new(case.alloc, modulus, a.shape())?;
    let mut values = Spectrum::zero(case.alloc, modulus, a.shape())?;
    forward(&table, &a, &mut values);
    for k in 0..values.degree() {
        put(line, values.value(k) as u128)?;
    }
    let mut back = Poly::zero(case.alloc, modulus, a.shape())?;
    inverse(&table, &values, &mut back);
    put_poly(line, &back)?;
    Ok(())
}
