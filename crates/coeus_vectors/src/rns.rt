//! Polynomials modulo q.

ghost use Rattle.std.specs.Prelude.{◌≡◌, length, IfOk};

use crate::cases::{BadCase, Case, degree_of};
use crate::lines::{put_pair, put_poly};
use co_math::DIGIT_COUNT;
use co_ring::Modulus;
use co_rns::Pair;

/// The line of a case, behind the name of its call.
pub fn line(case: Case) -> Result<String, BadCase> {
    let mut line = String::new(case.alloc);
    match case.call() {
        "split" => put_parts(&mut line, case)?,
        "join" => put_pair(&mut line, &joined(case)?)?,
        "digit" => put_digits(&mut line, case)?,
        "mul" => put_pair(&mut line, &product(case)?)?,
        "mul_plain" => put_pair(&mut line, &plain_product(case)?)?,
        "substitute" => put_pair(&mut line, &substituted(case)?)?,
        "shift" => put_pair(&mut line, &shifted(case)?)?,
        "add" => put_pair(&mut line, &sum(case, false)?)?,
        "sub" => put_pair(&mut line, &sum(case, true)?)?,
        _ => return Err(BadCase::Unfit),
    }
    Ok(line)
}

/// The residues modulo q1, and then those modulo q2.
fn put_parts(line: &mut String, case: Case) -> Result<(), BadCase> {
    let a = case.pair("a")?;
    put_poly(line, a.first())?;
    put_poly(line, a.second())?;
    Ok(())
}

fn joined(case: Case) -> Result<Pair, BadCase> {
    let first = case.poly(Modulus::First, "first")?;
    let second = case.poly(Modulus::Second, "second")?;
    if first.degree() != second.degree() {
        return Err(BadCase::Unfit);
    }
    Ok(Pair::from_parts(first, second))
}

/// The lowest digits of all coefficients, then the next ones.
fn put_digits(line: &mut String, case: Case) -> Result<(), BadCase> {
    let a = case.pair("a")?;
    let degree = degree_of(a.degree())?;
    for index in 0..DIGIT_COUNT {
        let mut into = Pair::zero(case.alloc, degree)?;
        a.digit(index, &mut into);
        put_pair(line, &into)?;
    }
    Ok(())
}

/// Two polynomials of one degree.
fn both(case: Case) -> Result<(Pair, Pair), BadCase>
    ensures { IfOk result (λ p. length p.1 ≡ length p.0) }
{
    let a = case.pair("a")?;
    let b = case.pair("b")?;
    if a.degree() != b.degree() {
        return Err(BadCase::Unfit);
    }
    Ok((a, b))
}

fn product(case: Case) -> Result<Pair, BadCase> {
    let (a, b) = both(case)?;
    Ok(a.mul(case.alloc, &b)?)
}

fn plain_product(case: Case) -> Result<Pair, BadCase> {
    let a = case.pair("a")?;
    let plain = case.poly(Modulus::Plain, "plain")?;
    if a.degree() != plain.degree() {
        return Err(BadCase::Unfit);
    }
    Ok(a.mul_plain(case.alloc, &plain)?)
}

fn substituted(case: Case) -> Result<Pair, BadCase> {
    let a = case.pair("a")?;
    let g = case.number("g");
    if g % 2 == 0 || g as usize / 2 >= a.degree() {
        return Err(BadCase::Unfit);
    }
    let mut into = Pair::zero(case.alloc, degree_of(a.degree())?)?;
    a.substitute(g, &mut into);
    Ok(into)
}

fn shifted(case: Case) -> Result<Pair, BadCase> {
    let a = case.pair("a")?;
    let exponent = case.number("exponent");
    if exponent as usize / 2 >= a.degree() {
        return Err(BadCase::Unfit);
    }
    let mut into = Pair::zero(case.alloc, degree_of(a.degree())?)?;
    a.monomial_mul(exponent, &mut into);
    Ok(into)
}

/// The sum, or the difference.
fn sum(case: Case, negated: bool) -> Result<Pair, BadCase> {
    let (mut a, b) = both(case)?;
    if negated {
        a.sub_in(&b);
    } else {
        a.add_in(&b);
    }
    Ok(a)
}
