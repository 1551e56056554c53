//! What a case says. Each field of its object is a text; numbers in it stand apart by spaces.

ghost use Rattle.std.specs.Prelude.{◌≡◌, ◌<◌, IfOk};
ghost use Rattle.co_math.specs.Coefficients.{AreBelow};
ghost use Rattle.co_math.specs.Parameters.{q};
ghost use Rattle.co_ring.specs.Moduli.{value_of};

use co_math::CIPHER_MODULUS;
use co_ring::{Degree, Modulus, Poly};
use co_rns::Pair;
use serde_json::Value;
use std::alloc::{AllocError, Global};

/// Why a case has no line.
#[derive(Clone, Copy)]
pub enum BadCase {
    /// It gives a call what the call doesn't take, or names none.
    Unfit,
    OutOfMemory,
}

impl From<AllocError> for BadCase {
    fn from(_e: AllocError) -> BadCase {
        BadCase::OutOfMemory
    }
}

/// One case of a layer.
#[derive(Clone, Copy)]
pub struct Case<'a> {
    pub alloc: Global,
    fields: &'a Value,
}

impl<'a> Case<'a> {
    /// The case with these fields.
    pub fn new(alloc: Global, fields: &'a Value) -> Self {
        Case { alloc, fields }
    }

    /// The name of its call.
    pub fn call(&self) -> &'a str {
        self.text("call")
    }

    /// The text of a field, empty where there is none.
    pub fn text(&self, name: &str) -> &'a str {
        match self.fields.get(name) {
            Some(value) => value.as_str().unwrap_or(""),
            None => "",
        }
    }

    /// The cases that a field lists.
    pub fn list(&self, name: &str) -> Result<&'a [Value], BadCase> {
        match self.fields.get(name).and_then(Value::as_array) {
            Some(list) => Ok(list.as_slice()),
            None => Err(BadCase::Unfit),
        }
    }

    /// The number of a field, 0 where there is none.
    pub fn number(&self, name: &str) -> u32 {
        self.text(name).parse().unwrap_or(0)
    }

    /// The numbers of a field.
    pub fn numbers(&self, name: &str) -> Result<Vec<u32>, AllocError> {
        let mut all = Vec::new(self.alloc);
        for word in self.text(name).split_ascii_whitespace() {
            all.push(word.parse().unwrap_or(0))?;
        }
        Ok(all)
    }

    /// The numbers of 64 bits of a field.
    pub fn words(&self, name: &str) -> Result<Vec<u64>, AllocError> {
        let mut all = Vec::new(self.alloc);
        for word in self.text(name).split_ascii_whitespace() {
            all.push(word.parse().unwrap_or(0))?;
        }
        Ok(all)
    }

    /// The bytes that a field spells in hexadecimal.
    pub fn bytes(&self, name: &str) -> Result<Vec<u8>, BadCase> {
        match hex::decode(self.alloc, self.text(name)) {
            Ok(bytes) => Ok(bytes),
            Err(_) => Err(BadCase::Unfit),
        }
    }

    /// The modulus that a field names.
    pub fn modulus(&self) -> Modulus {
        match self.text("modulus") {
            "first" => Modulus::First,
            "second" => Modulus::Second,
            _ => Modulus::Plain,
        }
    }

    /// The degree that a field says.
    pub fn degree(&self) -> Result<Degree, BadCase> {
        degree_of(self.number("degree") as usize)
    }

    /// The numbers of a field, reduced.
    pub fn residues(&self, modulus: Modulus, name: &str) -> Result<Vec<u64>, AllocError>
        ensures { IfOk result (λ v. AreBelow (value_of modulus) v.items) }
    {
        let mut all = Vec::new(self.alloc);
        for word in self.text(name).split_ascii_whitespace() {
            all.push(word.parse::<u64>().unwrap_or(0) % modulus.value())?;
        }
        Ok(all)
    }

    /// The polynomial whose coefficients a field lists.
    pub fn poly(&self, modulus: Modulus, name: &str) -> Result<Poly, BadCase>
        ensures { IfOk result (λ p. p.modulus ≡ modulus) }
    {
        let coeffs = self.residues(modulus, name)?;
        let degree = degree_of(coeffs.len())?;
        Ok(Poly::from_coeffs(self.alloc, modulus, degree, &coeffs)?)
    }

    fn wholes(&self, name: &str) -> Result<Vec<u128>, AllocError>
        ensures { IfOk result (λ v. AreBelow q v.items) }
    {
        let mut all = Vec::new(self.alloc);
        for word in self.text(name).split_ascii_whitespace() {
            all.push(word.parse::<u128>().unwrap_or(0) % CIPHER_MODULUS)?;
        }
        Ok(all)
    }

    /// The polynomial modulo q whose coefficients a field lists.
    pub fn pair(&self, name: &str) -> Result<Pair, BadCase> {
        let coeffs = self.wholes(name)?;
        let degree = degree_of(coeffs.len())?;
        Ok(Pair::split(self.alloc, degree, &coeffs)?)
    }
}

/// The degree of so many coefficients.
pub fn degree_of(count: usize) -> Result<Degree, BadCase>
    ensures { IfOk result (λ d. d ≡ count) }
{
    if count > 4096 {
        return Err(BadCase::Unfit);
    }
    match Degree::new(count as u32) {
        Some(degree) => Ok(degree),
        None => return Err(BadCase::Unfit),
    }
}
