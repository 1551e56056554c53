//! What a worker adds, rotation by rotation.

ghost use Rattle.std.specs.Prelude.{◌≡◌, ◌/◌, ◌<◌, length, All, IfOk, OnOk};
ghost use Rattle.co_math.specs.Polynomials.{unit};
ghost use Rattle.co_rns.specs.Spectra.{IsSpectrumOf, spectrum_degree};
ghost use Rattle.co_bfv.specs.Ciphertexts.{Ciphertext, ciphertext_degree};
ghost use Rattle.co_spectra.specs.Values.{AreCipherValues, AreOfDegree};
ghost use Rattle.co_matvec.specs.Sums.{AreAdded, AreEmpty, AreTurnedBack, IsAdded};
ghost use Rattle.co_matvec.specs.Units.{AddsDiagonal, AddsRotation};
ghost use Rattle.co_matvec.specs.Weights.{document_blocks, keyword_blocks};

use crate::diagonals::diagonal;
use crate::weights::Weights;
use co_bfv::Cipher;
use co_rns::{PairSpectrum, Tables};
use co_rot::Visitor;
use co_spectra::{CipherSpectrum, CipherSum};
use std::alloc::{AllocError, Global};
use std::marker::Model;

/// Adds a rotation times the diagonal polynomial of `(a, k, i)`. The room is scratch.
fn add_diagonal(
    alloc: Global,
    weights: &Weights,
    turned: &CipherSpectrum,
    a: usize,
    k: usize,
    i: usize,
    sum: &mut CipherSum,
    room: &mut PairSpectrum,
) -> Result<(), AllocError>
    requires block { a < document_blocks weights.now }
    requires word { k < keyword_blocks weights.now }
    requires within { i < weights.now.degree / 2 }
    requires turned_degree { AreOfDegree weights.now.degree turned.now }
    requires sum_degree { sum.old.degree ≡ weights.now.degree }
    requires room_degree { spectrum_degree room.old ≡ weights.now.degree }
    ensures adds { OnOk result ((c : Ciphertext) → AreCipherValues weights.now.degree c turned.now
        → AddsDiagonal weights.now a k i c sum.old sum.new) }
    ensures degree { sum.new.degree ≡ sum.old.degree }
    ensures room_degree { spectrum_degree room.new ≡ weights.now.degree }
{
    let _ = weights.degree();
    match diagonal(alloc, weights, a, k, i)? {
        None => Ok(()),
        Some(plain) => {
            sum.make_room(room, weights.one());
            sum.add_product(turned, &plain);
            Ok(())
        }
    }
}

/// Adds a rotation of the query of keyword block `k`, times its diagonal polynomials, to the sum of
/// each reply. The room is scratch.
fn add_rotation(
    alloc: Global,
    weights: &Weights,
    cipher: &Cipher,
    k: usize,
    i: usize,
    sums: &mut [CipherSum],
    room: &mut PairSpectrum,
) -> Result<(), AllocError>
    requires word { k < keyword_blocks weights.now }
    requires within { i < weights.now.degree / 2 }
    requires turned_degree { ciphertext_degree cipher.now ≡ weights.now.degree }
    requires count { length sums.old ≡ document_blocks weights.now }
    requires degrees { All (λ s. s.degree ≡ weights.now.degree) sums.old }
    requires room_degree { spectrum_degree room.old ≡ weights.now.degree }
    ensures adds { OnOk result (AddsRotation weights.now k i cipher.now sums.old sums.new) }
    ensures degrees { All (λ s. s.degree ≡ weights.now.degree) sums.new }
    ensures room_degree { spectrum_degree room.new ≡ weights.now.degree }
{
    let turned = CipherSpectrum::new(alloc, weights.tables(), cipher)?;
    for a in 0..sums.len() {
        add_diagonal(alloc, weights, &turned, a, k, i, &mut sums[a], room)?;
    }
    Ok(())
}

/// The sum of no products for each document block.
fn empty_sums(alloc: Global, weights: &Weights) -> Result<Vec<CipherSum>, AllocError>
    ensures count { IfOk result (λ sums. length sums.items ≡ document_blocks weights.now) }
    ensures empty { IfOk result (λ sums. AreEmpty weights.now.degree sums.items) }
{
    let blocks = weights.document_blocks();
    let mut sums = Vec::with_capacity(alloc, blocks)?;
    for a in 0..blocks {
        sums.push(CipherSum::zero(alloc, weights.degree())?)?;
    }
    Ok(sums)
}

/// Adds to each sum the one at its place among others. It takes no memory. The room is scratch,
/// `one` has the values of 1.
fn add_sums(
    n: usize,
    sums: &mut [CipherSum],
    others: &[CipherSum],
    room: &mut PairSpectrum,
    one: &PairSpectrum,
)
    requires count { length others.now ≡ length sums.old }
    requires degrees { All (λ s. s.degree ≡ n) sums.old }
    requires other_degrees { All (λ s. s.degree ≡ n) others.now }
    requires room_degree { spectrum_degree room.old ≡ n }
    requires one_is { IsSpectrumOf n (unit n) one.now }
    ensures added { AreAdded sums.old others.now sums.new }
    ensures room_degree { spectrum_degree room.new ≡ n }
{
    for a in 0..sums.len() {
        add_sum(n, &mut sums[a], &others[a], room, one);
    }
}

/// Adds another sum.
fn add_sum(
    n: usize,
    sum: &mut CipherSum,
    other: &CipherSum,
    room: &mut PairSpectrum,
    one: &PairSpectrum,
)
    requires degree { sum.old.degree ≡ n }
    requires other_degree { other.now.degree ≡ n }
    requires room_degree { spectrum_degree room.old ≡ n }
    requires one_is { IsSpectrumOf n (unit n) one.now }
    ensures sum { IsAdded sum.old other.now sum.new }
    ensures room_degree { spectrum_degree room.new ≡ n }
{
    sum.make_room(room, one);
    sum.add_in(other, room, one);
}

/// The ciphertexts that the sums are.
fn turned_back(
    alloc: Global,
    tables: &Tables,
    sums: &[CipherSum],
) -> Result<Vec<Cipher>, AllocError>
    requires { All (λ s. s.degree ≡ tables.now) sums.now }
    ensures { IfOk result (λ replies. AreTurnedBack tables.now (length sums.now)
        sums.now replies.items) }
{
    let mut replies = Vec::with_capacity(alloc, sums.len())?;
    for a in 0..sums.len() {
        replies.push(sums[a].cipher(alloc, tables)?)?;
    }
    Ok(replies)
}

/// A worker's sums, one for each document block, and the keyword block whose rotations it adds.
#[derive(Drop)]
pub(crate) struct Sums<'w> {
    alloc: Global,
    weights: &'w Weights,
    block: usize,
    sums: Vec<CipherSum>,
    room: PairSpectrum,
}

impl<'w> Model for Sums<'w> {
    ghost use Rattle.co_matvec.specs.Units.{Summing, AreHeld};

    ghost Value = { Summing };

    ghost view = { λ s. record { weights = s.weights.now; block = s.block; sums = s.sums.items } };

    ghost invariant = { λ s. AreHeld s.weights.now s.block s.sums.items s.room };
}

impl<'w> Sums<'w> {
    /// The sums of no unit.
    pub(crate) fn none(alloc: Global, weights: &'w Weights) -> Result<Sums<'w>, AllocError>
        ensures weights { IfOk result (λ s. s.weights ≡ weights.now) }
        ensures count { IfOk result (λ s. length s.sums ≡ document_blocks weights.now) }
        ensures empty { IfOk result (λ s. AreEmpty weights.now.degree s.sums) }
    {
        let _ = weights.keyword_blocks();
        let sums = empty_sums(alloc, weights)?;
        let room = PairSpectrum::zero(alloc, weights.degree())?;
        Ok(Sums {
            alloc,
            weights,
            block: 0,
            sums,
            room,
        })
    }

    /// The next rotations are of this keyword block.
    pub(crate) fn begin(&mut self, block: usize)
        requires { block < keyword_blocks self.old.weights }
        ensures { self.new ≡ record {
          weights = self.old.weights;
          block = block;
          sums = self.old.sums;
        } }
    {
        self.block = block;
    }

    /// Adds what another worker has.
    pub(crate) fn merge(&mut self, other: &Sums)
        requires { other.now.weights ≡ self.old.weights }
        ensures weights { self.new.weights ≡ self.old.weights }
        ensures sums { AreAdded self.old.sums other.now.sums self.new.sums }
    {
        let n = self.weights.degree().get() as usize;
        add_sums(
            n,
            &mut self.sums,
            &other.sums,
            &mut self.room,
            self.weights.one(),
        );
    }

    /// The ciphertexts that the sums are.
    pub(crate) fn replies(&self) -> Result<Vec<Cipher>, AllocError>
        ensures { IfOk result (λ replies. AreTurnedBack self.now.weights.degree
            (length self.now.sums) self.now.sums replies.items) }
    {
        turned_back(self.alloc, self.weights.tables(), &self.sums)
    }
}

impl<'w> Visitor for Sums<'w> {
    ghost use Rattle.co_matvec.specs.Units.{Visits};

    ghost visits = { Visits };

    ghost degree = { λ s. s.weights.degree };

    fn visit(&mut self, rotation: u32, cipher: &Cipher) -> Result<(), AllocError> {
        add_rotation(
            self.alloc,
            self.weights,
            cipher,
            self.block,
            rotation as usize,
            &mut self.sums,
            &mut self.room,
        )
    }
}
