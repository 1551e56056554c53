//! A library made ready for replies.

ghost use Rattle.std.specs.Prelude.{◌≡◌, ◌<◌, IfOk};
ghost use Rattle.co_bucket.specs.Lists.{bucket_count};
ghost use Rattle.co_library.specs.Libraries.{IsLibrary};
ghost use Rattle.co_noise.specs.Bounds.{HasRoom};
ghost use Rattle.co_rounds.specs.Serving.{weights_of, bucket_table, bin_table};

use crate::tables::{bin_rows, bucket_rows, weights_of};
use co_library::Library;
use co_matvec::Weights;
use co_noise::Tested;
use co_pir::Rows;
use std::alloc::{AllocError, Global};
use std::marker::Model;

/// A library, with its weights, the records of its buckets and its bins ready for replies.
#[derive(Drop)]
pub struct Loaded {
    library: Library,
    tested: Tested,
    weights: Weights,
    buckets: Vec<Rows>,
    bins: Rows,
}

impl Model for Loaded {
    ghost use Rattle.co_library.specs.Libraries.{Parts};
    ghost use Rattle.co_server.specs.Loaded.{IsLoaded};

    ghost Value = { Parts };

    ghost view = { λ l. l.library };

    ghost invariant = { λ l. IsLoaded l.library l.tested l.weights l.buckets.items l.bins };
}

impl Loaded {
    /// The library made ready. Its numbers passed the test.
    pub fn new(alloc: Global, library: Library, tested: Tested) -> Result<Loaded, AllocError>
        requires { tested ≡ library.shape }
        ensures { IfOk result (λ l. l ≡ library) }
    {
        let _ = library.shape();
        let _ = tested.shape();
        let weights = weights_of(alloc, &library)?;
        let buckets = bucket_rows(alloc, &library, &tested)?;
        let bins = bin_rows(alloc, &library, &tested)?;
        Ok(Loaded {
            library,
            tested,
            weights,
            buckets,
            bins,
        })
    }

    /// The library itself.
    pub fn library(&self) -> &Library
        ensures value { result.now ≡ self.now }
        ensures library { IsLibrary self.now }
        ensures room { HasRoom self.now.shape }
    {
        &self.library
    }

    /// Its numbers, which passed the test.
    pub fn tested(&self) -> &Tested
        ensures { result.now ≡ self.now.shape }
    {
        &self.tested
    }

    /// The weights, for scores.
    pub(crate) fn weights(&self) -> &Weights
        ensures { result.now ≡ weights_of self.now }
    {
        &self.weights
    }

    /// The records of a bucket.
    pub(crate) fn bucket(&self, bucket: usize) -> &Rows
        requires { bucket < bucket_count self.now.shape.hits }
        ensures { result.now ≡ bucket_table self.now bucket }
    {
        let buckets = self.buckets.as_slice();
        &buckets[bucket]
    }

    /// The bins, for the retrieval of one.
    pub(crate) fn bins(&self) -> &Rows
        ensures { result.now ≡ bin_table self.now }
    {
        &self.bins
    }
}
