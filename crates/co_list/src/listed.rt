//! Items in a row.
ghost use Rattle.std.specs.Prelude.{◌≡◌, ◌++◌, ◌↔◌, [], ◌∷◌, length, IfOk, OnErr, OnOk, IsTrue};

use std::alloc::{AllocError, Global};
use std::marker::Model;

/// A vector that contracts see as a list.
#[derive(Debug, Drop)]
pub struct Listed<T> {
    inner: Vec<T>,
}

impl<T> Model for Listed<T> {
    ghost use Rattle.std.specs.Prelude.{List};

    ghost Value = { List T };

    ghost view = { λ l. l.inner.items };
}

impl<T> Listed<T> {
    /// No items. It takes no memory.
    pub fn new(alloc: Global) -> Self
        ensures { result ≡ [] }
    {
        Listed {
            inner: Vec::new(alloc),
        }
    }

    /// No items, with memory taken for `room` of them.
    pub fn with_capacity(alloc: Global, room: usize) -> Result<Self, AllocError>
        ensures { IfOk result (λ l. l ≡ []) }
    {
        Ok(Listed {
            inner: Vec::with_capacity(alloc, room)?,
        })
    }

    /// The items of a vector, with no copy.
    pub fn from_vec(inner: Vec<T>) -> Self
        ensures { result ≡ inner.items }
    {
        Listed { inner }
    }

    /// The items as a slice.
    pub fn as_slice(&self) -> &[T]
        ensures { result.now ≡ self.now }
    {
        self.inner.as_slice()
    }

    /// How many items there are.
    pub fn len(&self) -> usize
        ensures { result ≡ length self.now }
    {
        self.inner.len()
    }

    /// Whether there is no item.
    pub fn is_empty(&self) -> bool
        ensures { IsTrue result ↔ (self.now ≡ []) }
    {
        self.inner.is_empty()
    }
}

impl<T: Drop> Listed<T> {
    /// Adds one item at the end, or changes nothing.
    pub fn push(&mut self, item: T) -> Result<(), AllocError>
        ensures ok { OnOk result (self.new ≡ self.old ++ item ∷ []) }
        ensures err { OnErr result (self.new ≡ self.old) }
    {
        self.inner.push(item)?;
        Ok(())
    }
}

impl<T: Copy> Listed<T> {
    /// A copy of a slice.
    pub fn copy_of(alloc: Global, items: &[T]) -> Result<Self, AllocError>
        ensures { IfOk result (λ l. l ≡ items.now) }
    {
        let mut list = Listed::with_capacity(alloc, items.len())?;
        list.append(items)?;
        Ok(list)
    }

    /// Adds copies of items at the end, or changes nothing.
    pub fn append(&mut self, items: &[T]) -> Result<(), AllocError>
        ensures ok { OnOk result (self.new ≡ self.old ++ items.now) }
        ensures err { OnErr result (self.new ≡ self.old) }
    {
        self.inner.extend_from_slice(items)
    }
}
