//! A list, which contracts see as the list of its elements' values.
ghost use Rattle.std.specs.Prelude.{◌≡◌, List, [], ◌++◌, ◌∷◌, ℕ, IfOk, OnOk, OnErr, length, ◌<◌, get_or, slice_set};
ghost use Rattle.std.specs.Coded.{coded_list};

use std::alloc::{AllocError, AllocFailed, Global};
use std::marker::Model;
use std::mem::replace;

/// A list of values that keeps its allocator.
#[derive(Debug, Drop)]
pub struct Items<T> {
    inner: Vec<T>,
}

impl<T> Model for Items<T> {
    ghost Value = { List T };

    ghost coded = { coded_list T.code };

    ghost view = { λ t. t.inner.items };
}

impl<T> Items<T> {
    /// The elements of the vector.
    pub fn from_vec(inner: Vec<T>) -> Items<T>
        ensures { result ≡ inner.items }
    {
        Items { inner }
    }

    /// The elements as a vector.
    pub fn into_vec(self) -> Vec<T>
        ensures { result.items ≡ self }
    {
        let Items { inner } = self;
        inner
    }

    /// No elements. It takes no memory.
    pub fn new(alloc: Global) -> Items<T>
        ensures { result ≡ [] }
    {
        Items {
            inner: Vec::new(alloc),
        }
    }

    /// No elements, with room for so many.
    pub(crate) fn with_capacity(alloc: Global, capacity: usize) -> Result<Items<T>, AllocError>
        ensures { IfOk result (λ items. items ≡ []) }
    {
        Ok(Items {
            inner: Vec::with_capacity(alloc, capacity)?,
        })
    }

    pub(crate) fn allocator(&self) -> Global {
        *self.inner.allocator()
    }

    /// The elements as a slice.
    pub fn as_slice(&self) -> &[T]
        ensures { result.now ≡ self.now }
    {
        self.inner.as_slice()
    }

    /// Adds an element at the end. A refused growth leaves the list as it was. The first takes room for itself alone, as most lists
    /// of an entry have no more.
    pub fn push(&mut self, x: T) -> Result<(), AllocFailed<T>>
        ensures ok { OnOk result (self.new ≡ self.old ++ x ∷ []) }
        ensures err { OnErr result (self.new ≡ self.old) }
    {
        if self.inner.is_empty() && self.inner.reserve_exact(1).is_err() {
            return Err(AllocFailed { value: x });
        }
        self.inner.push(x)
    }

    /// Puts another element in the place of one, which it gives.
    pub(crate) fn replace_at(&mut self, index: usize, x: T) -> T
        requires { index < length self.old }
        ensures was { result ≡ get_or self.old index result }
        ensures now { self.new ≡ slice_set self.old index x }
    {
        replace(&mut self.inner[index], x)
    }
}
