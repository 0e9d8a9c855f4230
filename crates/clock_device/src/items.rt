ghost use Rattle.std.specs.Prelude.{◌≡◌, [], ◌∷◌, ◌++◌, ◌<◌, ◌↔◌, ◌+◌, ◌-◌, ◌≤◌, length, replicate};
ghost use Rattle.std.specs.Prelude.{slice_set, IsTrue, OnOk, OnErr, IfOk, vec_len, vec_capacity};
ghost use Rattle.std.specs.Borrow.{sem};
ghost use Rattle.clock_device.specs.{Lends.{lends_slice}, Bounded.{BoundedList}};

use std::alloc::{AllocError, AllocFailed, Global};
use std::marker::Model;
use std::ops::{DerefSlice, DerefSliceMut};
use thiserror::Error;

/// A list that owns its items and can be read as a slice. In contracts, it is the list of its
/// items.
///
/// The lists of the auction have names of their own for this type, such as [`Text`] for bytes.
#[derive(Clone, Drop)]
pub struct Items<T> {
    inner: Vec<T>,
}

/// Bytes, such as those of a name, a page, or a document.
pub type Text = Items<u8>;

impl<T> Model for Items<T> {
    ghost use Rattle.std.specs.Prelude.{List};

    ghost Value = { List T };

    ghost view = { λ a. a.inner.items };
}

impl<T> Items<T> {
    /// Creates an empty list. Allocates nothing.
    pub fn new(alloc: Global) -> Items<T>
        ensures { result ≡ [] }
    {
        Items::from_vec(Vec::new(alloc))
    }

    /// Creates an empty list with capacity for `capacity` items, which can then be added without
    /// further allocation. May return `NoMemory`.
    pub fn with_capacity(alloc: Global, capacity: usize) -> Result<Bounded<T>, NoMemory>
        ensures { IfOk result (λ list. list ≡ record { items = []; room = capacity }) }
    {
        Ok(Bounded {
            inner: Vec::with_capacity(alloc, capacity)?,
        })
    }

    /// Makes a list of a vector's items, without a copy.
    pub fn from_vec(items: Vec<T>) -> Items<T>
        ensures { result ≡ items.items }
    {
        Items { inner: items }
    }

    /// Adds an item at the end. May return `NoMemory`; then the item is dropped, and the list is
    /// unchanged.
    pub fn push(&mut self, item: T) -> Result<(), NoMemory>
    where
        T: Drop,
        ensures ok { OnOk result (self.new ≡ self.old ++ item ∷ []) }
        ensures err { OnErr result (self.new ≡ self.old) }
    {
        self.inner.push(item)?;
        Ok(())
    }

    /// Returns the number of items.
    pub fn len(&self) -> usize
        ensures { result ≡ length self.now }
    {
        self.inner.len()
    }

    /// Returns whether there is no item.
    pub fn is_empty(&self) -> bool
        ensures { IsTrue result ↔ (self.now ≡ []) }
    {
        self.inner.is_empty()
    }

    /// Returns the items in order.
    pub fn as_slice(&self) -> &[T]
        ensures { result.now ≡ self.now }
    {
        self.inner.as_slice()
    }

    /// Returns the items in order, for changes in place.
    pub fn as_mut_slice(&mut self) -> &mut [T]
        ensures* writes_back { sem 𝓛 (lends_slice T.row self.entry result) }
        ensures value { result.now ≡ self.old }
    {
        self.inner.as_mut_slice()
    }

    /// Replaces the item at index `place`, and drops the old one. Requires that there is one.
    pub fn set(&mut self, place: usize, item: T)
    where
        T: Drop,
        requires { place < length self.old }
        ensures { self.new ≡ slice_set self.old place item }
    {
        self.inner[place] = item;
    }
}

impl<T> DerefSlice for Items<T> {
    type Elem = T;

    ghost deref_gives = { λ items slice. slice ≡ items };

    fn deref(&self) -> &[T] {
        self.as_slice()
    }
}

impl<T> DerefSliceMut for Items<T> {
    fn deref_mut(&mut self) -> &mut [T]
        ensures* writes_back { sem 𝓛 (lends_slice T.row self.entry result) }
        ensures value { result.now ≡ self.old }
    {
        self.as_mut_slice()
    }
}

impl<T: Copy> Items<T> {
    /// Copies the items of a slice. May return `NoMemory`.
    pub fn from_slice(alloc: Global, items: &[T]) -> Result<Items<T>, NoMemory>
        ensures { IfOk result (λ copy. copy ≡ items.now) }
    {
        Ok(Items::from_vec(Vec::from_slice(alloc, items)?))
    }

    /// Appends the items of a slice, all or none. May return `NoMemory`; then the list is
    /// unchanged.
    pub fn extend_from_slice(&mut self, items: &[T]) -> Result<(), NoMemory>
        ensures ok { OnOk result (self.new ≡ self.old ++ items.now) }
        ensures err { OnErr result (self.new ≡ self.old) }
    {
        self.inner.extend_from_slice(items)?;
        Ok(())
    }

    /// Returns a copy of the list. May return `NoMemory`.
    pub fn copy(&self, alloc: Global) -> Result<Items<T>, NoMemory>
        ensures { IfOk result (λ copy. copy ≡ self.now) }
    {
        Items::from_slice(alloc, self.as_slice())
    }
}

impl Items<u64> {
    /// Returns a list of `count` zeros. May return `NoMemory`.
    pub fn zeros(alloc: Global, count: usize) -> Result<Items<u64>, NoMemory>
        ensures { IfOk result (λ zeros. zeros ≡ replicate count 0) }
    {
        Ok(Items::from_vec(vec![in alloc; 0; count]?))
    }
}

/// A list with capacity that is allocated when it is made, so that adding an item allocates nothing
/// and cannot fail. In contracts, it is its items and the number of items that can be added.
#[derive(Drop)]
pub struct Bounded<T> {
    inner: Vec<T>,
}

impl<T> Model for Bounded<T> {
    ghost Value = { BoundedList T };

    ghost view = { λ b.
        record { items = b.inner.items; room = vec_capacity b.inner - vec_len b.inner } };
}

impl<T> Bounded<T> {
    /// Adds an item at the end. Requires capacity for it. Allocates nothing.
    pub fn push(&mut self, item: T)
    where
        T: Drop,
        requires { 1 ≤ self.old.room }
        ensures items { self.new.items ≡ self.old.items ++ item ∷ [] }
        ensures room { self.old.room ≤ self.new.room + 1 }
    {
        self.inner.push(item).unwrap();
    }

    /// Returns the items in order.
    pub fn as_slice(&self) -> &[T]
        ensures { result.now ≡ self.now.items }
    {
        self.inner.as_slice()
    }

    /// Makes a list of the items, without a copy. Unused capacity stays allocated.
    pub fn into_items(self) -> Items<T>
        ensures { result ≡ self.items }
    {
        let Bounded { inner } = self;
        Items::from_vec(inner)
    }
}

impl<T: Copy> Bounded<T> {
    /// Appends the items of a slice. Requires capacity for them. Allocates nothing.
    pub fn extend_from_slice(&mut self, items: &[T])
        requires { length items.now ≤ self.old.room }
        ensures items { self.new.items ≡ self.old.items ++ items.now }
        ensures room { self.old.room ≤ self.new.room + length items.now }
    {
        self.inner.extend_from_slice(items).unwrap();
    }
}

/// The error of a refused allocation. The values that the call would have changed have their old
/// contents, although their capacity may have grown.
#[derive(Clone, Copy, Debug, PartialEq, Eq, Error)]
#[error("out of memory")]
pub struct NoMemory;

impl From<AllocError> for NoMemory {
    fn from(_e: AllocError) -> NoMemory {
        NoMemory
    }
}

impl<T: Drop> From<AllocFailed<T>> for NoMemory {
    fn from(_e: AllocFailed<T>) -> NoMemory {
        NoMemory
    }
}
