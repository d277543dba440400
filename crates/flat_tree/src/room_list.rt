ghost use Rattle.std.specs.Prelude.{◌≡◌, ◌<◌, ◌+◌, ◌≤◌, List, [], ◌∷◌, ◌++◌, length, take, slice_get};

use crate::limits::MAX_PLACES;
use std::marker::Model;

/// A list of at most `N` elements, in place.
#[derive(Drop)]
pub struct RoomList<T: Copy, const N: usize> {
    items: [T; N],
    len: usize,
}

impl<T: Copy, const N: usize> Model for RoomList<T, N> {
    ghost Value = { List T };

    ghost view = { λ l. take l.len l.items };

    ghost invariant = { λ l. (l.len ≤ N) × (length l.items ≡ N) };
}

/// Node numbers, left to right: room for the longest cover of any range of blocks.
pub type Places = RoomList<u64, MAX_PLACES>;

impl<T: Copy, const N: usize> RoomList<T, N> {
    /// The empty list; `blank` fills the free places.
    pub fn new(blank: T) -> Self
        ensures { result ≡ [] }
    {
        RoomList {
            items: [blank; N],
            len: 0,
        }
    }

    /// How many elements there are.
    pub fn len(&self) -> usize
        ensures len { result ≡ length self.now }
        ensures room { result ≤ N }
    {
        self.len
    }

    /// Adds an element at the end.
    pub fn push(&mut self, item: T)
        requires room { length self.old < N }
        ensures { self.new ≡ self.old ++ item ∷ [] }
    {
        self.items[self.len] = item;
        self.len += 1;
    }

    /// Takes off the last element.
    pub fn pop(&mut self) -> T
        requires some { 0 < length self.old }
        ensures { self.old ≡ self.new ++ result ∷ [] }
    {
        self.len -= 1;
        self.items[self.len]
    }

    /// Adds a list at the end.
    pub fn extend(&mut self, more: &[T])
        requires room { length self.old + length more.now ≤ N }
        ensures { self.new ≡ self.old ++ more.now }
    {
        let end = self.len + more.len();
        let free = &mut self.items[..];
        free[self.len..end].copy_from_slice(more);
        self.len = end;
    }

    /// The element at a place.
    pub fn at(&self, place: usize) -> T
        requires within { place < length self.now }
        ensures { slice_get self.now place ≡ Some result }
    {
        let items = &self.items;
        items[place]
    }

    /// The same list again.
    pub fn copy(&self) -> Self
        ensures { result ≡ self.now }
    {
        RoomList {
            items: self.items,
            len: self.len,
        }
    }

    /// The elements.
    pub fn as_slice(&self) -> &[T]
        ensures items { result.now ≡ self.now }
        ensures room { length result.now ≤ N }
    {
        &self.items[..self.len]
    }

    /// Keeps the first `len` elements.
    pub fn truncate(&mut self, len: usize)
        requires within { len ≤ length self.old }
        ensures { self.new ≡ take len self.old }
    {
        self.len = len;
    }

    /// Takes off every element.
    pub fn clear(&mut self)
        ensures { self.new ≡ [] }
    {
        self.len = 0;
    }
}
