ghost use Rattle.std.specs.Prelude.{◌≡◌, ℕ, ◌+◌, ◌-◌, ◌<◌, ◌≤◌, [], ◌∷◌, ◌++◌, List, Some, slice_get, length, take, drop, replicate, decimal, IsOk, OnOk, OnErr};
ghost use Rattle.std.specs.Borrow.{Array, Lends, sem};
ghost use Rattle.std.specs.Fmt.{signed_decimal};
ghost use Rattle.view_base.specs.Listed.{with_tail};
ghost use Rattle.view_base.specs.contracts.listing.Listing.{the_row};

use crate::memory::OutOfMemory;
use itoa::Buffer;
use std::alloc::Global;
use std::marker::Model;

/// A growing list. Contracts see its `items`, and `spare`: how many more it takes without memory.
#[derive(Drop)]
pub struct Listing<T> {
    list: Vec<T>,
}

impl<T> Model for Listing<T> {
    ghost use Rattle.std.specs.Prelude.{ℕ, ◌-◌, vec_capacity, vec_len};
    ghost use Rattle.view_base.specs.Listed.{Listed};

    ghost Value = { Listed T };

    ghost view = { λ a. record { items = a.list.items; spare = vec_capacity a.list - vec_len a.list } };
}

impl<T: Drop> Listing<T> {
    /// The empty list, which takes no memory.
    pub fn new(alloc: Global) -> Listing<T>
        ensures { result.items ≡ [] }
    {
        Listing {
            list: Vec::new(alloc),
        }
    }

    /// How many items the list has.
    pub fn len(&self) -> usize
        ensures { result ≡ length self.now.items }
    {
        self.list.len()
    }

    /// The item at place `i`, from 0.
    pub fn at(&self, i: usize) -> &T
        requires { i < length self.now.items }
        ensures { slice_get self.now.items i ≡ Some result.now }
    {
        &self.list[i]
    }

    /// The items as a slice.
    pub fn as_slice(&self) -> &[T]
        ensures { result.now ≡ self.now.items }
    {
        self.list.as_slice()
    }

    /// Appends one item. A refusal is want of memory and leaves the list as it was.
    pub fn push(&mut self, item: T) -> Result<(), OutOfMemory>
        ensures pushed { OnOk result (self.new.items ≡ self.old.items ++ item ∷ []) }
        ensures refused { OnErr result (self.new ≡ self.old) }
        ensures room { 1 ≤ self.old.spare → IsOk result }
        ensures spare { self.old.spare ≤ self.new.spare + 1 }
    {
        self.reserve(1)?;
        self.push_within(item);
        Ok(())
    }

    /// Appends one item within the room that the list has.
    pub fn push_within(&mut self, item: T)
        requires { 1 ≤ self.old.spare }
        ensures pushed { self.new.items ≡ self.old.items ++ item ∷ [] }
        ensures spare { self.old.spare ≤ self.new.spare + 1 }
    {
        self.list.push(item).unwrap();
    }

    /// Makes room for `more` further items. A refusal is want of memory and leaves the list as it
    /// was.
    pub fn reserve(&mut self, more: usize) -> Result<(), OutOfMemory>
        ensures same { self.new.items ≡ self.old.items }
        ensures refused { OnErr result (self.new ≡ self.old) }
        ensures enough { more ≤ self.old.spare → IsOk result }
        ensures room { OnOk result (more ≤ self.new.spare) }
        ensures kept { self.old.spare ≤ self.new.spare }
    {
        self.list.reserve(more)?;
        Ok(())
    }

    /// Keeps the first `kept` items, and the room of the others.
    pub fn cut(&mut self, kept: usize)
        requires { kept ≤ length self.old.items }
        ensures cut { self.new.items ≡ take kept self.old.items }
        ensures spare { self.old.spare + length self.old.items ≤ self.new.spare + kept }
    {
        self.list.truncate(kept);
    }

    /// The list of a vector's items, which takes no memory.
    pub fn from_vec(list: Vec<T>) -> Listing<T>
        ensures { result.items ≡ list.items }
    {
        Listing { list }
    }

    /// The items as a vector, which takes no memory.
    pub fn into_vec(self) -> Vec<T>
        ensures { result.items ≡ self.items }
    {
        self.list
    }
}

impl<T: Copy> Listing<T> {
    /// Appends a whole piece. A refusal is want of memory and leaves the list as it was.
    pub fn append(&mut self, piece: &[T]) -> Result<(), OutOfMemory>
        ensures appended { OnOk result (self.new.items ≡ self.old.items ++ piece.now) }
        ensures refused { OnErr result (self.new ≡ self.old) }
        ensures room { length piece.now ≤ self.old.spare → IsOk result }
        ensures spare { self.old.spare ≤ self.new.spare + length piece.now }
    {
        self.reserve(piece.len())?;
        self.append_within(piece);
        Ok(())
    }

    /// Appends a whole piece within the room that the list has.
    pub fn append_within(&mut self, piece: &[T])
        requires { length piece.now ≤ self.old.spare }
        ensures appended { self.new.items ≡ self.old.items ++ piece.now }
        ensures spare { self.old.spare ≤ self.new.spare + length piece.now }
    {
        self.list.extend_from_slice(piece).unwrap();
    }

    /// The items from a place on, to be written in place. Afterwards the list has what the slice
    /// was left with, and its room stays.
    pub fn tail_mut(&mut self, from: usize) -> &mut [T]
        requires { from ≤ length self.old.items }
        ensures* writes_back { sem 𝓛 (Lends (the_row T.row) (Array T.row 0) self.entry result (with_tail self.old from)) }
        ensures tail { result.now ≡ drop from self.old.items }
    {
        self.list.slice_mut(from..)
    }

    /// Appends `count` copies of an item within the room that the list has.
    pub fn extend_by(&mut self, count: usize, item: T)
        requires { count ≤ self.old.spare }
        ensures extended { self.new.items ≡ self.old.items ++ replicate count item }
        ensures spare { self.old.spare ≤ self.new.spare + count }
    {
        self.list.resize(self.list.len() + count, item).unwrap();
    }
}

impl Listing<u8> {
    /// Appends the decimal digits of a number within the room that the list has.
    pub fn append_decimal(&mut self, number: u64)
        requires { length (decimal number) ≤ self.old.spare }
        ensures appended { self.new.items ≡ self.old.items ++ decimal number }
        ensures spare { self.old.spare ≤ self.new.spare + length (decimal number) }
    {
        self.append_within(Buffer::new().format(number).as_bytes());
    }

    /// Appends the decimal digits of a signed number, after a `-` where it is below 0, within the
    /// room that the list has.
    pub fn append_signed(&mut self, number: i64)
        requires { length (signed_decimal number) ≤ self.old.spare }
        ensures appended { self.new.items ≡ self.old.items ++ signed_decimal number }
        ensures spare { self.old.spare ≤ self.new.spare + length (signed_decimal number) }
    {
        self.append_within(Buffer::new().format(number).as_bytes());
    }
}

/// A growing list of bytes.
pub type Bytes = Listing<u8>;

/// A growing list of 64-bit words.
pub type Words = Listing<u64>;
