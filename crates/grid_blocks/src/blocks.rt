ghost use Rattle.std.specs.Prelude.{◌≡◌, ◌+◌, ◌<◌, ◌≤◌, ◌^◌, IfNone, IfSome, IsSome, None, Some, [], is_some, length, slice_get, slice_index};
ghost use Rattle.std.specs.List.{range_with_len};
ghost use Rattle.grid_blocks.specs.Blocks.{AreInBlock, AreTold, IsCut};
ghost use Rattle.view_meaning.specs.Survey.{point_of, withheld_of};

use crate::block::{Block, BlockRecords};
use crate::copies::Copies;
use std::alloc::Global;
use std::marker::Model;
use view_base::Listing;

/// The blocks of a survey. Contracts see the blocks, the record at each place, and the records'
/// points and withheld bits where they are held in the order of places.
#[derive(Drop)]
pub struct Blocks {
    list: Listing<Block>,
    records: u32,
    copies: Option<Copies>,
}

impl Model for Blocks {
    ghost use Rattle.std.specs.Prelude.{◌≡◌, ◌<◌, ◌^◌, length};
    ghost use Rattle.grid_blocks.specs.Blocks.{Blocked, IsCut, copied_of, members_of};

    ghost Value = { Blocked };

    ghost view = { λ a. record { blocks = a.list.items; members = members_of a.records a.copies; copies = copied_of a.copies } };

    ghost invariant = { λ a. (IsCut a.list.items a.records) × (length (members_of a.records a.copies) ≡ a.records) × (a.records < 2 ^ 32) };
}

impl Blocks {
    /// No blocks of no records.
    pub(crate) fn none(alloc: Global) -> Blocks
        ensures list { result.blocks ≡ [] }
        ensures members { result.members ≡ [] }
        ensures copies { result.copies ≡ Some (record { points = []; withheld = [] }) }
    {
        Blocks {
            list: Listing::new(alloc),
            records: 0,
            copies: Some(Copies::none(alloc)),
        }
    }

    /// Blocks over the places of copied records.
    pub(crate) fn of_copies(list: Listing<Block>, copies: Copies) -> Blocks
        requires few { length copies.numbers.items < 2 ^ 32 }
        requires cut { IsCut list.items (length copies.numbers.items) }
        ensures list { result.blocks ≡ list.items }
        ensures members { result.members ≡ copies.numbers.items }
        ensures copies { result.copies ≡ Some (record { points = copies.points.items; withheld = copies.withheld.items }) }
    {
        let records = copies.numbers.len() as u32;
        Blocks {
            list,
            records,
            copies: Some(copies),
        }
    }

    /// Blocks of so many records in the order of numbers.
    pub(crate) fn of_numbers(list: Listing<Block>, records: u32) -> Blocks
        requires { IsCut list.items records }
        ensures list { result.blocks ≡ list.items }
        ensures members { result.members ≡ range_with_len 0 records }
        ensures copies { result.copies ≡ None }
    {
        Blocks {
            list,
            records,
            copies: None,
        }
    }

    /// How many blocks there are.
    pub fn count(&self) -> u32
        ensures count { result ≡ length self.now.blocks }
        ensures cut { IsCut self.now.blocks (length self.now.members) }
        ensures few { length self.now.blocks ≤ length self.now.members }
    {
        self.list.len() as u32
    }

    /// Block `k`.
    pub fn block(&self, k: u32) -> &Block
        requires { k < length self.now.blocks }
        ensures block { slice_get self.now.blocks k ≡ Some result.now }
        ensures within { result.now.first + result.now.count ≤ length self.now.members }
        ensures small { length self.now.members < 2 ^ 32 }
        ensures some { 1 ≤ result.now.count }
        ensures few { result.now.count ≤ 1024 }
    {
        self.list.at(k as usize)
    }

    /// The number of the record at a place.
    pub fn member(&self, place: u32) -> u32
        requires { place < length self.now.members }
        ensures { result ≡ slice_index self.now.members place }
    {
        match &self.copies {
            Some(copies) => copies.numbers[place as usize],
            None => place,
        }
    }

    /// The records of block `k` as they lie in memory, or `None` where no records are copied: then
    /// the record at each place is that of this number.
    pub fn records(&self, k: u32) -> Option<BlockRecords<'_>>
        requires { k < length self.now.blocks }
        ensures held { is_some result ≡ is_some self.now.copies }
        ensures numbers { IfSome result (λ records. AreInBlock self.now k records.numbers.now) }
        ensures points { IfSome result (λ records. AreTold point_of self.now records.numbers.now records.points.now) }
        ensures withheld { IfSome result (λ records. AreTold withheld_of self.now records.numbers.now records.withheld.now) }
        ensures none { IfNone result (self.now.members ≡ range_with_len 0 (length self.now.members)) }
    {
        let block = self.list.at(k as usize);
        match &self.copies {
            Some(copies) => Some(copies.part(block.first as usize, block.count as usize)),
            None => None,
        }
    }
}
