use view_base::{Box3, Point};

/// A block: so many places from the first on, and the least box that holds the records there.
#[derive(Clone, Copy, Debug, PartialEq, Eq)]
pub struct Block {
    /// The first place, from 0.
    pub first: u32,
    /// How many places, 1 to 1024.
    pub count: u32,
    /// The least box of the records at these places, in the file's integer units.
    pub area: Box3,
}

/// The records of one block as they lie in memory, one after another in the order of places. The
/// three slices are equally long.
#[derive(Drop)]
pub struct BlockRecords<'a> {
    /// The number of each record.
    pub numbers: &'a [u32],
    /// The point of each record.
    pub points: &'a [Point],
    /// Whether each record is withheld.
    pub withheld: &'a [bool],
}
