//! What the proofs know of a frame and of a seat. No value of a view is made: it takes no bytes.

/// How large a frame is: its pixels, the numbers that can be claimed, and how many claims may
/// find nothing left.
#[derive(Clone, Copy)]
pub(crate) struct Size {
    pub(crate) pixels: u32,
    pub(crate) blocks: u32,
    pub(crate) ends: u32,
}

/// What a seat did and may do. A clause reads an array as a list, of any length.
pub(crate) struct View {
    /// The pixel and the value of each plot, in order.
    pub(crate) plots: [(u32, u64); 0],
    /// The numbers claimed, in order.
    pub(crate) claims: [u32; 0],
    /// How many of its claims may still find nothing left.
    pub(crate) ends: u32,
    /// Whether it is the seat that the others were split off from.
    pub(crate) root: bool,
    /// How many seats were split off and not joined back.
    pub(crate) out: u32,
    /// False for what is left of a seat that was joined.
    pub(crate) live: bool,
}
