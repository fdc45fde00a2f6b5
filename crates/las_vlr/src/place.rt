use view_base::Listing;

/// Where a variable length record stands, or an extended one: its header begins at byte `at` of
/// the file, and `length` bytes come after that header.
#[derive(Clone, Copy, Debug, PartialEq, Eq)]
pub struct VlrPlace {
    pub at: u64,
    pub length: u64,
}

/// The places of a file's records in their order.
pub type VlrList = Listing<VlrPlace>;
