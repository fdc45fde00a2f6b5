ghost use Rattle.std.specs.Prelude.{◌≡◌};
ghost use Rattle.std.specs.List.{position};
ghost use Rattle.version_store.specs.Store.{is_version};

use class_pages::Classes;
use std::sync::Arc;
use view_base::Version;

/// A version that the store keeps: the newest one, or one with pins that are out.
#[derive(Drop)]
pub struct Held {
    /// How many edits were published before it.
    pub version: Version,
    /// How many pins of it are out.
    pub pins: u64,
    /// The class of each record in it.
    pub classes: Arc<Classes>,
}

/// The place of a version among those that are held.
pub(crate) fn place_of(held: &[Held], version: Version) -> Option<usize>
    ensures { result ≡ position (is_version version) held.now }
{
    held.iter().position(|held| held.version == version)
}
