ghost use Rattle.std.specs.Prelude.{◌≡◌};
ghost use Rattle.std.specs.Arc.{arc_value};

use class_pages::Classes;
use std::marker::Model;
use std::sync::Arc;
use view_base::Version;

/// A version that its store keeps until this is given back by `unpin`. It can be neither dropped nor
/// copied. Contracts see the number of the caller that pinned it, the version and its classes.
pub struct Pin {
    pub(crate) who: u32,
    pub(crate) version: Version,
    pub(crate) classes: Arc<Classes>,
}

impl Model for Pin {
    ghost use Rattle.std.specs.Arc.{arc_value};
    ghost use Rattle.version_store.specs.Store.{Pinned};

    ghost Value = { Pinned };

    ghost view = { λ p. record { who = p.who; version = p.version; classes = arc_value p.classes } };
}

impl Pin {
    /// The number of the caller that pinned it.
    pub fn who(&self) -> u32
        ensures { result ≡ self.now.who }
    {
        self.who
    }

    /// The version that is pinned.
    pub fn version(&self) -> Version
        ensures { result ≡ self.now.version }
    {
        self.version
    }

    /// The classes of that version.
    pub fn classes(&self) -> &Classes
        ensures { result.now ≡ self.now.classes }
    {
        &self.classes
    }
}
