ghost use Rattle.std.specs.Prelude.{◌≡◌, ◌<◌, ◌^◌, IfOk, OnErr, length, slice_index};
ghost use Rattle.std.specs.Arc.{arc_value};
ghost use Rattle.class_pages.specs.Choosing.{IsPicked};
ghost use Rattle.class_pages.specs.Drafts.{classes_on};

use crate::chooser::Chooser;
use crate::classes::Classes;
use crate::page::{PAGE, Page};
use std::alloc::Global;
use std::marker::Model;
use std::sync::Arc;
use view_base::{OutOfMemory, Point};

/// A page of a draft: one that versions share, or the draft's own copy of one.
#[derive(Drop)]
pub(crate) enum DraftPage {
    Shared(Arc<Page>),
    Own(Page),
}

impl DraftPage {
    /// The classes on the page.
    fn as_slice(&self) -> &[u8]
        ensures { result.now ≡ classes_on self.now }
    {
        match self {
            DraftPage::Shared(page) => page.as_slice(),
            DraftPage::Own(page) => page.as_slice(),
        }
    }

    /// Gives the class at a place the one that is picked for a point, and answers how many classes
    /// change. Where none does the page is what it was, shared or not.
    #[inline]
    fn change<T: Chooser>(
        &mut self,
        alloc: Global,
        place: usize,
        p: Point,
        chooser: &T,
    ) -> Result<u64, OutOfMemory>
        requires { place < length (classes_on self.old) }
        ensures picked { IfOk result (λ changed.
            IsPicked (T.picks chooser.now) p place (classes_on self.old) (classes_on self.new) changed) }
        ensures byte { T.picks chooser.now p (slice_index (classes_on self.old) place) < 256 }
        ensures left { IfOk result (λ changed. changed ≡ 0 → self.new ≡ self.old) }
        ensures refused { OnErr result (self.new ≡ self.old) }
    {
        if let DraftPage::Own(page) = self {
            return Ok(page.change(place, p, chooser));
        }
        self.change_copied(alloc, place, p, chooser)
    }

    /// `change` of a page that is copied where the class changes, and stays what it was for those
    /// who share it.
    fn change_copied<T: Chooser>(
        &mut self,
        alloc: Global,
        place: usize,
        p: Point,
        chooser: &T,
    ) -> Result<u64, OutOfMemory>
        requires { place < length (classes_on self.old) }
        ensures picked { IfOk result (λ changed.
            IsPicked (T.picks chooser.now) p place (classes_on self.old) (classes_on self.new) changed) }
        ensures byte { T.picks chooser.now p (slice_index (classes_on self.old) place) < 256 }
        ensures left { IfOk result (λ changed. changed ≡ 0 → self.new ≡ self.old) }
        ensures refused { OnErr result (self.new ≡ self.old) }
    {
        let class = self.as_slice()[place];
        if chooser.choose(p, class) == class {
            return Ok(0);
        }
        let mut page = Page::copied(alloc, self.as_slice())?;
        let changed = page.change(place, p, chooser);
        *self = DraftPage::Own(page);
        Ok(changed)
    }

    /// The page, to be shared.
    fn into_shared(self, alloc: Global) -> Result<Arc<Page>, OutOfMemory>
        ensures { IfOk result (λ page. arc_value page ≡ classes_on self) }
    {
        match self {
            DraftPage::Shared(page) => Ok(page),
            DraftPage::Own(page) => Ok(Arc::new(alloc, page)?),
        }
    }
}

/// A draft of a version's classes, which change one by one: a page is copied before the first class
/// on it changes, and each other page stays shared with that version. Contracts see the list of
/// classes.
#[derive(Drop)]
pub struct Draft {
    pages: Vec<DraftPage>,
    records: usize,
}

impl Model for Draft {
    ghost use Rattle.std.specs.Prelude.{ℕ, List};
    ghost use Rattle.std.specs.List.{flat_map};
    ghost use Rattle.class_pages.specs.Drafts.{classes_on};
    ghost use Rattle.class_pages.specs.Pages.{IsPaged};

    ghost Value = { List ℕ };

    ghost view = { λ a. flat_map classes_on a.pages.items };

    ghost invariant = { λ a. IsPaged classes_on a.records a.pages.items };
}

impl Draft {
    /// A draft of a version, all of whose pages are shared with it. A refusal is want of memory.
    pub fn of(alloc: Global, version: &Classes) -> Result<Draft, OutOfMemory>
        ensures classes { IfOk result (λ draft. draft ≡ version.now) }
        ensures few { length version.now < 2 ^ 32 }
    {
        let mut pages = Vec::with_capacity(alloc, version.pages.len())?;
        for k in 0..version.pages.len() {
            pages.push(DraftPage::Shared(Arc::try_clone(&version.pages[k])?))?;
        }
        let records = version.records;
        Ok(Draft { pages, records })
    }

    /// Gives record `i` the class that is picked for a point and its class, and answers how many
    /// classes change: 0 or 1. A refusal is want of memory, and leaves the draft as it was.
    #[inline]
    pub fn change<T: Chooser>(
        &mut self,
        alloc: Global,
        i: u32,
        p: Point,
        chooser: &T,
    ) -> Result<u64, OutOfMemory>
        requires { i < length self.old }
        ensures picked { IfOk result (λ changed.
            IsPicked (T.picks chooser.now) p i self.old self.new changed) }
        ensures refused { OnErr result (self.new ≡ self.old) }
    {
        self.pages[i as usize / PAGE].change(alloc, i as usize % PAGE, p, chooser)
    }

    /// The version that has these classes. A refusal is want of memory.
    pub fn into_classes(self, alloc: Global) -> Result<Classes, OutOfMemory>
        ensures { IfOk result (λ classes. classes ≡ self) }
    {
        let Draft {
            pages: drafted,
            records,
        } = self;
        let mut pages = Vec::with_capacity(alloc, drafted.len())?;
        for page in drafted {
            pages.push(page.into_shared(alloc)?)?;
        }
        Ok(Classes { pages, records })
    }
}
