ghost use Rattle.std.specs.Prelude.{◌≡◌, ◌≤◌, ◌<◌, ◌+◌, ◌*◌, ◌^◌, [], All, IfOk, length, slice_index};
ghost use Rattle.std.specs.Arc.{arc_value};
ghost use Rattle.class_pages.specs.Choosing.{IsAfter, IsChosen, chosen};
ghost use Rattle.class_pages.specs.Edited.{IsEdited};
ghost use Rattle.class_pages.specs.Fitting.{EachFits};
ghost use Rattle.class_pages.specs.Pages.{page_count, page_of};
ghost use Rattle.view_meaning.specs.Classes as meaning;
ghost use Rattle.view_meaning.specs.Survey.{record_count, format_of};

use crate::chooser::Chooser;
use crate::page::{PAGE, Page, page_after, page_read};
use edit_ops::Edit;
use las_survey::Survey;
use std::alloc::Global;
use std::marker::Model;
use std::sync::Arc;
use view_base::OutOfMemory;

/// The class of each record of a survey, in pages that versions share. Contracts see the list of
/// classes; the type keeps that each page but the last has `PAGE` of them.
#[derive(Drop)]
pub struct Classes {
    pub(crate) pages: Vec<Arc<Page>>,
    pub(crate) records: usize,
}

impl Model for Classes {
    ghost use Rattle.std.specs.Prelude.{ℕ, List};
    ghost use Rattle.std.specs.Arc.{arc_value};
    ghost use Rattle.std.specs.List.{flat_map};
    ghost use Rattle.class_pages.specs.Pages.{IsPaged};

    ghost Value = { List ℕ };

    ghost view = { λ a. flat_map arc_value a.pages.items };

    ghost invariant = { λ a. IsPaged arc_value a.records a.pages.items };
}

/// The classes in a survey's file.
pub fn base(alloc: Global, survey: &Survey) -> Result<Classes, OutOfMemory>
    ensures classes { IfOk result (λ classes. classes ≡ meaning.classes survey.now []) }
    ensures size { IfOk result (λ classes. length classes ≡ record_count survey.now) }
    ensures top { IfOk result (λ classes. EachFits (format_of survey.now) classes) }
{
    let records = survey.records() as usize;
    let count = records.div_ceil(PAGE);
    let mut pages = Vec::with_capacity(alloc, count)?;
    for k in 0..count {
        let first = k * PAGE;
        let left = PAGE.min(records - first);
        pages.push(page_read(alloc, survey, first as u32, left as u32)?)?;
    }
    Ok(Classes { pages, records })
}

impl Classes {
    /// How many records have a class here.
    pub fn len(&self) -> usize
        ensures { result ≡ length self.now }
    {
        self.records
    }

    /// The number of pages: that of the classes divided by `PAGE`, rounded up. Each class is a byte.
    pub fn pages(&self) -> u32
        ensures count { result ≡ page_count (length self.now) }
        ensures bytes { All (λ class. class < 256) self.now }
    {
        self.pages.len() as u32
    }

    /// Page `k`, which has the classes from place `PAGE * k` on: `PAGE` of them, or what is left.
    pub fn page(&self, k: u32) -> &Arc<Page>
        requires { k < page_count (length self.now) }
        ensures { arc_value result.now ≡ page_of self.now k }
    {
        &self.pages[k as usize]
    }

    /// The class of record `i`.
    pub fn class_at(&self, i: u32) -> u8
        requires { i < length self.now }
        ensures { result ≡ slice_index self.now i }
    {
        self.page(i / PAGE as u32).as_slice()[i as usize % PAGE]
    }

    /// The classes after an edit, and how many records' classes differ from before. It looks at
    /// each record. A page on which no class changes is shared.
    pub fn edited(
        &self,
        alloc: Global,
        survey: &Survey,
        edit: &Edit,
    ) -> Result<(Classes, u64), OutOfMemory>
        requires records { length self.now ≡ record_count survey.now }
        requires room { edit.now.to ≤ meaning.top_class (format_of survey.now) }
        ensures { IfOk result (λ made. IsEdited survey.now edit.now self.now made.0 made.1) }
    {
        self.picked(alloc, survey, edit)
    }

    /// The classes that a chooser picks for the records, and how many of them differ from before.
    /// It looks at each record. A page on which no class changes is shared. A refusal is want of
    /// memory.
    pub fn chosen<T: Chooser>(
        &self,
        alloc: Global,
        survey: &Survey,
        chooser: &T,
    ) -> Result<(Classes, u64), OutOfMemory>
        requires records { length self.now ≡ record_count survey.now }
        requires room { EachFits (format_of survey.now)
            (chosen survey.now (T.picks chooser.now) self.now) }
        ensures chosen { IfOk result (λ made.
            IsChosen survey.now (T.picks chooser.now) self.now made.0 made.1) }
        ensures top { IfOk result (λ made. EachFits (format_of survey.now) made.0) }
    {
        self.picked(alloc, survey, chooser)
    }

    /// The classes that a chooser picks for the records, and how many differ from before. Room for
    /// the list of pages is made before any page.
    fn picked<T: Chooser>(
        &self,
        alloc: Global,
        survey: &Survey,
        chooser: &T,
    ) -> Result<(Classes, u64), OutOfMemory>
        requires records { length self.now ≡ record_count survey.now }
        requires bytes { All (λ class. class < 256) self.now
            → All (λ class. class < 256) (chosen survey.now (T.picks chooser.now) self.now) }
        ensures { IfOk result (λ made.
            IsChosen survey.now (T.picks chooser.now) self.now made.0 made.1) }
    {
        let mut pages = Vec::with_capacity(alloc, self.pages.len())?;
        let mut changed = 0;
        for k in 0..self.pages.len() {
            let first = (k * PAGE) as u32;
            let (page, count) = page_after(alloc, &self.pages[k], survey, first, chooser)?;
            pages.push(page)?;
            changed += count;
        }
        let records = self.records;
        Ok((Classes { pages, records }, changed))
    }
}
