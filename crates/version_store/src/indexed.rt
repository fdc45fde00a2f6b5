ghost use Rattle.std.specs.Prelude.{◌≡◌, ◌≤◌, [], IfOk, length};
ghost use Rattle.std.specs.Arc.{arc_value};
ghost use Rattle.class_pages.specs.Edited.{IsEdited};
ghost use Rattle.class_pages.specs.Fitting.{EachFits};
ghost use Rattle.grid_blocks.specs.Blocks.{IsBlocks};
ghost use Rattle.view_meaning.specs.Classes as meaning;
ghost use Rattle.view_meaning.specs.Survey.{record_count, format_of};

use crate::by_blocks::edited_by;
use class_pages::{Classes, base};
use edit_ops::Edit;
use grid_blocks::{Blocks, build_by_number};
use las_survey::Survey;
use std::alloc::Global;
use std::marker::Model;
use std::sync::Arc;
use view_base::OutOfMemory;

/// A survey with blocks of its records. Contracts see the survey's bytes; the type keeps that the
/// blocks are the survey's own.
#[derive(Drop)]
pub(crate) struct IndexedSurvey {
    survey: Arc<Survey>,
    blocks: Arc<Blocks>,
}

impl Model for IndexedSurvey {
    ghost use Rattle.std.specs.Prelude.{ℕ, List};
    ghost use Rattle.std.specs.Arc.{arc_value};
    ghost use Rattle.grid_blocks.specs.Blocks.{IsBlocks};

    ghost Value = { List ℕ };

    ghost view = { λ s. arc_value s.survey };

    ghost invariant = { λ s. IsBlocks (arc_value s.survey) (arc_value s.blocks) };
}

impl IndexedSurvey {
    /// The survey with blocks of its records in the order of their numbers. A refusal is want of
    /// memory. One pass over the records.
    pub(crate) fn by_number(
        alloc: Global,
        survey: Arc<Survey>,
    ) -> Result<IndexedSurvey, OutOfMemory>
        ensures { IfOk result (λ indexed. indexed ≡ arc_value survey) }
    {
        let blocks = Arc::new(alloc, build_by_number(alloc, &survey)?)?;
        Ok(IndexedSurvey { survey, blocks })
    }

    /// The survey with these blocks of its records.
    pub(crate) fn by_blocks(survey: Arc<Survey>, blocks: Arc<Blocks>) -> IndexedSurvey
        requires { IsBlocks (arc_value survey) (arc_value blocks) }
        ensures { result ≡ arc_value survey }
    {
        IndexedSurvey { survey, blocks }
    }

    /// The same survey and blocks once more. A refusal is want of memory.
    pub(crate) fn share(&self) -> Result<IndexedSurvey, OutOfMemory>
        ensures { IfOk result (λ indexed. indexed ≡ self.now) }
    {
        Ok(IndexedSurvey {
            survey: Arc::try_clone(&self.survey)?,
            blocks: Arc::try_clone(&self.blocks)?,
        })
    }

    /// The classes in the survey's file. A refusal is want of memory.
    pub(crate) fn base(&self, alloc: Global) -> Result<Classes, OutOfMemory>
        ensures classes { IfOk result (λ classes. classes ≡ meaning.classes self.now []) }
        ensures size { IfOk result (λ classes. length classes ≡ record_count self.now) }
        ensures top { IfOk result (λ classes. EachFits (format_of self.now) classes) }
    {
        base(alloc, &self.survey)
    }

    /// What an edit makes of these classes, and how many of them differ from before. It looks only
    /// at the records of the blocks whose box the edit's area meets. A refusal is want of memory.
    pub(crate) fn edited(
        &self,
        alloc: Global,
        classes: &Classes,
        edit: &Edit,
    ) -> Result<(Classes, u64), OutOfMemory>
        requires records { length classes.now ≡ record_count self.now }
        requires room { edit.now.to ≤ meaning.top_class (format_of self.now) }
        ensures { IfOk result (λ made. IsEdited self.now edit.now classes.now made.0 made.1) }
    {
        edited_by(alloc, &self.survey, &self.blocks, classes, edit)
    }
}
