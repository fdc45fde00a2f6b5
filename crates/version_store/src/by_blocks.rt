//! Classes that are picked for the records block by block. Blocks that the chooser leaves alone are
//! passed over.
ghost use Rattle.std.specs.Prelude.{◌≡◌, ℕ, ◌+◌, ◌<◌, ◌≤◌, ◌^◌, All, IfOk, List, Some, length, map, slice_get};
ghost use Rattle.std.specs.List.{range_with_len};
ghost use Rattle.class_pages.specs.Choosing.{IsChosen, IsPicked, IsSettled, chosen};
ghost use Rattle.class_pages.specs.Edited.{IsEdited};
ghost use Rattle.class_pages.specs.Fitting.{EachFits};
ghost use Rattle.grid_blocks.specs.Blocks.{IsBlocks, part};
ghost use Rattle.grid_blocks.specs.declared.block.Block.{Block};
ghost use Rattle.version_store.specs.Underway.{ArePickedAt, IsFurther, IsUnderway};
ghost use Rattle.view_meaning.specs.Classes.{top_class};
ghost use Rattle.view_meaning.specs.Survey.{format_of, point_of, record_count};

use crate::costs::is_quicker_by_pages;
use class_pages::{Chooser, Classes, Draft};
use edit_ops::Edit;
use grid_blocks::Blocks;
use las_points::xyz;
use las_survey::Survey;
use std::alloc::Global;
use view_base::{Box3, OutOfMemory, Point};

/// What an edit makes of these classes, and how many of them differ from before. It looks only at
/// the records of the blocks whose box the edit's area meets, or at all records where that is
/// quicker. A page on which no class changes is shared. A refusal is want of memory.
pub fn edited_by(
    alloc: Global,
    survey: &Survey,
    blocks: &Blocks,
    classes: &Classes,
    edit: &Edit,
) -> Result<(Classes, u64), OutOfMemory>
    requires blocks { IsBlocks survey.now blocks.now }
    requires records { length classes.now ≡ record_count survey.now }
    requires room { edit.now.to ≤ top_class (format_of survey.now) }
    ensures { IfOk result (λ made. IsEdited survey.now edit.now classes.now made.0 made.1) }
{
    if is_quicker_by_pages(survey.records(), blocks, edit) {
        return classes.edited(alloc, survey, edit);
    }
    picked_by(alloc, survey, blocks, classes, edit)
}

/// The classes that a chooser picks for the records, and how many of them differ from before. It
/// looks only at the records of the blocks in whose box the chooser may change a class, or at all
/// records where that is quicker. A chooser that picks once more changes nothing. A page on which no
/// class changes is shared. A refusal is want of memory.
pub fn chosen_by<T: Chooser>(
    alloc: Global,
    survey: &Survey,
    blocks: &Blocks,
    classes: &Classes,
    chooser: &T,
) -> Result<(Classes, u64), OutOfMemory>
    requires blocks { IsBlocks survey.now blocks.now }
    requires records { length classes.now ≡ record_count survey.now }
    requires room { EachFits (format_of survey.now)
        (chosen survey.now (T.picks chooser.now) classes.now) }
    requires settled { IsSettled (T.picks chooser.now) }
    ensures chosen { IfOk result (λ made.
        IsChosen survey.now (T.picks chooser.now) classes.now made.0 made.1) }
    ensures top { IfOk result (λ made. EachFits (format_of survey.now) made.0) }
{
    if is_quicker_by_pages(survey.records(), blocks, chooser) {
        return classes.chosen(alloc, survey, chooser);
    }
    picked_by(alloc, survey, blocks, classes, chooser)
}

/// The classes that a chooser picks for the records, and how many differ from before, block by
/// block.
fn picked_by<T: Chooser>(
    alloc: Global,
    survey: &Survey,
    blocks: &Blocks,
    classes: &Classes,
    chooser: &T,
) -> Result<(Classes, u64), OutOfMemory>
    requires blocks { IsBlocks survey.now blocks.now }
    requires records { length classes.now ≡ record_count survey.now }
    requires settled { IsSettled (T.picks chooser.now) }
    ensures { IfOk result (λ made.
        IsChosen survey.now (T.picks chooser.now) classes.now made.0 made.1) }
{
    let mut draft = Draft::of(alloc, classes)?;
    let mut changed = 0;
    for k in 0..blocks.count() {
        changed += reclassify_block(&mut draft, alloc, survey, blocks, k, chooser)?;
    }
    Ok((draft.into_classes(alloc)?, changed))
}

/// Picks the classes of block `k`'s records, and answers how many change. A block that the chooser
/// leaves alone is passed over, and no point is looked at in a block in whose box it is even.
fn reclassify_block<T: Chooser>(
    draft: &mut Draft,
    alloc: Global,
    survey: &Survey,
    blocks: &Blocks,
    k: u32,
    chooser: &T,
) -> Result<u64, OutOfMemory>
    requires blocks { IsBlocks survey.now blocks.now }
    requires records { length draft.old ≡ record_count survey.now }
    requires block { k < length blocks.now.blocks }
    requires settled { IsSettled (T.picks chooser.now) }
    ensures { IfOk result (λ changed. (old : List ℕ) (block : Block)
        → slice_get blocks.now.blocks k ≡ Some block
        → IsUnderway survey.now (T.picks chooser.now) old draft.old
        → IsFurther survey.now (T.picks chooser.now) old draft.old draft.new
        (part block blocks.now.members) changed) }
{
    let block = blocks.block(k);
    if !chooser.may_change(block.area) {
        return Ok(0);
    }
    if chooser.is_even(block.area) {
        return reclassify_even(draft, alloc, blocks, k, block.area.min, chooser);
    }
    match blocks.records(k) {
        Some(records) => reclassify_each(draft, alloc, records.numbers, records.points, chooser),
        None => reclassify_run(draft, alloc, survey, block.first, block.count, chooser),
    }
}

/// Picks the classes of block `k`'s records, for each of which the same is picked as at this point,
/// and answers how many change.
fn reclassify_even<T: Chooser>(
    draft: &mut Draft,
    alloc: Global,
    blocks: &Blocks,
    k: u32,
    p: Point,
    chooser: &T,
) -> Result<u64, OutOfMemory>
    requires members { All (λ i. i < length draft.old) blocks.now.members }
    requires records { length draft.old ≡ length blocks.now.members }
    requires block { k < length blocks.now.blocks }
    requires settled { IsSettled (T.picks chooser.now) }
    ensures { IfOk result (λ changed. (b old : List ℕ) (block : Block)
        → slice_get blocks.now.blocks k ≡ Some block
        → ArePickedAt b (T.picks chooser.now) p (part block blocks.now.members)
        → IsUnderway b (T.picks chooser.now) old draft.old
        → IsFurther b (T.picks chooser.now) old draft.old draft.new
        (part block blocks.now.members) changed) }
{
    let block = blocks.block(k);
    match blocks.records(k) {
        Some(records) => change_each(draft, alloc, records.numbers, p, chooser),
        None => change_run(draft, alloc, block.first, block.count, p, chooser),
    }
}

/// Picks the classes of the records of these numbers, for each of which the same is picked as at
/// this point, and answers how many change.
fn change_each<T: Chooser>(
    draft: &mut Draft,
    alloc: Global,
    numbers: &[u32],
    p: Point,
    chooser: &T,
) -> Result<u64, OutOfMemory>
    requires numbers { All (λ i. i < length draft.old) numbers.now }
    requires settled { IsSettled (T.picks chooser.now) }
    ensures { IfOk result (λ changed. (b old : List ℕ)
        → ArePickedAt b (T.picks chooser.now) p numbers.now
        → IsUnderway b (T.picks chooser.now) old draft.old
        → IsFurther b (T.picks chooser.now) old draft.old draft.new numbers.now changed) }
{
    let mut changed = 0;
    for place in 0..numbers.len() {
        changed += draft.change(alloc, numbers[place], p, chooser)?;
    }
    Ok(changed)
}

/// Picks the classes of `count` records from record `first` on, for each of which the same is
/// picked as at this point, and answers how many change.
fn change_run<T: Chooser>(
    draft: &mut Draft,
    alloc: Global,
    first: u32,
    count: u32,
    p: Point,
    chooser: &T,
) -> Result<u64, OutOfMemory>
    requires within { first + count ≤ length draft.old }
    requires small { first + count < 2 ^ 32 }
    requires settled { IsSettled (T.picks chooser.now) }
    ensures { IfOk result (λ changed. (b old : List ℕ)
        → ArePickedAt b (T.picks chooser.now) p (range_with_len first count)
        → IsUnderway b (T.picks chooser.now) old draft.old
        → IsFurther b (T.picks chooser.now) old draft.old draft.new
        (range_with_len first count) changed) }
{
    let mut changed = 0;
    for place in 0..count {
        changed += draft.change(alloc, first + place, p, chooser)?;
    }
    Ok(changed)
}

/// Picks the classes of the records of these numbers, which stand at these points, and answers how
/// many change.
fn reclassify_each<T: Chooser>(
    draft: &mut Draft,
    alloc: Global,
    numbers: &[u32],
    points: &[Point],
    chooser: &T,
) -> Result<u64, OutOfMemory>
    requires numbers { All (λ i. i < length draft.old) numbers.now }
    requires points { length points.now ≡ length numbers.now }
    requires settled { IsSettled (T.picks chooser.now) }
    ensures { IfOk result (λ changed. (b old : List ℕ)
        → points.now ≡ map (point_of b) numbers.now
        → IsUnderway b (T.picks chooser.now) old draft.old
        → IsFurther b (T.picks chooser.now) old draft.old draft.new numbers.now changed) }
{
    let mut changed = 0;
    for place in 0..numbers.len() {
        changed += reclassify_one(draft, alloc, numbers[place], points[place], chooser)?;
    }
    Ok(changed)
}

/// Picks the classes of `count` records from record `first` on, and answers how many change.
fn reclassify_run<T: Chooser>(
    draft: &mut Draft,
    alloc: Global,
    survey: &Survey,
    first: u32,
    count: u32,
    chooser: &T,
) -> Result<u64, OutOfMemory>
    requires records { length draft.old ≡ record_count survey.now }
    requires within { first + count ≤ record_count survey.now }
    requires small { first + count < 2 ^ 32 }
    requires settled { IsSettled (T.picks chooser.now) }
    ensures { IfOk result (λ changed. (old : List ℕ)
        → IsUnderway survey.now (T.picks chooser.now) old draft.old
        → IsFurther survey.now (T.picks chooser.now) old draft.old draft.new
        (range_with_len first count) changed) }
{
    let mut changed = 0;
    for place in 0..count {
        let i = first + place;
        changed += reclassify_one(draft, alloc, i, xyz(survey.point_bytes(i)), chooser)?;
    }
    Ok(changed)
}

/// Picks the class of record `i`, which stands at this point, and answers how many classes change.
/// The class is read only where another one may be picked at the point.
#[inline]
fn reclassify_one<T: Chooser>(
    draft: &mut Draft,
    alloc: Global,
    i: u32,
    p: Point,
    chooser: &T,
) -> Result<u64, OutOfMemory>
    requires { i < length draft.old }
    ensures { IfOk result (λ changed.
        IsPicked (T.picks chooser.now) p i draft.old draft.new changed) }
{
    if !chooser.may_change(Box3 { min: p, max: p }) {
        return Ok(0);
    }
    draft.change(alloc, i, p, chooser)
}
