ghost use Rattle.std.specs.Prelude.{◌≡◌, ◌+◌, ◌*◌, ◌<◌, ◌≤◌, All, IfOk, None, OnOk, [], map};
ghost use Rattle.std.specs.List.{range_with_len};
ghost use Rattle.grid_blocks.specs.Blocks.{IsBlocks, IsCut};
ghost use Rattle.grid_blocks.specs.LeastBox.{IsLeastBox};
ghost use Rattle.view_meaning.specs.Survey.{point_of, record_count};

use crate::block::Block;
use crate::blocks::Blocks;
use crate::by_cells::MOST;
use crate::least_box::box_of_records;
use las_survey::Survey;
use std::alloc::Global;
use view_base::{Listing, OutOfMemory};

/// The blocks of a survey in the order of record numbers, 1024 in each but the last one, which has
/// what is left. One pass over the records for the boxes; holds no list of members and no copies.
pub fn build_by_number(alloc: Global, survey: &Survey) -> Result<Blocks, OutOfMemory>
    ensures blocks { IfOk result (IsBlocks survey.now) }
    ensures order { IfOk result (λ blocks. blocks.members ≡ range_with_len 0 (record_count survey.now)) }
    ensures full { IfOk result (λ blocks. All (λ block. block.count < 1024 → block.first + block.count ≡ record_count survey.now) blocks.blocks) }
    ensures none { IfOk result (λ blocks. blocks.copies ≡ None) }
{
    let mut list = Listing::new(alloc);
    list.reserve(block_count(survey.records()))?;
    cut(survey, &mut list)?;
    Ok(Blocks::of_numbers(list, survey.records()))
}

/// How many blocks so many records make.
fn block_count(records: u32) -> usize
    ensures enough { records ≤ 1024 * result }
    ensures few { 1024 * result < records + 1024 }
{
    (records as usize).div_ceil(MOST)
}

/// Appends the blocks in the order of numbers.
fn cut(survey: &Survey, list: &mut Listing<Block>) -> Result<(), OutOfMemory>
    requires { list.old.items ≡ [] }
    ensures cut { OnOk result (IsCut list.new.items (record_count survey.now)) }
    ensures areas { OnOk result (All (λ block. IsLeastBox (map (point_of survey.now) (range_with_len block.first block.count)) block.area) list.new.items) }
    ensures full { OnOk result (All (λ block. block.count < 1024 → block.first + block.count ≡ record_count survey.now) list.new.items) }
{
    let mut first = 0;
    while first < survey.records() {
        let count = (survey.records() - first).min(MOST as u32);
        list.push(Block {
            first,
            count,
            area: box_of_records(survey, first, count),
        })?;
        first += count;
    }
    Ok(())
}
