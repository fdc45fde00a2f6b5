ghost use Rattle.std.specs.Prelude.{◌≡◌, ℕ, ◌+◌, ◌/◌, ◌%◌, ◌<◌, ◌≤◌, ◌^◌, ◌≢◌, All, IfOk, IsSome, List, OnOk, [], length, map, min, slice_index};
ghost use Rattle.std.specs.List.{range_with_len};
ghost use Rattle.std.specs.Thread.{IsSync};
ghost use Rattle.grid_blocks.specs.Blocks.{IsBlocks, IsCut, part};
ghost use Rattle.grid_blocks.specs.Cells.{IsByCells, IsRun};
ghost use Rattle.grid_blocks.specs.LeastBox.{IsLeastBox};
ghost use Rattle.grid_blocks.specs.Order.{CanOrder, IsOrder, words_from};
ghost use Rattle.view_meaning.specs.Survey.{point_of, record_count};

use crate::block::Block;
use crate::blocks::Blocks;
use crate::copies::{Copies, NUMBER_BITS};
use crate::grid::Grid;
use crate::least_box::{box_of_points, box_side_by_side};
use crate::sharing::{SHARED, front_share};
use crate::sorting::sort;
use las_points::xyz;
use las_survey::Survey;
use std::alloc::Global;
use std::thread::{Threads, join, join_mut};
use view_base::{Listing, OutOfMemory, Point};

/// The most members of a block.
pub(crate) const MOST: usize = 1024;

/// The blocks of a survey by the cells of a grid: the grid has less than 64 cells along each axis of
/// the survey's box, the records stand in the order of their cell's key and then of their number,
/// and those of one cell are cut into blocks of 1024, the last one with what is left. Holds the
/// records' points and withheld bits beside their numbers, in the order of places. Two passes over
/// the records, a sort, and one more pass in the order of places.
pub fn build<R: Threads + Sync>(
    alloc: Global,
    rt: &R,
    workers: u32,
    survey: &Survey,
) -> Result<Blocks, OutOfMemory>
    requires workers { (1 ≤ workers) × (workers ≤ 64) }
    ensures blocks { IfOk result (IsBlocks survey.now) }
    ensures cells { 1 ≤ record_count survey.now → IfOk result (IsByCells survey.now) }
    ensures held { IfOk result (λ blocks. IsSome blocks.copies) }
{
    if survey.records() == 0 {
        return Ok(Blocks::none(alloc));
    }
    build_some(alloc, rt, workers, survey)
}

/// The blocks by cells of a survey with records.
fn build_some<R: Threads + Sync>(
    alloc: Global,
    rt: &R,
    workers: u32,
    survey: &Survey,
) -> Result<Blocks, OutOfMemory>
    requires some { 1 ≤ record_count survey.now }
    requires workers { workers ≤ 64 }
    ensures blocks { IfOk result (IsBlocks survey.now) }
    ensures cells { IfOk result (IsByCells survey.now) }
    ensures held { IfOk result (λ blocks. IsSome blocks.copies) }
{
    let (words, room) = order_and_room(alloc, rt, workers, survey)?;
    let copies = room.of(rt, workers, survey, &words);
    let list = blocks_of(alloc, &words, &copies.points)?;
    Ok(Blocks::of_copies(list, copies))
}

/// The words of all records, rising, and room for the copies of as many, which is made beside them
/// where there is more than one worker: the system clears each page of it.
fn order_and_room<R: Threads + Sync>(
    alloc: Global,
    rt: &R,
    workers: u32,
    survey: &Survey,
) -> Result<(Vec<u64>, Copies), OutOfMemory>
    requires some { 1 ≤ record_count survey.now }
    requires workers { workers ≤ 64 }
    ensures order { IfOk result (λ made. IsOrder survey.now made.0.items) }
    ensures size { IfOk result (λ made. length made.0.items ≡ record_count survey.now) }
    ensures numbers { IfOk result (λ made. All (λ word. word % 2 ^ 26 < record_count survey.now) made.0.items) }
    ensures room { IfOk result (λ made. length made.1.numbers.items ≡ record_count survey.now) }
    ensures few { record_count survey.now ≤ 53687091 }
{
    let count = survey.records() as usize;
    if workers < 2 {
        let words = order(alloc, rt, workers, survey)?;
        return Ok((words, Copies::zeros(alloc, count)?));
    }
    let (words, room) = join(
        rt,
        || -> Result<Vec<u64>, OutOfMemory>
            requires { IsSync R.row × (1 ≤ record_count survey.now) × (workers ≤ 64) }
            ensures { IfOk result (λ words. IsOrder survey.entry.now words.items
                × (length words.items ≡ record_count survey.entry.now)
                × All (λ word. word % 2 ^ 26 < record_count survey.entry.now) words.items) }
        { order(alloc, rt, workers, survey) },
        || -> Result<Copies, OutOfMemory>
            ensures { IfOk result (λ copies. length copies.numbers.items ≡ count) }
        { Copies::zeros(alloc, count) },
    );
    Ok((words?, room?))
}

/// The words of all records, rising: each has the key of a record's cell above its number.
fn order<R: Threads + Sync>(
    alloc: Global,
    rt: &R,
    workers: u32,
    survey: &Survey,
) -> Result<Vec<u64>, OutOfMemory>
    requires some { 1 ≤ record_count survey.now }
    requires workers { workers ≤ 64 }
    ensures order { IfOk result (λ words. IsOrder survey.now words.items) }
    ensures size { IfOk result (λ words. length words.items ≡ record_count survey.now) }
    ensures numbers { IfOk result (λ words. All (λ word. word % 2 ^ 26 < record_count survey.now) words.items) }
    ensures few { record_count survey.now ≤ 53687091 }
{
    let grid = Grid::of(box_side_by_side(rt, workers, survey, 0, survey.records()));
    let mut words = words_of(alloc, rt, workers, survey, &grid)?;
    sort(rt, workers, &mut words);
    Ok(words)
}

/// The word of each record, in the order of numbers.
fn words_of<R: Threads + Sync>(
    alloc: Global,
    rt: &R,
    workers: u32,
    survey: &Survey,
    grid: &Grid,
) -> Result<Vec<u64>, OutOfMemory>
    requires around { IsLeastBox (map (point_of survey.now) (range_with_len 0 (record_count survey.now))) grid.now.area }
    ensures { IfOk result (λ words. words.items ≡ words_from survey.now grid.now.area grid.now.exponent 0 (record_count survey.now)) }
{
    let mut words = vec![in alloc; 0u64; survey.records() as usize]?;
    write_side_by_side(rt, workers, &mut words, survey, grid, 0);
    Ok(words)
}

/// Writes the words of the records from a number on, by workers side by side, each with its share of
/// them, or by one where they are few.
#[cycle(halves)]
fn write_side_by_side<R: Threads + Sync>(
    rt: &R,
    workers: u32,
    words: &mut [u64],
    survey: &Survey,
    grid: &Grid,
    first: u32,
)
    requires { CanOrder survey.now grid.now.area first words.old }
    ensures { words.new ≡ words_from survey.now grid.now.area grid.now.exponent first (length words.old) }
{
    if workers < 2 || words.len() < SHARED {
        write_words(words, survey, grid, first);
        return;
    }
    let (front, back) = words.split_at_mut(front_share(words.len(), workers));
    let mid = first + front.len() as u32;
    write_both(rt, workers, front, back, survey, grid, first, mid);
}

/// Writes the words of the records from one number on and from another on, side by side.
#[cycle(halves)]
fn write_both<R: Threads + Sync>(
    rt: &R,
    workers: u32,
    front: &mut [u64],
    back: &mut [u64],
    survey: &Survey,
    grid: &Grid,
    first: u32,
    mid: u32,
)
    requires workers { 2 ≤ workers }
    requires front { CanOrder survey.now grid.now.area first front.old }
    requires back { CanOrder survey.now grid.now.area mid back.old }
    ensures front { front.new ≡ words_from survey.now grid.now.area grid.now.exponent first (length front.old) }
    ensures back { back.new ≡ words_from survey.now grid.now.area grid.now.exponent mid (length back.old) }
{
    let front_workers = workers / 2;
    let back_workers = workers - front_workers;
    join_mut(
        rt,
        &mut ||
            requires { IsSync R.row × CanOrder survey.now grid.now.area first front.now }
            ensures { front.exit.now ≡ words_from survey.entry.now grid.entry.now.area grid.entry.now.exponent first (length front.entry.now) }
        { write_side_by_side(rt, front_workers, front, survey, grid, first) },
        &mut ||
            requires { IsSync R.row × CanOrder survey.now grid.now.area mid back.now }
            ensures { back.exit.now ≡ words_from survey.entry.now grid.entry.now.area grid.entry.now.exponent mid (length back.entry.now) }
        { write_side_by_side(rt, back_workers, back, survey, grid, mid) },
    );
}

/// Writes the words of the records from a number on.
fn write_words(words: &mut [u64], survey: &Survey, grid: &Grid, first: u32)
    requires { CanOrder survey.now grid.now.area first words.old }
    ensures { words.new ≡ words_from survey.now grid.now.area grid.now.exponent first (length words.old) }
{
    for place in 0..words.len() {
        let i = first + place as u32;
        let key = grid.key(xyz(survey.point_bytes(i)));
        words[place] = (key << NUMBER_BITS) + u64::from(i);
    }
}

/// The most blocks that so many records can make, with at most 2^18 keys.
fn most_blocks(records: usize) -> usize
    ensures { result ≡ min records (2 ^ 18 + records / 1024) }
{
    records.min((1 << 18) + records / MOST)
}

/// The blocks of records with these words at these points. The room for them is made once.
fn blocks_of(alloc: Global, words: &[u64], points: &[Point]) -> Result<Listing<Block>, OutOfMemory>
    requires size { length points.now ≡ length words.now }
    requires few { length words.now < 2 ^ 32 }
    ensures cut { IfOk result (λ list. IsCut list.items (length words.now)) }
    ensures areas { IfOk result (λ list. All (λ block. IsLeastBox (part block points.now) block.area) list.items) }
    ensures runs { IfOk result (λ list. All (IsRun (λ place. slice_index words.now place / 2 ^ 26) (length words.now)) list.items) }
{
    let mut list = Listing::new(alloc);
    list.reserve(most_blocks(words.len()))?;
    cut(words, points, &mut list)?;
    Ok(list)
}

/// Appends the blocks of records with these words at these points.
fn cut(words: &[u64], points: &[Point], list: &mut Listing<Block>) -> Result<(), OutOfMemory>
    requires empty { list.old.items ≡ [] }
    requires size { length points.now ≡ length words.now }
    requires few { length words.now < 2 ^ 32 }
    ensures cut { OnOk result (IsCut list.new.items (length words.now)) }
    ensures areas { OnOk result (All (λ block. IsLeastBox (part block points.now) block.area) list.new.items) }
    ensures runs { OnOk result (All (IsRun (λ place. slice_index words.now place / 2 ^ 26) (length words.now)) list.new.items) }
{
    let mut first = 0;
    while first < words.len() {
        let block = block_from(words, points, first);
        list.push(block)?;
        first += block.count as usize;
    }
    Ok(())
}

/// The block that begins at a place.
fn block_from(words: &[u64], points: &[Point], first: usize) -> Block
    requires within { first < length words.now }
    requires size { length points.now ≡ length words.now }
    requires few { length words.now < 2 ^ 32 }
    ensures first { result.first ≡ first }
    ensures some { 1 ≤ result.count }
    ensures few { result.count ≤ 1024 }
    ensures within { first + result.count ≤ length words.now }
    ensures area { IsLeastBox (part result points.now) result.area }
    ensures run { IsRun (λ place. slice_index words.now place / 2 ^ 26) (length words.now) result }
{
    let count = run_length(&words[first..]);
    Block {
        first: first as u32,
        count: count as u32,
        area: box_of_points(&points[first..first + count]),
    }
}

/// How many words from the front have the first one's key, 1024 at most.
fn run_length(words: &[u64]) -> usize
    requires { 1 ≤ length words.now }
    ensures some { 1 ≤ result }
    ensures few { result ≤ 1024 }
    ensures within { result ≤ length words.now }
    ensures alone { (k : ℕ) → k < result → slice_index words.now k / 2 ^ 26 ≡ slice_index words.now 0 / 2 ^ 26 }
    ensures full { result < 1024 → result < length words.now → slice_index words.now result / 2 ^ 26 ≢ slice_index words.now 0 / 2 ^ 26 }
{
    let key = words[0] >> NUMBER_BITS;
    let most = words.len().min(MOST);
    let mut count = 1;
    while count < most && words[count] >> NUMBER_BITS == key {
        count += 1;
    }
    count
}
