//! What picking classes costs in the one walk or the other: block by block, which looks only at the
//! blocks where a class may change and at a class wherever its record's number has it, or page by
//! page, which looks at all records in the order of the file.
ghost use Rattle.std.specs.Prelude.{◌≤◌, ◌<◌, ◌*◌, length};

use class_pages::Chooser;
use grid_blocks::Blocks;

/// How many blocks are looked at.
const SAMPLE: u32 = 64;

/// How many of a block's first numbers are looked at, and the cost of so many records that follow
/// one another, block by block.
const NUMBERS: usize = 16;

/// What a record adds to the cost whose class isn't on the cache line of the one before it.
const FAR: u64 = 6;

/// The cost of so many records as `NUMBERS`, page by page.
const BY_PAGES: u64 = 24;

/// How many classes are on a cache line.
const LINE: u32 = 64;

/// The fraction of the golden ratio in 2^32nds. Its multiples are spread evenly.
const GOLDEN: u32 = 0x9E37_79B1;

/// Whether classes are likely picked in less time page by page than block by block, of so many
/// records. It looks at 64 blocks. Nothing but time rests on its answer.
pub fn is_quicker_by_pages<T: Chooser>(records: u32, blocks: &Blocks, chooser: &T) -> bool {
    let count = blocks.count();
    if count == 0 {
        return false;
    }
    let mut cost = 0;
    for number in 0..SAMPLE {
        cost += cost_of(blocks, spread(number, count), chooser);
    }
    cost * u64::from(count) > BY_PAGES * u64::from(SAMPLE) * u64::from(records)
}

/// A block's number among so many, for each number of the sample.
fn spread(number: u32, count: u32) -> u32
    requires { 1 ≤ count }
    ensures { result < count }
{
    (u64::from(number.wrapping_mul(GOLDEN)) * u64::from(count) / (1 << 32)) as u32
}

/// The cost of block `k`, of `NUMBERS` for so many records that follow one another. A block where no
/// class may change costs nothing.
fn cost_of<T: Chooser>(blocks: &Blocks, k: u32, chooser: &T) -> u64
    requires { k < length blocks.now.blocks }
    ensures { result ≤ 1024 * 106 }
{
    let block = blocks.block(k);
    if !chooser.may_change(block.area) {
        return 0;
    }
    let far = match blocks.records(k) {
        Some(records) => far_steps(records.numbers),
        None => 0,
    };
    u64::from(block.count) * (NUMBERS as u64 + FAR * far)
}

/// How many of the first numbers have their class on another cache line than the number before.
fn far_steps(numbers: &[u32]) -> u64
    ensures { result ≤ 15 }
{
    let mut far = 0;
    for place in 1..numbers.len().min(NUMBERS) {
        far += u64::from(numbers[place] / LINE != numbers[place - 1] / LINE);
    }
    far
}
