ghost use Rattle.std.specs.Prelude.{◌≡◌, ◌<◌, ◌%◌, ◌+◌, ◌≤◌, ◌^◌, [], All, IfOk, drop, length, map, take};
ghost use Rattle.std.specs.Thread.{IsSync};
ghost use Rattle.grid_blocks.specs.Copying.{AreCopied, CanCopy};
ghost use Rattle.view_meaning.specs.Survey.{point_of, record_count, withheld_of};

use crate::block::BlockRecords;
use crate::sharing::{SHARED, front_share};
use las_points::{withheld, xyz};
use las_survey::Survey;
use std::alloc::Global;
use std::thread::{Threads, join_mut};
use view_base::{OutOfMemory, Point};

/// The low bits of an order's word, which have a record's number: a number is below 2^26.
pub(crate) const NUMBER_BITS: u32 = 26;

/// The records in the order of places: number, point and withheld bit of each, 17 bytes a record.
#[derive(Drop)]
pub struct Copies {
    pub(crate) numbers: Vec<u32>,
    pub(crate) points: Vec<Point>,
    pub(crate) withheld: Vec<bool>,
    ghost points_size: { length points.items ≡ length numbers.items },
    ghost bits_size: { length withheld.items ≡ length numbers.items },
}

impl Copies {
    /// Copies of no records.
    pub(crate) fn none(alloc: Global) -> Copies
        ensures numbers { result.numbers.items ≡ [] }
        ensures points { result.points.items ≡ [] }
        ensures withheld { result.withheld.items ≡ [] }
    {
        Copies {
            numbers: Vec::new(alloc),
            points: Vec::new(alloc),
            withheld: Vec::new(alloc),
        }
    }

    /// Room for copies of so many records, all 0.
    pub(crate) fn zeros(alloc: Global, count: usize) -> Result<Copies, OutOfMemory>
        ensures { IfOk result (λ copies. length copies.numbers.items ≡ count) }
    {
        Ok(Copies {
            numbers: vec![in alloc; 0u32; count]?,
            points: vec![in alloc; Point { x: 0, y: 0, z: 0 }; count]?,
            withheld: vec![in alloc; false; count]?,
        })
    }

    /// The records that an order's words name, in their order, written into this room.
    pub(crate) fn of<R: Threads + Sync>(
        self,
        rt: &R,
        workers: u32,
        survey: &Survey,
        words: &[u64],
    ) -> Copies
        requires size { length self.numbers.items ≡ length words.now }
        requires named { All (λ word. word % 2 ^ 26 < record_count survey.now) words.now }
        ensures { AreCopied survey.now words.now result.numbers.items result.points.items result.withheld.items }
    {
        let Copies {
            mut numbers,
            mut points,
            mut withheld,
        } = self;
        write_side_by_side(
            rt,
            workers,
            &mut numbers,
            &mut points,
            &mut withheld,
            survey,
            words,
        );
        Copies {
            numbers,
            points,
            withheld,
        }
    }

    /// So many records from a place on.
    pub(crate) fn part(&self, first: usize, count: usize) -> BlockRecords<'_>
        requires { first + count ≤ length self.now.numbers.items }
        ensures numbers { result.numbers.now ≡ take count (drop first self.now.numbers.items) }
        ensures points { result.points.now ≡ take count (drop first self.now.points.items) }
        ensures withheld { result.withheld.now ≡ take count (drop first self.now.withheld.items) }
    {
        let end = first + count;
        BlockRecords {
            numbers: &self.numbers[first..end],
            points: &self.points[first..end],
            withheld: &self.withheld[first..end],
        }
    }
}

/// Writes the number, the point and the withheld bit of the records that words name, by workers side
/// by side, each with its share of the words, or by one where they are few.
fn write_side_by_side<R: Threads + Sync>(
    rt: &R,
    workers: u32,
    numbers: &mut [u32],
    points: &mut [Point],
    bits: &mut [bool],
    survey: &Survey,
    words: &[u64],
)
    requires { CanCopy survey.now words.now numbers.old points.old bits.old }
    ensures { AreCopied survey.now words.now numbers.new points.new bits.new }
{
    if workers < 2 || words.len() < SHARED {
        write_records(numbers, points, bits, survey, words);
        return;
    }
    let front_workers = workers / 2;
    let back_workers = workers - front_workers;
    let half = front_share(words.len(), workers);
    let (front_words, back_words) = words.split_at(half);
    let (front_numbers, back_numbers) = numbers.split_at_mut(half);
    let (front_points, back_points) = points.split_at_mut(half);
    let (front_bits, back_bits) = bits.split_at_mut(half);
    join_mut(
        rt,
        &mut ||
            requires { IsSync R.row × CanCopy survey.now front_words.now front_numbers.now front_points.now front_bits.now }
            ensures { AreCopied survey.entry.now front_words.entry.now front_numbers.exit.now front_points.exit.now front_bits.exit.now }
        {
            write_side_by_side(
                rt,
                front_workers,
                front_numbers,
                front_points,
                front_bits,
                survey,
                front_words,
            )
        },
        &mut ||
            requires { IsSync R.row × CanCopy survey.now back_words.now back_numbers.now back_points.now back_bits.now }
            ensures { AreCopied survey.entry.now back_words.entry.now back_numbers.exit.now back_points.exit.now back_bits.exit.now }
        {
            write_side_by_side(
                rt,
                back_workers,
                back_numbers,
                back_points,
                back_bits,
                survey,
                back_words,
            )
        },
    );
}

/// Writes the number, the point and the withheld bit of the record that each word names.
fn write_records(
    numbers: &mut [u32],
    points: &mut [Point],
    bits: &mut [bool],
    survey: &Survey,
    words: &[u64],
)
    requires { CanCopy survey.now words.now numbers.old points.old bits.old }
    ensures { AreCopied survey.now words.now numbers.new points.new bits.new }
{
    let format = survey.header().format;
    for place in 0..words.len() {
        let number = (words[place] % (1 << NUMBER_BITS)) as u32;
        let rec = survey.point_bytes(number);
        numbers[place] = number;
        points[place] = xyz(rec);
        bits[place] = withheld(format, rec);
    }
}
