ghost use Rattle.std.specs.Prelude.{◌≡◌, ◌<◌, ◌≤◌, length};
ghost use Rattle.std.specs.List.Sorted.{IsPermutation, IsSorted};
ghost use Rattle.std.specs.Ordering.{nat_cmp};
ghost use Rattle.std.specs.Thread.{IsSync};

use crate::sharing::SHARED;
use std::thread::{Threads, join_mut};

/// How many words are looked at to find one that parts a list as the workers share it.
const PICKED: usize = 64;

/// Sorts words, by so many workers.
pub(crate) fn sort<R: Threads + Sync>(rt: &R, workers: u32, words: &mut Vec<u64>)
    ensures permutation { IsPermutation words.old.items words.new.items }
    ensures sorted { IsSorted nat_cmp words.new.items }
{
    sort_parts(rt, workers, words);
}

/// Sorts words. Where there is more than one worker they sort parts of the list side by side, each
/// of words below those of the next, and the pass after it finds the whole in order.
fn sort_parts<R: Threads + Sync>(rt: &R, workers: u32, words: &mut [u64])
    ensures permutation { IsPermutation words.old words.new }
    ensures size { length words.new ≡ length words.old }
    ensures sorted { IsSorted nat_cmp words.new }
{
    if workers < 2 {
        words.sort_unstable();
        return;
    }
    sort_side_by_side(rt, workers, words);
    words.sort_unstable();
}

/// Sorts words by workers side by side, each with its share of them, or by one where they are few.
#[cycle(shares)]
fn sort_side_by_side<R: Threads + Sync>(rt: &R, workers: u32, words: &mut [u64])
    ensures permutation { IsPermutation words.old words.new }
    ensures size { length words.new ≡ length words.old }
{
    if workers < 2 || words.len() < SHARED {
        words.sort_unstable();
        return;
    }
    let front_workers = workers / 2;
    let pivot = pivot(words, front_workers, workers);
    let mid = partition(words, pivot);
    let (front, back) = words.split_at_mut(mid);
    sort_both(rt, workers, front, back);
}

/// Sorts two parts side by side, each by its half of the workers.
#[cycle(shares)]
fn sort_both<R: Threads + Sync>(rt: &R, workers: u32, front: &mut [u64], back: &mut [u64])
    requires { 2 ≤ workers }
    ensures front { IsPermutation front.old front.new }
    ensures back { IsPermutation back.old back.new }
{
    let front_workers = workers / 2;
    let back_workers = workers - front_workers;
    join_mut(
        rt,
        &mut ||
            requires { IsSync R.row }
            ensures { IsPermutation front.entry.now front.exit.now }
        { sort_side_by_side(rt, front_workers, front) },
        &mut ||
            requires { IsSync R.row }
            ensures { IsPermutation back.entry.now back.exit.now }
        { sort_side_by_side(rt, back_workers, back) },
    );
}

/// A word of a list that has about the first workers' share of the words below it.
fn pivot(words: &[u64], front_workers: u32, workers: u32) -> u64
    requires some { 1 ≤ length words.now }
    requires workers { front_workers < workers }
{
    let step = words.len() / PICKED;
    let mut picked = [0; PICKED];
    for k in 0..PICKED {
        picked[k] = words[k * step];
    }
    picked.sort_unstable();
    picked[PICKED * front_workers as usize / workers as usize]
}

/// Moves the words below a pivot to the front, and answers how many there are.
fn partition(words: &mut [u64], pivot: u64) -> usize
    ensures permutation { IsPermutation words.old words.new }
    ensures size { length words.new ≡ length words.old }
    ensures within { result ≤ length words.old }
{
    let mut below = 0;
    for at in 0..words.len() {
        let is_below = words[at] < pivot;
        words.swap(at, below);
        below += usize::from(is_below);
    }
    below
}
