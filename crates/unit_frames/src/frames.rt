//! Seats that plot and claim on one frame.
ghost use Rattle.std.specs.Prelude.{◌≡◌, ◌<◌, ◌≤◌, length};

use crate::drawing::are;
use min_frame::{EmptyWords, Frame, FrameWords, Seat};
use std::mem::size_of;
use std::process::Abort;
use std::test::Fail;
use std::thread::{Threads, join_mut};

/// How many plots each half makes.
const PLOTS: u64 = 50_000;

#[test]
fn two_seats_share_three_numbers_and_the_lower_plot_stays(rt: HostRuntime) -> Result<(), Fail> {
    let empty = EmptyWords::none(rt.alloc());
    let (frame, mut root) = Frame::new(rt.alloc(), &empty, 2, 3, 2)?;
    let mut worker = frame.split(&mut root, 1);
    frame.plot(&mut worker, 0, 9);
    frame.plot(&mut root, 0, 4);
    let first = taken(&rt, &frame, &mut root);
    let second = taken(&rt, &frame, &mut worker);
    let third = taken(&rt, &frame, &mut root);
    let past = [frame.claim(&mut worker), frame.claim(&mut root)];
    frame.join(&mut root, worker);
    let words = frame.close(root);
    assert!(rt; [first, second, third] == [0, 1, 2] && past == [None, None]);
    assert!(rt; words.len() == 2 && read_both(&rt, &words) == (4, u64::MAX));
    assert!(rt; size_of::<Seat>() == 0);
    Ok(())
}

/// Two words, each read by a thread of its own.
fn read_both<R: Threads>(rt: &R, words: &FrameWords) -> (u64, u64)
    requires { length words.now ≡ 2 }
{
    join_mut(rt, &mut || words.word(0), &mut || words.word(1))
}

/// A number that is there to be claimed.
fn taken<R: Abort>(rt: &R, frame: &Frame, seat: &mut Seat) -> u32
    requires frame { seat.old.frame ≡ frame.now.name }
    requires ends { 1 ≤ seat.old.ends }
    ensures frame { seat.new.frame ≡ seat.old.frame }
    ensures root { (seat.new.root ≡ seat.old.root) × (seat.new.out ≡ seat.old.out) }
    ensures ends { seat.new.ends ≡ seat.old.ends }
{
    let Some(number) = frame.claim(seat) else {
        panic!(rt; "nothing is left to claim")
    };
    number
}

#[test]
fn halves_that_run_side_by_side_leave_the_least_of_all_plots(rt: HostRuntime) -> Result<(), Fail> {
    // One frame is as large as the empty words, one is smaller and one larger.
    let empty = EmptyWords::new(rt.alloc(), 3)?;
    for pixels in [1, 3, 100_000] {
        let blocks = 1000;
        let (frame, mut root) = Frame::new(rt.alloc(), &empty, pixels, blocks, 2)?;
        let mut worker = frame.split(&mut root, 1);
        let (one, two) = run_both(&rt, &frame, &mut root, &mut worker, pixels);
        frame.join(&mut root, worker);
        let words = frame.close(root);
        let mut least = vec![in rt.alloc(); u64::MAX; pixels as usize]?;
        lower_all(least.as_mut_slice(), 0, pixels);
        lower_all(least.as_mut_slice(), 1, pixels);
        assert!(rt; are(&words, least.as_slice()));
        assert!(rt; one.wrapping_add(two) == u64::from(blocks) * u64::from(blocks - 1) / 2);
    }
    Ok(())
}

/// Lowers plain words by the plots of a half.
fn lower_all(least: &mut [u64], half: u64, pixels: u32)
    requires pixels { (1 ≤ pixels) × (pixels ≡ length least.old) }
    requires half { half < 2 }
{
    for i in 0..PLOTS {
        let (pixel, value) = scattered(2 * i + half, pixels);
        let word = &mut least[pixel as usize];
        *word = value.min(*word);
    }
}

/// Plots and claims in two threads. Gives for each the sum of the numbers that it claimed.
fn run_both<R: Threads>(
    rt: &R,
    frame: &Frame,
    root: &mut Seat,
    worker: &mut Seat,
    pixels: u32,
) -> (u64, u64)
    requires pixels { (1 ≤ pixels) × (pixels ≡ frame.now.pixels) }
    requires frame { (root.old.frame ≡ frame.now.name) × (worker.old.frame ≡ frame.now.name) }
    requires ends { (1 ≤ root.old.ends) × (1 ≤ worker.old.ends) }
    ensures root { (root.new.frame ≡ root.old.frame) × (root.new.root ≡ root.old.root) × (root.new.out ≡ root.old.out) }
    ensures worker { (worker.new.frame ≡ worker.old.frame) × (worker.new.root ≡ worker.old.root) }
{
    join_mut(
        rt,
        &mut || run_half(frame, root, 0, pixels),
        &mut || run_half(frame, worker, 1, pixels),
    )
}

/// Makes the plots of a half, and claims until nothing is left.
fn run_half(frame: &Frame, seat: &mut Seat, half: u64, pixels: u32) -> u64
    requires pixels { (1 ≤ pixels) × (pixels ≡ frame.now.pixels) }
    requires half { half < 2 }
    requires frame { seat.old.frame ≡ frame.now.name }
    requires ends { 1 ≤ seat.old.ends }
    ensures frame { seat.new.frame ≡ seat.old.frame }
    ensures root { (seat.new.root ≡ seat.old.root) × (seat.new.out ≡ seat.old.out) }
{
    plot_half(frame, seat, half, pixels);
    claim_all(frame, seat)
}

fn plot_half(frame: &Frame, seat: &mut Seat, half: u64, pixels: u32)
    requires pixels { (1 ≤ pixels) × (pixels ≡ frame.now.pixels) }
    requires half { half < 2 }
    requires frame { seat.old.frame ≡ frame.now.name }
    ensures frame { seat.new.frame ≡ seat.old.frame }
    ensures root { (seat.new.root ≡ seat.old.root) × (seat.new.out ≡ seat.old.out) }
    ensures ends { seat.new.ends ≡ seat.old.ends }
{
    for i in 0..PLOTS {
        let (pixel, value) = scattered(2 * i + half, pixels);
        frame.plot(seat, pixel, value);
    }
}

/// Claims until nothing is left, and gives the sum of the numbers.
fn claim_all(frame: &Frame, seat: &mut Seat) -> u64
    requires frame { seat.old.frame ≡ frame.now.name }
    requires ends { 1 ≤ seat.old.ends }
    ensures frame { seat.new.frame ≡ seat.old.frame }
    ensures root { (seat.new.root ≡ seat.old.root) × (seat.new.out ≡ seat.old.out) }
{
    let mut sum = 0u64;
    while let Some(number) = frame.claim(seat) {
        sum = sum.wrapping_add(u64::from(number));
    }
    sum
}

/// The `i`-th plot: a pixel and a value that look random (the finalizer of splitmix64).
fn scattered(i: u64, pixels: u32) -> (u32, u64)
    requires { 1 ≤ pixels }
    ensures { result.0 < pixels }
{
    let z = i.wrapping_add(1).wrapping_mul(0x9E37_79B9_7F4A_7C15);
    let z = (z ^ (z >> 30)).wrapping_mul(0xBF58_476D_1CE4_E5B9);
    let z = (z ^ (z >> 27)).wrapping_mul(0x94D0_49BB_1331_11EB);
    let value = z ^ (z >> 31);
    ((value % u64::from(pixels)) as u32, value)
}
