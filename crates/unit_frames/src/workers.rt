//! What any number of workers draws.
ghost use Rattle.std.specs.Prelude.{◌≡◌, ◌<◌, ◌≤◌, length};
ghost use Rattle.grid_blocks.specs.Blocks.{IsBlocks};
ghost use Rattle.view_meaning.specs.Survey.{record_count};

use crate::drawing::{ONE_PIXEL, are, view_of};
use crate::surveys::{Place, append_header, append_record, loaded, survey_of};
use class_bits::ClassSet;
use class_pages::{Classes, base};
use grid_blocks::{Blocks, build, build_by_number};
use las_survey::Survey;
use min_frame::{EmptyWords, FrameWords};
use splat_workers::nearest_words;
use std::alloc::Global;
use std::process::Abort;
use std::test::Fail;
use std::thread::Threads;
use view_base::{Bytes, OutOfMemory};
use view_ends::NoBeside;
use view_text::ViewSpec;

/// The records of a scene.
const SCENE: u32 = 300;

/// A row of 768 pixels, seen from one corner of all points with the longest vectors, by the largest
/// scale.
const FARTHEST: [i128; 18] = [
    768,
    1,
    2147483647,
    2147483647,
    2147483647,
    -32768,
    -32768,
    -32768,
    0,
    0,
    0,
    -32768,
    -32768,
    -32768,
    1 << 40,
    1 << 40,
    0,
    4294967294,
];

/// A square of 256 pixels, along Z.
const SQUARE: [i128; 18] = [16, 16, 0, 0, 0, 1, 0, 0, 0, 1, 0, 0, 0, 1, 1, 1, 0, 1000];

/// The words that so many workers draw of a survey that is cut by number.
fn words_by<R: Threads + Sync>(
    rt: &R,
    alloc: Global,
    survey: &Survey,
    view: &ViewSpec,
    workers: u32,
) -> Result<FrameWords, OutOfMemory>
    requires { (1 ≤ workers) × (workers ≤ 64) }
{
    let classes = base(alloc, survey)?;
    let blocks = build_by_number(alloc, survey)?;
    let empty = EmptyWords::none(alloc);
    nearest_words(
        alloc, rt, survey, &classes, &blocks, view, workers, &empty, &NoBeside,
    )
}

/// The frame of these records has these words with 1, 2 and 64 workers.
fn shows<R: Abort + Threads + Sync>(
    rt: &R,
    alloc: Global,
    places: &[Place],
    n: [i128; 18],
    wanted: &[u64],
) -> Result<(), Fail> {
    let survey = survey_of(alloc, places)?;
    let view = view_of(rt, n, ClassSet::all(), false);
    for workers in [1, 2, 64] {
        let words = words_by(rt, alloc, &survey, &view, workers)?;
        assert!(rt; are(&words, wanted));
    }
    Ok(())
}

#[test]
fn any_number_of_workers_shows_the_nearest(rt: HostRuntime) -> Result<(), Fail> {
    let deeper_first = [([0, 0, 7], 2), ([0, 0, 3], 6)];
    shows(&rt, rt.alloc(), &deeper_first, ONE_PIXEL, &[(3 << 32) + 1])
}

#[test]
fn any_number_of_workers_shows_the_farthest_corner(rt: HostRuntime) -> Result<(), Fail> {
    // Each of three products is 2^15 (2^32 - 1), so that the sum by 2^40 is 383: to the right of the
    // middle, 384, and ahead.
    let mut wanted = [u64::MAX; 768];
    wanted[767] = 383 << 32;
    let corner = [([i32::MIN, i32::MIN, i32::MIN], 2)];
    shows(&rt, rt.alloc(), &corner, FARTHEST, &wanted)
}

/// The pixel across and down, the depth and the class byte of record `i` of the scene.
fn scattered(i: u32) -> (u32, u32, u32, u8)
    ensures across { result.0 < 16 }
    ensures down { result.1 < 16 }
    ensures deep { result.2 < 20 }
{
    let n = i.wrapping_mul(2_654_435_769);
    let class = match n % 3 {
        0 => 2,
        1 => 0x82,
        _ => 6,
    };
    (n / 256 % 16, n / 4096 % 16, n / 65536 % 20, class)
}

/// Appends the records of the scene behind their header.
fn append_scene(bytes: &mut Bytes) -> Result<(), OutOfMemory> {
    append_header(bytes, 0, 20, SCENE as usize)?;
    for i in 0..SCENE {
        let (across, down, depth, class) = scattered(i);
        let place = [across as i32 - 8, down as i32 - 8, depth as i32];
        append_record(bytes, (place, class))?;
    }
    Ok(())
}

/// The survey of the scene. Its cells have one unit an edge, so most records have a block of their
/// own.
fn scene(alloc: Global) -> Result<Survey, Fail> {
    let mut bytes = Bytes::new(alloc);
    append_scene(&mut bytes)?;
    loaded(alloc, bytes)
}

/// Lowers the words of a picture by each record of the scene, or by those alone that are of class 2
/// and not withheld.
fn lower_all(words: &mut [u64], chosen: bool)
    requires { length words.old ≡ 256 }
{
    for i in 0..SCENE {
        let (across, down, depth, class) = scattered(i);
        if !chosen || class == 2 {
            let word = &mut words[(down * 16 + across) as usize];
            *word = (*word).min((u64::from(depth) << 32) + u64::from(i));
        }
    }
}

/// Whether 1, 2 and 3 workers draw these words of a survey.
fn draws<R: Abort + Threads + Sync>(
    rt: &R,
    alloc: Global,
    survey: &Survey,
    classes: &Classes,
    blocks: &Blocks,
    view: &ViewSpec,
    wanted: &[u64],
) -> Result<(), OutOfMemory>
    requires records { length classes.now ≡ record_count survey.now }
    requires blocks { IsBlocks survey.now blocks.now }
{
    for (workers, pixels) in [(1, 0), (2, 1), (3, 100_000)] {
        let empty = EmptyWords::new(alloc, pixels)?;
        let words = nearest_words(
            alloc, rt, survey, classes, blocks, view, workers, &empty, &NoBeside,
        )?;
        assert!(rt; are(&words, wanted));
    }
    Ok(())
}

/// Compares the words of the scene with those of the plain loop, by blocks of both kinds.
fn compare<R: Abort + Threads + Sync>(
    rt: &R,
    alloc: Global,
    survey: &Survey,
    view: &ViewSpec,
    chosen: bool,
) -> Result<(), OutOfMemory> {
    let mut wanted = vec![in alloc; u64::MAX; 256]?;
    lower_all(wanted.as_mut_slice(), chosen);
    let classes = base(alloc, survey)?;
    let by_cells = build(alloc, rt, 1, survey)?;
    draws(rt, alloc, survey, &classes, &by_cells, view, &wanted)?;
    let by_number = build_by_number(alloc, survey)?;
    draws(rt, alloc, survey, &classes, &by_number, view, &wanted)
}

#[test]
fn workers_draw_what_a_plain_loop_draws(rt: HostRuntime) -> Result<(), Fail> {
    let survey = scene(rt.alloc())?;
    let whole = view_of(&rt, SQUARE, ClassSet::all(), false);
    compare(&rt, rt.alloc(), &survey, &whole, false)?;
    let mut ground = ClassSet::empty();
    ground.add(2);
    let chosen = view_of(&rt, SQUARE, ground, true);
    compare(&rt, rt.alloc(), &survey, &chosen, true)?;
    Ok(())
}
