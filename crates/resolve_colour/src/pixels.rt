ghost use Rattle.std.specs.Prelude.{◌≡◌, ◌*◌, ◌-◌, ◌<◌, ◌≤◌, ◌++◌, All, length, take, drop, replicate, true};
ghost use Rattle.std.specs.List.{flat_map};
ghost use Rattle.std.specs.Thread.{IsSync};
ghost use Rattle.resolve_colour.specs.Names.{IsPaintable, NamesOne, part_colours};
ghost use Rattle.view_meaning.specs.Frame.{word_colour};
ghost use Rattle.view_meaning.specs.Picture.{can_colour};
ghost use Rattle.view_meaning.specs.Survey.{record_count, format_of};

use crate::paint::{ByClass, ByIntensity, ByRgb8, ByRgb16, Paint};
use crate::records::Records;
use crate::words::PixelWords;
use class_pages::Classes;
use las_survey::Survey;
use std::thread::{Threads, join_mut};
use view_base::{Bytes, Colouring};

/// The word of a pixel that shows no record.
const EMPTY: u64 = u64::MAX;

/// From how many pixels on a picture's colours are shared among workers.
const SHARED: usize = 4096;

/// Appends the colours of words, three bytes for each: those of the record whose number is the
/// word's lower half, under these classes, or black where the word is all ones and names none.
/// They fit in the room, so this takes no memory. So many workers, 1 to 64, write them side by side
/// where threads can be started, and the bytes are the same for each number.
///
/// The class palette is this project's own. RGB of 16 bits a channel shows by its upper byte, RGB
/// of 8 bits by its value up to 255, and intensity by its upper byte as a grey.
pub fn colours<R: Threads + Sync, W: PixelWords + Sync>(
    rt: &R,
    workers: u32,
    words: &W,
    survey: &Survey,
    classes: &Classes,
    colouring: Colouring,
    out: &mut Bytes,
)
    requires workers { (1 ≤ workers) × (workers ≤ 64) }
    requires can_colour { can_colour (format_of survey.now) colouring ≡ true }
    requires names { All (NamesOne (record_count survey.now)) (W.words words.now) }
    requires records { length classes.now ≡ record_count survey.now }
    requires room { 3 * length (W.words words.now) ≤ out.old.spare }
    ensures { out.new.items ≡ out.old.items ++ flat_map (word_colour survey.now classes.now colouring) (W.words words.now) }
{
    match colouring {
        Colouring::Class => {
            append_colours::<R, W, ByClass>(rt, workers, words, survey, classes, out)
        }
        Colouring::Rgb16 => {
            append_colours::<R, W, ByRgb16>(rt, workers, words, survey, classes, out)
        }
        Colouring::Rgb8 => {
            append_colours::<R, W, ByRgb8>(rt, workers, words, survey, classes, out)
        }
        Colouring::Intensity => {
            append_colours::<R, W, ByIntensity>(rt, workers, words, survey, classes, out)
        }
    }
}

/// Appends the colours of words by one colouring.
fn append_colours<R: Threads + Sync, W: PixelWords + Sync, P: Paint + Sync>(
    rt: &R,
    workers: u32,
    words: &W,
    survey: &Survey,
    classes: &Classes,
    out: &mut Bytes,
)
    requires can_colour { can_colour (format_of survey.now) P.colouring ≡ true }
    requires names { All (NamesOne (record_count survey.now)) (W.words words.now) }
    requires records { length classes.now ≡ record_count survey.now }
    requires room { 3 * length (W.words words.now) ≤ out.old.spare }
    ensures { out.new.items ≡ out.old.items ++ flat_map (word_colour survey.now classes.now P.colouring) (W.words words.now) }
{
    let pixels = words.len();
    let from = out.len();
    out.extend_by(3 * pixels, 0);
    let colours = out.tail_mut(from);
    let records = Records { survey, classes };
    colour_side_by_side::<R, W, P>(rt, workers, words, 0, pixels, &records, colours);
}

/// Writes over black the three bytes of each of these words from `first` to before `end`, by workers side by side,
/// each with its share of the pixels, or by one where they are few.
#[tactic(auto, using(crate::proofs::Colouring::coloured_parts))]
fn colour_side_by_side<R: Threads + Sync, W: PixelWords + Sync, P: Paint + Sync>(
    rt: &R,
    workers: u32,
    words: &W,
    first: usize,
    end: usize,
    records: &Records,
    colours: &mut [u8],
)
    requires { IsPaintable records.now P.colouring (W.words words.now) first end colours.old }
    ensures { colours.new ≡ part_colours records.now P.colouring (W.words words.now) first end }
{
    if workers < 2 || end - first < SHARED {
        colour_pixels::<W, P>(colours, words, first, end, records);
        return;
    }
    let front_workers = workers / 2;
    let back_workers = workers - front_workers;
    let half = front_share(end - first, workers);
    let middle = first + half;
    let (front, back) = colours.split_at_mut(3 * half);
    join_mut(
        rt,
        &mut ||
            requires { IsSync R.row × IsSync W.row × IsSync P.row
                × IsPaintable records.now P.colouring (W.words words.now) first middle front.now }
            ensures { front.exit.now ≡ part_colours records.entry.now P.colouring (W.words words.entry.now) first middle }
        { colour_side_by_side::<R, W, P>(rt, front_workers, words, first, middle, records, front) },
        &mut ||
            requires { IsSync R.row × IsSync W.row × IsSync P.row
                × IsPaintable records.now P.colouring (W.words words.now) middle end back.now }
            ensures { back.exit.now ≡ part_colours records.entry.now P.colouring (W.words words.entry.now) middle end }
        { colour_side_by_side::<R, W, P>(rt, back_workers, words, middle, end, records, back) },
    );
}

/// How many of so many pixels the first half of the workers paints.
fn front_share(pixels: usize, workers: u32) -> usize
    requires workers { 1 ≤ workers }
    ensures { result ≤ pixels }
{
    pixels / workers as usize * (workers / 2) as usize
}

/// Writes over black the three bytes of each of these words from `first` to before `end`.
fn colour_pixels<W: PixelWords, P: Paint>(
    colours: &mut [u8],
    words: &W,
    first: usize,
    end: usize,
    records: &Records,
)
    requires { IsPaintable records.now P.colouring (W.words words.now) first end colours.old }
    ensures { colours.new ≡ part_colours records.now P.colouring (W.words words.now) first end }
{
    let Records { survey, classes } = *records;
    for pixel in 0..end - first {
        let place = 3 * pixel;
        paint_over::<P>(
            &mut colours[place..place + 3],
            words.word(first + pixel),
            survey,
            classes,
        );
    }
}

/// Writes the three bytes of a pixel with this word over black, which stays where it names no record.
#[inline]
fn paint_over<P: Paint>(pixel: &mut [u8], word: u64, survey: &Survey, classes: &Classes)
    requires can_colour { can_colour (format_of survey.now) P.colouring ≡ true }
    requires names { NamesOne (record_count survey.now) word }
    requires records { length classes.now ≡ record_count survey.now }
    requires black { pixel.old ≡ replicate 3 0 }
    ensures { pixel.new ≡ word_colour survey.now classes.now P.colouring word }
{
    if word != EMPTY {
        pixel.copy_from_slice(&P::paint(survey, classes, (word % (1 << 32)) as u32));
    }
}
