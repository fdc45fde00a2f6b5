use int_camera::CameraLimit;
use std::alloc::{AllocError, Global};
use std::process::Abort;
use view_text::TextFault;
use view_words::{Row, pair_count, read_draw, read_row, records, row_of, start, text_at, workers};

/// The words of a line, which single spaces part; two spaces have an empty word between them.
fn words(alloc: Global, line: &str) -> Result<Vec<String>, AllocError> {
    let mut words = Vec::new(alloc);
    if line.is_empty() {
        return Ok(words);
    }
    for word in line.split(' ') {
        words.push(word.to_string(alloc)?)?;
    }
    Ok(words)
}

/// The place of the first refused word of a line, by the row whose command it begins with.
fn refused(words: &[String]) -> Option<u32> {
    match row_of(words) {
        Some(row) => read_row(row, words).err(),
        None => Some(0),
    }
}

/// The first refused word of a line stands at this place.
fn is_refused(rt: &impl Abort, alloc: Global, line: &str, at: u32) {
    let words = words(alloc, line).expect(rt, "memory for words");
    assert_eq!(rt; refused(&words), Some(at));
}

#[test]
fn the_first_refused_word_or_the_number_of_words_is_named(rt: HostRuntime) {
    for (line, at) in [
        ("", 0),
        ("paint a b", 0),
        ("Draw a b 1", 0),
        ("draw", 1),
        ("draw  b", 1),
        ("draw a", 2),
        ("draw a ", 2),
        ("draw a a 65", 2),
        ("draw a b 65", 3),
        ("draw a b 0", 3),
        ("draw a b -1", 3),
        ("draw a b +1", 3),
        ("draw a b 1", 4),
        ("draw a b 64 orth", 4),
        ("draw a b 1 ortho 1 +1", 6),
        (
            "draw a b 1 ortho 1 1 0 0 0 1 0 0 0 1 0 0 0 1 1 1 0 10 class all",
            25,
        ),
        (
            "draw a b 1 ortho 1 1 0 0 0 1 0 0 0 1 0 0 0 1 1 1 0 10 class all show x",
            26,
        ),
        ("info a", 2),
        ("info a b c", 3),
        ("info a a", 2),
        ("trial -1", 1),
        ("trial 18446744073709551616", 1),
        ("trial 0 8388609", 2),
        ("trial 0 -1", 2),
        ("trial 0 1 65", 3),
        ("trial 0 1 1", 4),
        ("trial 0 1 1 t t", 5),
        ("serve a", 2),
        ("serve a 1 a", 3),
        ("serve a 1 j", 4),
        ("serve a 1 j i1", 5),
        ("serve a 1 j i o i", 6),
        ("serve a 1 j i o p", 7),
        ("serve - 1 - - o", 4),
        ("serve a 1 - i -", 5),
        (
            "serve a 1 j 0 1 2 3 4 5 6 7 8 9 10 11 12 13 14 15 16 17 18 19 20 21 22 23 24 25 26 27 28 29 30 31 32",
            36,
        ),
    ] {
        is_refused(&rt, rt.alloc(), line, at);
    }
}

/// A line fits the row that its command names.
fn fits(rt: &impl Abort, alloc: Global, line: &str, row: Row) {
    let words = words(alloc, line).expect(rt, "memory for words");
    assert_eq!(rt; row_of(&words), Some(row));
    assert!(rt; read_row(row, &words).is_ok());
}

#[test]
fn words_that_fit_name_their_row(rt: HostRuntime) {
    for (line, row) in [
        (
            "draw - - 064 persp 1 1 0 0 0 1 0 0 0 1 0 0 0 1 1 1 0 10 rgb8 3,1-2 hide",
            Row::Draw,
        ),
        ("info a b", Row::Info),
        ("trial 18446744073709551615 -0 1 t", Row::Trial),
        ("trial 0 8388608 1 -", Row::Trial),
        ("serve a 1 j - -", Row::Serve),
        (
            "serve a 1 j 0 1 2 3 4 5 6 7 8 9 10 11 12 13 14 15 16 17 18 19 20 21 22 23 24 25 26 27 28 29 30 31",
            Row::Serve,
        ),
    ] {
        fits(&rt, rt.alloc(), line, row);
    }
}

#[test]
fn a_row_takes_its_own_command_alone(rt: HostRuntime) {
    let words = words(rt.alloc(), "info a b").expect(&rt, "memory for words");
    assert_eq!(rt; read_row(Row::Draw, &words).err(), Some(0));
    assert_eq!(rt; read_row(Row::Trial, &words).err(), Some(0));
}

/// The words of a trial say this.
fn tells(rt: &impl Abort, trial: &[String]) {
    assert!(rt; read_row(Row::Trial, trial).is_ok());
    assert_eq!(rt; start(trial), u64::MAX);
    assert_eq!(rt; records(trial), 8);
    assert_eq!(rt; workers(Row::Trial, trial), 64);
    assert_eq!(rt; text_at(trial, 4), "t");
}

#[test]
fn the_words_of_a_trial_are_told(rt: HostRuntime) {
    let trial = words(rt.alloc(), "trial 18446744073709551615 0008 064 t");
    tells(&rt, &trial.expect(&rt, "memory for words"));
}

/// The words of a serve have three workers and two pairs.
fn has_two_pairs(rt: &impl Abort, serve: &[String]) {
    assert!(rt; read_row(Row::Serve, serve).is_ok());
    assert_eq!(rt; workers(Row::Serve, serve), 3);
    assert_eq!(rt; pair_count(serve), 2);
}

#[test]
fn the_pairs_of_a_serve_are_counted(rt: HostRuntime) {
    let serve = words(rt.alloc(), "serve a 3 j i o p q");
    has_two_pairs(&rt, &serve.expect(&rt, "memory for words"));
}

/// The width of the picture that a `draw` asks for, or why it asks for none.
fn told(words: &[String]) -> Result<u32, TextFault> {
    match read_draw(words) {
        Ok(view) => Ok(view.camera.width()),
        Err(fault) => Err(fault),
    }
}

/// A camera number of this value that is out of its range.
fn limit(place: u8, value: i128) -> Result<u32, TextFault> {
    Err(TextFault::Limit(CameraLimit { place, value }))
}

/// The words of a line ask for this as those of a `draw`.
fn asks(rt: &impl Abort, alloc: Global, line: &str, wanted: Result<u32, TextFault>) {
    let words = words(alloc, line).expect(rt, "memory for words");
    assert_eq!(rt; told(&words), wanted);
}

#[test]
fn the_view_of_a_draw_is_told(rt: HostRuntime) {
    for (line, wanted) in [
        (
            "draw a b 1 persp 3 2 0 0 0 1 0 0 0 1 0 0 0 1 1048576 1 1 10 rgb8 0-255 hide",
            Ok(3),
        ),
        (
            "draw a b 1 persp 3 2 0 0 0 1 0 0 0 1 0 0 0 1 1048577 1 0 10 rgb8 0-255 hide",
            limit(15, 1048577),
        ),
        (
            "draw a b 1 persp 3 2 0 0 0 1 0 0 0 1 0 0 0 1 1048577 1 0 10 rgb8 0-256 hide",
            Err(TextFault::Line { at: 24 }),
        ),
        ("info a b", Err(TextFault::Line { at: 0 })),
    ] {
        asks(&rt, rt.alloc(), line, wanted);
    }
}
