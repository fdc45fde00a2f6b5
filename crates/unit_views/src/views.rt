use int_camera::CameraLimit;
use std::alloc::{AllocError, Global};
use std::process::Abort;
use view_base::{Colouring, WordsOf};
use view_text::{TextFault, ViewSpec, read_filter, read_view, read_view_from};

/// The width of a view's picture, or the place of the first of its words that does not fit.
fn width_of(read: Result<ViewSpec, TextFault>) -> Result<u32, u32> {
    match read {
        Ok(view) => Ok(view.camera.width()),
        Err(TextFault::Line { at }) => Err(at),
        Err(TextFault::Limit(_)) => Err(100),
    }
}

/// The first camera number of a view that is out of its range: its place and its value.
fn limit_of(line: &[u8]) -> Option<(u8, i128)> {
    match read_view(line) {
        Err(TextFault::Limit(CameraLimit { place, value })) => Some((place, value)),
        _ => None,
    }
}

/// The colouring of a view, whether its filter has a class, and whether it hides withheld records.
fn shown_by(line: &[u8], class: u8) -> Option<(Colouring, bool, bool)> {
    match read_view(line) {
        Ok(view) => Some((
            view.colouring,
            view.filter.classes.has(class),
            view.filter.hide_withheld,
        )),
        Err(_) => None,
    }
}

fn shows(rt: &impl Abort, line: &[u8], class: u8, wanted: (Colouring, bool, bool)) {
    assert_eq!(rt; shown_by(line, class), Some(wanted));
}

#[test]
fn the_words_of_a_view_give_all_of_it(rt: HostRuntime) {
    for (line, class, wanted) in [
        (
            b"ortho 3 007 0 0 0 1 0 0 0 1 0 0 0 1 1 1 -0 10 class 9-18,255 show".as_slice(),
            255,
            (Colouring::Class, true, false),
        ),
        (
            b"persp 4096 1 0 0 0 1 0 0 0 1 0 0 0 1 1048576 1 1 10 rgb16 3 hide".as_slice(),
            4,
            (Colouring::Rgb16, false, true),
        ),
        (
            b"ortho 5 1 0 0 0 1 0 0 0 1 0 0 0 1 1048577 1 0 10 rgb8 all hide".as_slice(),
            0,
            (Colouring::Rgb8, true, true),
        ),
        (
            b"persp 6 1 0 0 0 1 0 0 0 1 0 0 0 1 1 1 1 10 intensity 4,2-3 show".as_slice(),
            2,
            (Colouring::Intensity, true, false),
        ),
    ] {
        shows(&rt, line, class, wanted);
    }
}

#[test]
fn the_first_word_that_does_not_fit_is_named(rt: HostRuntime) {
    for (line, at) in [
        (b"".as_slice(), 0),
        (
            b"Ortho 1 1 0 0 0 1 0 0 0 1 0 0 0 1 1 1 0 10 class all show".as_slice(),
            0,
        ),
        (
            b"persp 1 +1 0 0 0 1 0 0 0 1 0 0 0 1 1 1 0 10 class all show".as_slice(),
            2,
        ),
        (b"ortho 1 1 0 0 0 1 0 0 0 1 0 0 0 1 1 1 0 10".as_slice(), 19),
        (
            b"ortho 1 1 0 0 0 1 0 0 0 1 0 0 0 1 1 1 0 10 rgb all show".as_slice(),
            19,
        ),
        (
            b"ortho 1 1 0 0 0 1 0 0 0 1 0 0 0 1 1 1 0 10 rgb8 5-3 show".as_slice(),
            20,
        ),
        (
            b"ortho 4097 1 0 0 0 1 0 0 0 1 0 0 0 1 1 1 0 10 rgb8 3-5 both".as_slice(),
            21,
        ),
        (
            b"ortho 1 1 0 0 0 1 0 0 0 1 0 0 0 1 1 1 0 10 class all show x".as_slice(),
            22,
        ),
    ] {
        assert_eq!(rt; width_of(read_view(line)), Err(at));
    }
}

#[test]
fn the_first_number_out_of_its_range_is_named(rt: HostRuntime) {
    for (line, limit) in [
        (
            b"ortho 4097 0 0 0 0 1 0 0 0 1 0 0 0 1 1 1 0 10 class all show".as_slice(),
            (1, 4097),
        ),
        (
            b"ortho 4096 4096 0 0 0 1 0 0 0 1 0 0 0 1 1 1 0 10 rgb8 3 hide".as_slice(),
            (19, 16777216),
        ),
        (
            b"persp 1 1 0 0 0 1 0 0 0 1 0 0 0 1 1048577 1 0 10 class all show".as_slice(),
            (15, 1048577),
        ),
        (
            b"persp 1 1 0 0 0 1 0 0 0 1 0 0 0 1 1 1 0 10 class all show".as_slice(),
            (17, 0),
        ),
    ] {
        assert_eq!(rt; limit_of(line), Some(limit));
    }
}

/// Whether a filter has a class and whether it hides withheld records, or the place of the first
/// word that does not fit.
fn filter_of(line: &[u8], class: u8) -> Result<(bool, bool), TextFault> {
    match read_filter(line) {
        Ok(filter) => Ok((filter.classes.has(class), filter.hide_withheld)),
        Err(fault) => Err(fault),
    }
}

#[test]
fn a_filter_is_a_class_list_and_what_becomes_of_withheld_records(rt: HostRuntime) {
    for (line, class, wanted) in [
        (b" 9-18\thide ".as_slice(), 18, Ok((true, true))),
        (b"9-18 show".as_slice(), 8, Ok((false, false))),
        (b"all show".as_slice(), 255, Ok((true, false))),
        (b"".as_slice(), 0, Err(TextFault::Line { at: 0 })),
        (b"9-8 hide".as_slice(), 8, Err(TextFault::Line { at: 0 })),
        (b"all".as_slice(), 8, Err(TextFault::Line { at: 1 })),
        (b"all Show".as_slice(), 8, Err(TextFault::Line { at: 1 })),
        (b"all show x".as_slice(), 8, Err(TextFault::Line { at: 2 })),
    ] {
        assert_eq!(rt; filter_of(line, class), wanted);
    }
}

/// The words of a line that commas part.
fn separate(alloc: Global, line: &str) -> Result<Vec<String>, AllocError> {
    let mut words = Vec::new(alloc);
    for word in line.split(',') {
        words.push(word.to_string(alloc)?)?;
    }
    Ok(words)
}

/// The words that commas part say this of a view's picture.
fn separate_are(rt: &impl Abort, alloc: Global, line: &str, wanted: Result<u32, u32>) {
    let words = separate(alloc, line).expect(rt, "memory for words");
    assert_eq!(rt; width_of(read_view_from(WordsOf::Separate(&words))), wanted);
}

#[test]
fn separate_words_may_be_empty_or_hold_blanks(rt: HostRuntime) {
    for (line, wanted) in [
        (
            "ortho,3,1,0,0,0,1,0,0,0,1,0,0,0,1,1,1,0,10,class,all,show",
            Ok(3),
        ),
        (
            "ortho,3,1,0,0,0,1,0,0,0,1,0,0,0,1,1,1,0,10,class,,show",
            Err(20),
        ),
        (
            "ortho,3,1,0,0,0,1,0,0,0,1,0,0,0,1,1,1,0,10,class,all,show ",
            Err(21),
        ),
        (
            "ortho,3,1,0,0,0,1,0,0,0,1,0,0,0,1,1,1,0,10,class,all,show,",
            Err(22),
        ),
    ] {
        separate_are(&rt, rt.alloc(), line, wanted);
    }
}
