ghost use Rattle.std.specs.Prelude.{◌≤◌};

use int_camera::CameraLimit;
use std::process::Abort;
use view_lines::{Command, Holding, Refusal, read_command, read_holding};

/// What a line for a survey of this format asks for: the width of a picture, the class of an edit,
/// 1000 for a count of records that are not withheld and 1001 for one of all, and 0 for a save; or
/// the code that refuses it.
fn told(line: &[u8], format: u8) -> Result<u32, u8>
    requires { format ≤ 10 }
{
    match read_command(line, format) {
        Ok(command) => Ok(number_of(&command)),
        Err(refusal) => Err(refusal.code()),
    }
}

fn number_of(command: &Command) -> u32 {
    match command {
        Command::View(view) => view.camera.width(),
        Command::Edit(edit) => u32::from(edit.to),
        Command::Count(filter) => 1001 - u32::from(filter.hide_withheld),
        Command::Save => 0,
    }
}

fn is_told(rt: &impl Abort, line: &[u8], format: u8, wanted: Result<u32, u8>) {
    assert!(rt; format <= 10);
    assert_eq!(rt; told(line, format), wanted);
}

#[test]
fn each_kind_of_line_is_its_command(rt: HostRuntime) {
    for (line, format, number) in [
        (
            b" view\tortho 3 1 0 0 0 1 0 0 0 1 0 0 0 1 1 1 0 10 class all show ".as_slice(),
            0,
            3,
        ),
        (
            b"view persp 5 1 0 0 0 1 0 0 0 1 0 0 0 1 1 1 1 10 rgb16 2,6 hide".as_slice(),
            2,
            5,
        ),
        (
            b"view ortho 7 1 0 0 0 1 0 0 0 1 0 0 0 1 1 1 0 10 intensity 0-4 hide".as_slice(),
            9,
            7,
        ),
        (b"edit 1 2 3 4 5 6 all 31".as_slice(), 0, 31),
        (b"count 9-18 hide".as_slice(), 0, 1000),
        (b"\tcount  all show".as_slice(), 7, 1001),
        (b"save".as_slice(), 0, 0),
    ] {
        is_told(&rt, line, format, Ok(number));
    }
}

#[test]
fn other_lines_are_refused_by_the_first_code_that_applies(rt: HostRuntime) {
    for (line, format, code) in [
        (b"".as_slice(), 0, 1),
        (b" \t".as_slice(), 0, 1),
        (b"Save".as_slice(), 0, 1),
        (b"save it".as_slice(), 0, 1),
        (b"count all".as_slice(), 0, 1),
        (b"count all show show".as_slice(), 0, 1),
        (b"count 5-3 hide".as_slice(), 0, 1),
        (b"edit 0 0 0 9 9 9 all 32 x".as_slice(), 0, 1),
        (b"edit 0 0 0 9 9 9 all 32".as_slice(), 0, 4),
        (
            b"view ortho 4097 1 0 0 0 1 0 0 0 1 0 0 0 1 1 1 0 10 rgb8 256 show".as_slice(),
            0,
            1,
        ),
        (
            b"view ortho 4097 1 0 0 0 1 0 0 0 1 0 0 0 1 1 1 0 10 rgb8 all show".as_slice(),
            0,
            2,
        ),
        (
            b"view persp 1 1 0 0 0 1 0 0 0 1 0 0 0 1 1 1 0 10 class all show".as_slice(),
            0,
            2,
        ),
        (
            b"view ortho 1 1 0 0 0 1 0 0 0 1 0 0 0 1 1 1 0 10 rgb16 all show".as_slice(),
            9,
            3,
        ),
        (
            b"view ortho 1 1 0 0 0 1 0 0 0 1 0 0 0 1 1 1 0 10 rgb8 all show".as_slice(),
            0,
            3,
        ),
    ] {
        is_told(&rt, line, format, Err(code));
    }
}

#[test]
fn a_camera_number_out_of_its_range_is_named(rt: HostRuntime) {
    let wide = b"view persp 1 1 0 0 0 1 0 0 0 1 0 0 0 1 1048577 1 0 10 rgb8 all show";
    let limit = CameraLimit {
        place: 15,
        value: 1048577,
    };
    assert_eq!(rt; read_command(wide, 0).err(), Some(Refusal::Limit(limit)));
}

#[test]
fn a_line_that_holds_or_releases_is_one_word_and_no_command_yet(rt: HostRuntime) {
    for (line, wanted) in [
        (b"hold".as_slice(), Some(Holding::Hold)),
        (b"\trelease ".as_slice(), Some(Holding::Release)),
        (b"hold 1".as_slice(), None),
        (b"release release".as_slice(), None),
        (b"Hold".as_slice(), None),
        (b"holds".as_slice(), None),
        (b" ".as_slice(), None),
    ] {
        assert_eq!(rt; read_holding(line), wanted);
        is_told(&rt, line, 0, Err(1));
    }
}

#[test]
fn what_a_session_holds_is_refused_by_codes_of_its_own(rt: HostRuntime) {
    assert_eq!(rt; Refusal::AlreadyHeld.code(), 5);
    assert_eq!(rt; Refusal::NotHeld.code(), 6);
}
