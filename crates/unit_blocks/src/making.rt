ghost use Rattle.std.specs.Prelude.{◌≤◌};

use std::alloc::Global;
use std::process::Abort;
use survey_make::make;

/// The first record in format 0.
const RECORDS_0: &[u8] = b"\x7E\x7B\0\0\x11\xEE\0\0\x22\x08\0\0\xE9\x1A\0\x1A\0\0\0\0";

/// The first record in format 2.
const RECORDS_2: &[u8] =
    b"\x7E\x7B\0\0\x11\xEE\0\0\x22\x08\0\0\xE9\x1A\0\x1A\0\0\0\0\xE9\x1A\x7E\x7B\x11\xEE";

/// The first record in format 3.
const RECORDS_3: &[u8] =
    b"\x7E\x7B\0\0\x11\xEE\0\0\x22\x08\0\0\xE9\x1A\0\x1A\0\0\0\0\0\0\0\0\0\0\0\0\xE9\x1A\x7E\x7B\x11\xEE";

/// The first record in format 6.
const RECORDS_6: &[u8] =
    b"\x7E\x7B\0\0\x11\xEE\0\0\x22\x08\0\0\xE9\x1A\0\0\x1A\0\0\0\0\0\0\0\0\0\0\0\0\0";

/// The first two records in format 7.
const RECORDS_7: &[u8] =
    b"\x7E\x7B\0\0\x11\xEE\0\0\x22\x08\0\0\xE9\x1A\0\0\x1A\0\0\0\0\0\0\0\0\0\0\0\0\0\xE9\x1A\x7E\x7B\x11\xEE\x36\x7F\0\0\x70\x93\0\0\x8E\x07\0\0\xC1\x5B\0\0\x17\0\0\0\0\0\0\0\0\0\0\0\0\0\xC1\x5B\x36\x7F\x70\x93";

/// A survey of so many records of a format, made of 0, ends with these records.
fn ends_with(rt: &impl Abort, alloc: Global, format: u8, records: u32, last: &[u8])
    requires format { format ≤ 10 }
    requires few { records ≤ 2 }
{
    let bytes = make(alloc, 0, records, format).expect(rt, "memory for a survey");
    assert_eq!(rt; bytes.len(), 375usize.wrapping_add(last.len()));
    assert!(rt; bytes.as_slice().ends_with(last));
}

// The first draws of 0, by arithmetic: 335903614, 436792849, 2599843874, 1723210473, 1647660250;
// 2408873782, 339776368, 1528919950, 2073582529, 1918036279. So the first record has X 31614,
// Y 60945, Z 2082, intensity 6889 and class 26, and the second 32566, 37744, 1934, 23489 and 23.
#[test]
fn records_stand_as_their_format_says(rt: HostRuntime) {
    ends_with(&rt, rt.alloc(), 7, 0, b"");
    ends_with(&rt, rt.alloc(), 0, 1, RECORDS_0);
    ends_with(&rt, rt.alloc(), 2, 1, RECORDS_2);
    ends_with(&rt, rt.alloc(), 3, 1, RECORDS_3);
    ends_with(&rt, rt.alloc(), 6, 1, RECORDS_6);
    ends_with(&rt, rt.alloc(), 7, 2, RECORDS_7);
}
