use crate::surveys::{append_all, loaded};
use las_survey::Survey;
use std::alloc::Global;
use std::process::Abort;
use survey_info::info_text;
use view_base::{Bytes, OutOfMemory};

/// Appends a header of 375 bytes of format 7 and records of 40 bytes, with the WKT bit set.
fn append_header(
    bytes: &mut Bytes,
    points_at: u32,
    parts: u32,
    records: u64,
) -> Result<(), OutOfMemory> {
    append_all(
        bytes,
        &[
            b"LASF",
            &[0, 0, 16],
            &[0; 17],
            &[1, 4],
            &[0; 68],
            &375u16.to_le_bytes(),
            &points_at.to_le_bytes(),
            &parts.to_le_bytes(),
            &[7, 40, 0],
            &[0; 128],
            &557u64.to_le_bytes(),
            &parts.to_le_bytes(),
            &records.to_le_bytes(),
            &[0; 120],
        ],
    )
}

/// Appends what stands before the points: one variable length record with a placeholder for the
/// WKT text.
fn append_front(bytes: &mut Bytes) -> Result<(), OutOfMemory> {
    append_all(
        bytes,
        &[
            &[0, 0],
            b"LASF_Projection",
            &[0],
            &2112u16.to_le_bytes(),
            &8u16.to_le_bytes(),
            &[0; 32],
            &[0x11; 8],
        ],
    )
}

/// Appends a record of format 7 with four extra bytes.
fn append_record(bytes: &mut Bytes, [x, y, z, class]: [u8; 4]) -> Result<(), OutOfMemory> {
    append_all(
        bytes,
        &[
            &[x, 0, 0, 0, y, 0, 0, 0, z, 0, 0, 0, 0, 0, 0, 0, class],
            &[0; 19],
            &[0x22; 4],
        ],
    )
}

/// Appends what stands after the points: one extended variable length record, and three bytes.
fn append_back(bytes: &mut Bytes) -> Result<(), OutOfMemory> {
    append_all(
        bytes,
        &[
            &[0; 18],
            &1u16.to_le_bytes(),
            &4u64.to_le_bytes(),
            &[0; 32],
            &[0x33; 4],
            &[0x44; 3],
        ],
    )
}

/// Appends the three records.
fn append_records(bytes: &mut Bytes) -> Result<(), OutOfMemory> {
    for record in [[0, 0, 100, 1], [50, 0, 90, 1], [50, 50, 80, 2]] {
        append_record(bytes, record)?;
    }
    Ok(())
}

/// Appends a file with the parts that users' files have.
fn append_file(bytes: &mut Bytes) -> Result<(), OutOfMemory> {
    append_header(bytes, 437, 1, 3)?;
    append_front(bytes)?;
    append_records(bytes)?;
    append_back(bytes)
}

/// The text of a survey is this.
fn tells(rt: &impl Abort, alloc: Global, survey: &Survey, text: &[u8]) {
    let mut out = Bytes::new(alloc);
    assert!(rt; info_text(survey, &mut out).is_ok());
    assert_eq!(rt; out.as_slice(), text);
}

#[test]
fn the_text_tells_each_part_of_a_file(rt: HostRuntime) {
    let mut bytes = Bytes::new(rt.alloc());
    assert!(rt; append_file(&mut bytes).is_ok());
    tells(
        &rt,
        rt.alloc(),
        &loaded(rt.alloc(), bytes).expect(&rt, "a survey"),
        b"LAS 1.4\nheader 375\nformat 7\nlength 40\nrecords 3\nvlrs 1\nevlrs 1\nbytes 624\nbox 0 0 80 50 50 100\nclass 1 2\nclass 2 1\n",
    );
}

#[test]
fn a_file_without_records_has_no_box_and_no_class(rt: HostRuntime) {
    let mut bytes = Bytes::new(rt.alloc());
    assert!(rt; append_header(&mut bytes, 375, 0, 0).is_ok());
    tells(
        &rt,
        rt.alloc(),
        &loaded(rt.alloc(), bytes).expect(&rt, "a survey"),
        b"LAS 1.4\nheader 375\nformat 7\nlength 40\nrecords 0\nvlrs 0\nevlrs 0\nbytes 375\n",
    );
}
