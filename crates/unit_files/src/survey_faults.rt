use crate::survey_files::{EMPTY, EMPTY_1_2, EMPTY_1_3, Fields, append_header};
use las_survey::{Header, HeaderFault, LoadFault, Survey, SurveyFault, VlrPlace, load};
use std::alloc::Global;
use std::process::Abort;
use std::test::Fail;
use view_base::{Bytes, OutOfMemory};
use view_ends::StillSource;

/// The survey of a file's bytes.
pub fn loaded(alloc: Global, file: &[u8]) -> Result<Survey, LoadFault> {
    let mut bytes = Bytes::new(alloc);
    bytes.append(file)?;
    load(alloc, &mut StillSource::new(bytes))
}

/// A file is refused so, or loaded where no fault is wanted.
pub fn is_refused(rt: &impl Abort, alloc: Global, file: &[u8], want: Option<LoadFault>) {
    assert_eq!(rt; loaded(alloc, file).err(), want);
}

/// A file is loaded with these fields and places.
pub fn is_loaded(
    rt: &impl Abort,
    alloc: Global,
    file: &[u8],
    header: &Header,
    vlrs: &[VlrPlace],
    evlrs: &[VlrPlace],
) {
    match loaded(alloc, file) {
        Ok(survey) => {
            holds(rt, &survey, file, header);
            has_places(rt, &survey, vlrs, evlrs);
        }
        Err(fault) => assert_eq!(rt; Some(fault), None),
    }
}

/// A survey has these bytes and fields.
fn holds(rt: &impl Abort, survey: &Survey, file: &[u8], header: &Header) {
    assert_eq!(rt; survey.bytes(), file);
    assert_eq!(rt; *survey.header(), *header);
    assert_eq!(rt; u64::from(survey.records()), header.records);
}

/// A survey has these places of variable length records and of extended ones.
fn has_places(rt: &impl Abort, survey: &Survey, vlrs: &[VlrPlace], evlrs: &[VlrPlace]) {
    assert_eq!(rt; survey.vlrs().as_slice(), vlrs);
    assert_eq!(rt; survey.evlrs().as_slice(), evlrs);
}

/// The file of a header and what follows it.
fn file(alloc: Global, fields: &Fields, rest: &[u8]) -> Result<Bytes, OutOfMemory> {
    let mut bytes = Bytes::new(alloc);
    append_header(&mut bytes, fields)?;
    bytes.append(rest)?;
    Ok(bytes)
}

/// Why a file of a header and what follows it is refused.
fn refusal(alloc: Global, fields: &Fields, rest: &[u8]) -> Option<LoadFault> {
    match file(alloc, fields, rest) {
        Ok(bytes) => loaded(alloc, bytes.as_slice()).err(),
        Err(OutOfMemory) => Some(LoadFault::Memory),
    }
}

/// A file of LAS 1.4 with 180 bytes after its header is refused so.
fn is_refused_with_180(rt: &impl Abort, alloc: Global, fields: &Fields, want: Option<LoadFault>) {
    assert_eq!(rt; refusal(alloc, fields, &[0; 180]), want);
}

pub fn found(fault: SurveyFault) -> Option<LoadFault> {
    Some(LoadFault::Survey(fault))
}

pub fn found_in_header(fault: HeaderFault) -> Option<LoadFault> {
    found(SurveyFault::Header(fault))
}

/// A file of a header alone, of which one byte is changed, is refused so.
fn is_refused_with_byte(
    rt: &impl Abort,
    alloc: Global,
    fields: &Fields,
    change: (usize, u8),
    fault: HeaderFault,
) {
    assert_eq!(rt;
        changed_refusal(alloc, fields, change),
        found_in_header(fault)
    );
}

/// Why a file of a header alone is refused, of which one byte is changed.
fn changed_refusal(alloc: Global, fields: &Fields, change: (usize, u8)) -> Option<LoadFault> {
    match file(alloc, fields, &[]) {
        Ok(bytes) => loaded(alloc, changed(bytes, change).as_slice()).err(),
        Err(OutOfMemory) => Some(LoadFault::Memory),
    }
}

/// A file with the byte at a place changed.
fn changed(bytes: Bytes, (at, byte): (usize, u8)) -> Bytes {
    let mut all = bytes.into_vec();
    if at < all.len() {
        all[at] = byte;
    }
    Bytes::from_vec(all)
}

#[test]
fn each_condition_on_the_header_has_its_fault(rt: HostRuntime) {
    let (have, least) = (20, 34);
    for (change, fault) in [
        ((3, b'f'), HeaderFault::Signature),
        ((94, 0x76), HeaderFault::HeaderSize { size: 374 }),
        ((104, 128), HeaderFault::Compressed { byte: 128 }),
        ((104, 134), HeaderFault::Compressed { byte: 134 }),
        ((104, 127), HeaderFault::Format { byte: 127 }),
        ((104, 11), HeaderFault::Format { byte: 11 }),
        ((104, 3), HeaderFault::RecordLength { have, least }),
        ((96, 0x76), HeaderFault::Offset { offset: 374 }),
    ] {
        is_refused_with_byte(&rt, rt.alloc(), &EMPTY, change, fault);
    }
}

#[test]
fn a_version_is_told_after_the_signature_and_before_the_bytes_of_its_block(rt: HostRuntime) {
    for (change, fault) in [
        ((3, b'f'), HeaderFault::Signature),
        ((24, 2), HeaderFault::Version { major: 2, minor: 2 }),
        ((25, 1), HeaderFault::Version { major: 1, minor: 1 }),
        ((25, 5), HeaderFault::Version { major: 1, minor: 5 }),
        ((25, 3), HeaderFault::TooShort { have: 227 }),
        ((25, 4), HeaderFault::TooShort { have: 227 }),
        ((94, 226), HeaderFault::HeaderSize { size: 226 }),
    ] {
        is_refused_with_byte(&rt, rt.alloc(), &EMPTY_1_2, change, fault);
    }
    let small = HeaderFault::HeaderSize { size: 234 };
    is_refused_with_byte(&rt, rt.alloc(), &EMPTY_1_3, (94, 234), small);
}

/// The first `length` bytes of a file of LAS 1.4 are refused so.
fn is_part_refused(
    rt: &impl Abort,
    alloc: Global,
    signature: [u8; 4],
    (length, fault): (usize, HeaderFault),
) {
    assert_eq!(rt;
        part_refusal(alloc, signature, length),
        found_in_header(fault)
    );
}

/// Why the first `length` bytes of a file of LAS 1.4 are refused.
fn part_refusal(alloc: Global, signature: [u8; 4], length: usize) -> Option<LoadFault> {
    match file(alloc, &Fields { signature, ..EMPTY }, &[]) {
        Ok(bytes) => loaded(alloc, bytes.as_slice().get(..length).unwrap_or(&[])).err(),
        Err(OutOfMemory) => Some(LoadFault::Memory),
    }
}

#[test]
fn a_short_file_of_las_1_4_is_told_after_its_signature(rt: HostRuntime) {
    for (length, fault) in [
        (226, HeaderFault::TooShort { have: 226 }),
        (227, HeaderFault::Signature),
        (374, HeaderFault::Signature),
    ] {
        let have = length as u64;
        let short = HeaderFault::TooShort { have };
        is_part_refused(&rt, rt.alloc(), *b"LASF", (length, short));
        is_part_refused(&rt, rt.alloc(), *b"LASf", (length, fault));
    }
}

#[test]
fn a_part_that_the_file_only_claims_is_refused(rt: HostRuntime) {
    let most = u32::MAX;
    // 375 and 65535 times 2^64 - 1.
    let need = 1208907372870555465089400;
    for (fields, fault) in [
        // Three records of 54 bytes fit into the 180 that follow the header, and then three of 60.
        (
            Fields {
                points_at: most,
                vlrs: most,
                ..EMPTY
            },
            SurveyFault::Vlr { k: 3, at: 537 },
        ),
        (
            Fields {
                evlrs_at: 375,
                evlrs: most,
                ..EMPTY
            },
            SurveyFault::Evlr { k: 3, at: 555 },
        ),
        (
            Fields {
                evlrs_at: 374,
                evlrs: 1,
                ..EMPTY
            },
            SurveyFault::Evlr { k: 0, at: 374 },
        ),
        (
            Fields {
                evlrs_at: u64::MAX,
                evlrs: 1,
                ..EMPTY
            },
            SurveyFault::Evlr { k: 0, at: u64::MAX },
        ),
        (
            Fields {
                length: 65535,
                records: u64::MAX,
                ..EMPTY
            },
            SurveyFault::Points { need, have: 555 },
        ),
        // 375 and 20 times 10.
        (
            Fields { count: 10, ..EMPTY },
            SurveyFault::Points {
                need: 575,
                have: 555,
            },
        ),
    ] {
        is_refused_with_180(&rt, rt.alloc(), &fields, found(fault));
    }
}

#[test]
fn a_file_is_accepted_up_to_each_bound(rt: HostRuntime) {
    for fields in [
        Fields {
            points_at: 537,
            vlrs: 3,
            ..EMPTY
        },
        Fields {
            evlrs_at: 375,
            evlrs: 3,
            ..EMPTY
        },
        // The start of extended records is not looked at where there are none.
        Fields {
            evlrs_at: 7,
            ..EMPTY
        },
        Fields { count: 9, ..EMPTY },
        // The number at 107 is not looked at where the other is not 0.
        Fields {
            count: 10,
            records: 1,
            ..EMPTY
        },
    ] {
        is_refused_with_180(&rt, rt.alloc(), &fields, None);
    }
}

/// A file of a header alone, of this format and record length, is refused so.
fn is_refused_with_length(
    rt: &impl Abort,
    alloc: Global,
    (format, length): (u8, u16),
    want: Option<LoadFault>,
) {
    let fields = Fields {
        format,
        length,
        ..EMPTY
    };
    assert_eq!(rt; refusal(alloc, &fields, &[]), want);
}

/// The fault of a record length.
fn too_short(have: u16, least: u16) -> Option<LoadFault> {
    found_in_header(HeaderFault::RecordLength { have, least })
}

#[test]
fn each_format_has_its_least_record_length(rt: HostRuntime) {
    let least_lengths = [20, 28, 26, 34, 57, 63, 30, 36, 38, 59, 67];
    for (format, least) in (0..11).zip(least_lengths) {
        is_refused_with_length(&rt, rt.alloc(), (format, least), None);
        let short = too_short(least - 1, least);
        is_refused_with_length(&rt, rt.alloc(), (format, least - 1), short);
    }
}

/// A record of 55 bytes with one of them after its header, and 5 bytes, between a header and points
/// that begin at a place.
fn is_refused_with_gap(
    rt: &impl Abort,
    alloc: Global,
    (points_at, want): (u32, Option<LoadFault>),
) {
    let fields = Fields {
        points_at,
        vlrs: 1,
        ..EMPTY
    };
    let mut rest = [0; 60];
    rest[20] = 1;
    assert_eq!(rt; refusal(alloc, &fields, &rest), want);
}

#[test]
fn a_record_before_the_points_leaves_a_gap_or_is_refused(rt: HostRuntime) {
    let cut = found(SurveyFault::Vlr { k: 0, at: 375 });
    for case in [(429, cut), (430, None), (435, None)] {
        is_refused_with_gap(&rt, rt.alloc(), case);
    }
}

/// A fault is printed so.
fn is_text(rt: &impl Abort, alloc: Global, fault: &SurveyFault, text: &str) -> Result<(), Fail> {
    assert_eq!(rt; format!(in alloc; "{fault}")?.as_str(), text);
    Ok(())
}

#[test]
fn each_fault_of_a_header_has_its_text(rt: HostRuntime) -> Result<(), Fail> {
    let (have, least) = (33, 34);
    for (fault, text) in [
        (HeaderFault::TooShort { have: 374 }, "only 374 bytes"),
        (HeaderFault::Signature, "no LASF signature"),
        (HeaderFault::Version { major: 1, minor: 1 }, "version 1.1"),
        (HeaderFault::HeaderSize { size: 374 }, "header size 374"),
        (
            HeaderFault::Compressed { byte: 134 },
            "compressed points, format byte 134",
        ),
        (HeaderFault::Format { byte: 11 }, "point format 11"),
        (
            HeaderFault::RecordLength { have, least },
            "record length 33, least 34",
        ),
        (HeaderFault::Offset { offset: 374 }, "point offset 374"),
    ] {
        is_text(&rt, rt.alloc(), &SurveyFault::Header(fault), text)?;
    }
    Ok(())
}

#[test]
fn each_fault_of_a_part_has_its_text(rt: HostRuntime) -> Result<(), Fail> {
    let (need, have) = (395, 394);
    for (fault, text) in [
        (SurveyFault::Vlr { k: 0, at: 375 }, "VLR 0 at 375"),
        (
            SurveyFault::Points { need, have },
            "points need 395 bytes, file has 394",
        ),
        (SurveyFault::Evlr { k: 2, at: 495 }, "EVLR 2 at 495"),
    ] {
        is_text(&rt, rt.alloc(), &fault, text)?;
    }
    Ok(())
}
