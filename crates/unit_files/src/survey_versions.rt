use crate::survey_faults::{found, found_in_header, is_loaded, is_refused};
use crate::survey_files::{
    EMPTY, EMPTY_1_2, EMPTY_1_3, Fields, RECORDS, append_all, append_evlr, append_header,
    append_vlr,
};
use las_survey::{Header, HeaderFault, LoadFault, SurveyFault, VlrPlace};
use std::alloc::Global;
use std::process::Abort;
use std::test::Fail;
use view_base::{Bytes, OutOfMemory};

/// The header's fields of a survey of LAS 1.2 with two records straight after its header.
const PLAIN_1_2: Header = Header {
    minor: 2,
    size: 227,
    points_at: 227,
    vlrs: 0,
    format: 0,
    length: 20,
    records: 2,
    evlrs_at: 0,
    evlrs: 0,
};

/// Of LAS 1.2: two variable length records at 227 and 289, a gap of 5 bytes at 347, and two point
/// records up to 392.
pub fn fill_1_2(bytes: &mut Bytes) -> Result<(), OutOfMemory> {
    let fields = Fields {
        points_at: 352,
        vlrs: 2,
        count: 2,
        ..EMPTY_1_2
    };
    append_header(bytes, &fields)?;
    append_vlr(bytes, 8)?;
    append_vlr(bytes, 4)?;
    append_all(bytes, &[&[0; 5], &RECORDS])
}

/// Of LAS 1.3: two point records up to 275, and 7 bytes after them.
fn fill_1_3(bytes: &mut Bytes) -> Result<(), OutOfMemory> {
    let fields = Fields {
        count: 2,
        ..EMPTY_1_3
    };
    append_header(bytes, &fields)?;
    append_all(bytes, &[&RECORDS, &[0x44; 7]])
}

/// Of LAS 1.4 in format 7: a variable length record at 375, three point records of 40 bytes at 437,
/// an extended record at 557, and 3 bytes after it, up to 624.
pub fn fill_1_4(bytes: &mut Bytes) -> Result<(), OutOfMemory> {
    let fields = Fields {
        points_at: 437,
        vlrs: 1,
        format: 7,
        length: 40,
        evlrs_at: 557,
        evlrs: 1,
        records: 3,
        ..EMPTY
    };
    append_header(bytes, &fields)?;
    append_vlr(bytes, 8)?;
    bytes.append(&[7; 120])?;
    append_evlr(bytes)?;
    bytes.append(&[0x44; 3])
}

fn fault_1_2(have: u64) -> Option<LoadFault> {
    match have {
        0..227 => found_in_header(HeaderFault::TooShort { have }),
        227..289 => found(SurveyFault::Vlr { k: 0, at: 227 }),
        289..347 => found(SurveyFault::Vlr { k: 1, at: 289 }),
        347..392 => found(SurveyFault::Points { need: 392, have }),
        _ => None,
    }
}

fn fault_1_3(have: u64) -> Option<LoadFault> {
    match have {
        0..235 => found_in_header(HeaderFault::TooShort { have }),
        235..275 => found(SurveyFault::Points { need: 275, have }),
        _ => None,
    }
}

fn fault_1_4(have: u64) -> Option<LoadFault> {
    match have {
        0..375 => found_in_header(HeaderFault::TooShort { have }),
        375..437 => found(SurveyFault::Vlr { k: 0, at: 375 }),
        437..557 => found(SurveyFault::Points { need: 557, have }),
        557..621 => found(SurveyFault::Evlr { k: 0, at: 557 }),
        _ => None,
    }
}

/// Of LAS 1.2: two point records straight after the header.
fn fill_plain(bytes: &mut Bytes) -> Result<(), OutOfMemory> {
    let fields = Fields {
        count: 2,
        ..EMPTY_1_2
    };
    append_header(bytes, &fields)?;
    bytes.append(&RECORDS)
}

#[test]
fn bytes_at_247_of_las_1_2_are_no_count(rt: HostRuntime) -> Result<(), Fail> {
    let mut bytes = Bytes::new(rt.alloc());
    fill_plain(&mut bytes)?;
    is_loaded(&rt, rt.alloc(), bytes.as_slice(), &PLAIN_1_2, &[], &[]);
    Ok(())
}

#[test]
fn a_survey_of_las_1_2_is_cut_at_each_length(rt: HostRuntime) -> Result<(), Fail> {
    let mut bytes = Bytes::new(rt.alloc());
    fill_1_2(&mut bytes)?;
    let header = Header {
        points_at: 352,
        vlrs: 2,
        ..PLAIN_1_2
    };
    let vlrs = [
        VlrPlace { at: 227, length: 8 },
        VlrPlace { at: 289, length: 4 },
    ];
    is_loaded(&rt, rt.alloc(), bytes.as_slice(), &header, &vlrs, &[]);
    for have in 0..bytes.len() {
        let want = fault_1_2(have as u64);
        is_refused(&rt, rt.alloc(), &bytes.as_slice()[..have], want);
    }
    Ok(())
}

#[test]
fn a_survey_of_las_1_3_is_cut_at_each_length(rt: HostRuntime) -> Result<(), Fail> {
    let mut bytes = Bytes::new(rt.alloc());
    fill_1_3(&mut bytes)?;
    let header = Header {
        minor: 3,
        size: 235,
        points_at: 235,
        ..PLAIN_1_2
    };
    is_loaded(&rt, rt.alloc(), bytes.as_slice(), &header, &[], &[]);
    for have in 0..bytes.len() {
        let want = fault_1_3(have as u64);
        is_refused(&rt, rt.alloc(), &bytes.as_slice()[..have], want);
    }
    Ok(())
}

#[test]
fn a_survey_of_las_1_4_is_cut_at_each_length(rt: HostRuntime) -> Result<(), Fail> {
    let mut bytes = Bytes::new(rt.alloc());
    fill_1_4(&mut bytes)?;
    let header = Header {
        minor: 4,
        size: 375,
        points_at: 437,
        vlrs: 1,
        format: 7,
        length: 40,
        records: 3,
        evlrs_at: 557,
        evlrs: 1,
    };
    let vlrs = [VlrPlace { at: 375, length: 8 }];
    let evlrs = [VlrPlace { at: 557, length: 4 }];
    is_loaded(&rt, rt.alloc(), bytes.as_slice(), &header, &vlrs, &evlrs);
    for have in 0..bytes.len() {
        let want = fault_1_4(have as u64);
        is_refused(&rt, rt.alloc(), &bytes.as_slice()[..have], want);
    }
    Ok(())
}
