use crate::survey_faults::loaded;
use crate::survey_versions::{fill_1_2, fill_1_4};
use las_survey::Survey;
use std::alloc::Global;
use std::process::Abort;
use std::test::Fail;
use view_base::Bytes;

/// Where the class byte of record `i` is set, the survey is the file with the byte at a place
/// changed, and has the header of before.
fn is_set_at(rt: &impl Abort, survey: &mut Survey, file: &mut [u8], i: u32, at: usize) {
    assert!(rt; i < survey.records() && at < file.len());
    let header = *survey.header();
    survey.set_class_byte(i, 0xc5);
    file[at] = 0xc5;
    assert_eq!(rt; survey.bytes(), &*file);
    assert_eq!(rt; *survey.header(), header);
}

fn survey_of(alloc: Global, file: &[u8]) -> Result<Survey, Fail> {
    Ok(loaded(alloc, file)?)
}

fn sets(rt: &impl Abort, alloc: Global, file: Bytes, i: u32, at: usize) -> Result<(), Fail> {
    let mut survey = survey_of(alloc, file.as_slice())?;
    let mut all = file.into_vec();
    is_set_at(rt, &mut survey, all.as_mut_slice(), i, at);
    Ok(())
}

#[test]
fn a_class_byte_of_format_0_stands_at_15(rt: HostRuntime) -> Result<(), Fail> {
    let mut file = Bytes::new(rt.alloc());
    fill_1_2(&mut file)?;
    // 352, one record of 20 bytes, and 15.
    sets(&rt, rt.alloc(), file, 1, 387)
}

#[test]
fn a_class_byte_of_format_7_stands_at_16(rt: HostRuntime) -> Result<(), Fail> {
    let mut file = Bytes::new(rt.alloc());
    fill_1_4(&mut file)?;
    // 437, two records of 40 bytes, and 16.
    sets(&rt, rt.alloc(), file, 2, 533)
}
