//! Classes in pages, after edits and as a chooser picks them.
use crate::made::{RECORDS, are, are_all, drawn_edit, edit_of, edit_plain, owners, survey};
use class_pages::{Classes, base};
use edit_ops::Edit;
use las_survey::Survey;
use std::alloc::Global;
use std::process::Abort;
use std::test::Fail;

/// How many classes each of the first three pages has.
fn sizes(classes: &Classes) -> [usize; 3] {
    let mut sizes = [0; 3];
    for k in 0..classes.pages().min(3) {
        sizes[k as usize] = classes.page(k).as_slice().len();
    }
    sizes
}

/// The sizes of the pages of a survey of so many records.
fn sizes_of(alloc: Global, records: u32) -> Result<[usize; 3], Fail> {
    let survey = survey(alloc, records, 1)?;
    Ok(sizes(&base(alloc, &survey)?))
}

#[test]
fn the_last_page_has_what_is_left(rt: HostRuntime) -> Result<(), Fail> {
    for (records, wanted) in [
        (0, [0, 0, 0]),
        (1, [1, 0, 0]),
        (4095, [4095, 0, 0]),
        (4096, [4096, 0, 0]),
        (8193, [4096, 4096, 1]),
    ] {
        let got = sizes_of(rt.alloc(), records)?;
        assert_eq!(rt; got, wanted);
    }
    Ok(())
}

/// The classes after an edit, of which so many change.
fn edited(
    rt: &impl Abort,
    alloc: Global,
    survey: &Survey,
    classes: &Classes,
    edit: &Edit,
    wanted: u64,
) -> Result<Classes, Fail> {
    assert!(rt; edit.to <= 31);
    assert_eq!(rt; classes.len() as u64, u64::from(survey.records()));
    let (made, changed) = classes.edited(alloc, survey, edit)?;
    assert_eq!(rt; changed, wanted);
    Ok(made)
}

/// The classes of the records 0, 4095 and 4096.
fn at_three(rt: &impl Abort, classes: &Classes) -> [u8; 3] {
    assert_eq!(rt; classes.len(), 4097);
    [
        classes.class_at(0),
        classes.class_at(4095),
        classes.class_at(4096),
    ]
}

/// The classes of 4097 records as read, after an edit on both pages, and after one on the last;
/// and how many lists have the pages of each.
fn three_versions(
    rt: &impl Abort,
    alloc: Global,
    survey: &Survey,
) -> Result<[([u8; 3], [usize; 2]); 3], Fail> {
    let both = edit_of(b"edit 4095 0 0 4096 0 0 2 6")?;
    let last = edit_of(b"edit 4096 0 0 9000 0 0 6 9")?;
    let read = base(alloc, survey)?;
    let first = edited(rt, alloc, survey, &read, &both, 2)?;
    let second = edited(rt, alloc, survey, &first, &last, 1)?;
    Ok([
        (at_three(rt, &read), owners(rt, &read)),
        (at_three(rt, &first), owners(rt, &first)),
        (at_three(rt, &second), owners(rt, &second)),
    ])
}

/// The first edit changes both pages, so none of the survey's own is shared; the second leaves the
/// first page, which the two newer versions share.
#[test]
fn a_page_without_a_change_is_shared(rt: HostRuntime) -> Result<(), Fail> {
    let survey = survey(rt.alloc(), 4097, 1)?;
    let got = three_versions(&rt, rt.alloc(), &survey)?;
    assert_eq!(rt;
        got,
        [
            ([2, 2, 2], [1, 1]),
            ([2, 6, 6], [2, 1]),
            ([2, 6, 9], [2, 1]),
        ]
    );
    Ok(())
}

/// Makes forty edits of the newest classes and of the plain list.
fn edit_often(
    rt: &impl Abort,
    alloc: Global,
    survey: &Survey,
    newest: &mut Classes,
    plain: &mut [u8],
) -> Result<(), Fail> {
    let mut seed = 7;
    for _ in 0..40 {
        let edit = drawn_edit(&mut seed)?;
        let wanted = edit_plain(plain, 1, &edit);
        *newest = edited(rt, alloc, survey, newest, &edit, wanted)?;
    }
    Ok(())
}

/// Whether a version from many edits after these classes has those of a plain list.
fn edits_are_plain(
    rt: &impl Abort,
    alloc: Global,
    survey: &Survey,
    read: &Classes,
) -> Result<bool, Fail> {
    let none = edit_of(b"edit 0 0 0 0 0 0 9 6")?;
    let mut plain = vec![in alloc; 2u8; 100000]?;
    let mut newest = edited(rt, alloc, survey, read, &none, 0)?;
    edit_often(rt, alloc, survey, &mut newest, &mut plain)?;
    Ok(are(&newest, &plain))
}

/// The version from before the edits has its own classes afterwards.
#[test]
fn edits_by_pages_are_edits_of_a_plain_list(rt: HostRuntime) -> Result<(), Fail> {
    let survey = survey(rt.alloc(), RECORDS, 1)?;
    let read = base(rt.alloc(), &survey)?;
    let plain = edits_are_plain(&rt, rt.alloc(), &survey, &read)?;
    assert_eq!(rt; (plain, are_all(&read, 2)), (true, true));
    Ok(())
}
