//! Surveys, edits and looks at classes that the tests share.
use class_pages::{Classes, PAGE};
use edit_ops::{Edit, read_edit};
use las_survey::{Survey, load};
use std::alloc::Global;
use std::process::Abort;
use std::sync::Arc;
use std::test::Fail;
use view_base::{Bytes, OutOfMemory};
use view_ends::StillSource;

/// Appends a survey of format 0 and so many records, of which record i is at (step i modulo their
/// number, 0, 0) and has this class byte.
pub(crate) fn append_survey(
    bytes: &mut Bytes,
    records: u32,
    step: u32,
    class: u8,
) -> Result<(), OutOfMemory> {
    append_header(bytes, records)?;
    append_records(bytes, records, step, class)
}

/// Appends the header of 375 bytes.
fn append_header(bytes: &mut Bytes, records: u32) -> Result<(), OutOfMemory> {
    bytes.append(b"LASF")?;
    bytes.append(&[0; 20])?;
    bytes.append(&[1, 4])?;
    bytes.append(&[0; 68])?;
    bytes.append(&375u16.to_le_bytes())?;
    bytes.append(&375u32.to_le_bytes())?;
    bytes.append(&[0; 5])?;
    bytes.append(&20u16.to_le_bytes())?;
    bytes.append(&[0; 140])?;
    bytes.append(&u64::from(records).to_le_bytes())?;
    bytes.append(&[0; 120])
}

/// Appends the records.
fn append_records(
    bytes: &mut Bytes,
    records: u32,
    step: u32,
    class: u8,
) -> Result<(), OutOfMemory> {
    for i in 0..records {
        let x = u64::from(i) * u64::from(step) % u64::from(records);
        bytes.append(&(x as u32).to_le_bytes())?;
        bytes.append(&[0, 0, 0, 0, 0, 0, 0, 0, 0, 0, 0, class, 0, 0, 0, 0])?;
    }
    Ok(())
}

/// A survey of so many records in class 2, of which record i is at (step i modulo their number, 0,
/// 0).
pub(crate) fn survey(alloc: Global, records: u32, step: u32) -> Result<Survey, Fail> {
    let mut bytes = Bytes::new(alloc);
    append_survey(&mut bytes, records, step, 2)?;
    loaded(alloc, bytes)
}

/// The survey of these bytes.
pub(crate) fn loaded(alloc: Global, bytes: Bytes) -> Result<Survey, Fail> {
    Ok(load(alloc, &mut StillSource::new(bytes))?)
}

/// The edit of a line.
pub(crate) fn edit_of(line: &[u8]) -> Result<Edit, Fail> {
    Ok(read_edit(line, 0)?)
}

/// The classes are those of a plain list.
pub(crate) fn are(classes: &Classes, plain: &[u8]) -> bool {
    let mut same = classes.len() == plain.len();
    for k in 0..classes.pages() {
        let page = classes.page(k).as_slice();
        let at = k as usize * PAGE;
        same = same & (plain.get(at..at.saturating_add(page.len())) == Some(page));
    }
    same
}

/// Whether each record has this class.
pub(crate) fn are_all(classes: &Classes, class: u8) -> bool {
    let mut same = true;
    for k in 0..classes.pages() {
        for other in classes.page(k).as_slice() {
            same = same & (*other == class);
        }
    }
    same
}

/// How many lists have each of the first two pages.
pub(crate) fn owners(rt: &impl Abort, classes: &Classes) -> [usize; 2] {
    assert_eq!(rt; classes.pages(), 2);
    [
        Arc::strong_count(classes.page(0)),
        Arc::strong_count(classes.page(1)),
    ]
}

/// How many records the long surveys have.
pub(crate) const RECORDS: u32 = 100000;

/// A number below that of the records, and the next seed.
fn drawn(seed: &mut u64) -> i32 {
    *seed = seed
        .wrapping_mul(6364136223846793005)
        .wrapping_add(1442695040888963407);
    ((*seed >> 33) % u64::from(RECORDS)) as i32
}

/// An edit on a stretch that a seed gives, of 8192 records at most.
pub(crate) fn drawn_edit(seed: &mut u64) -> Result<Edit, Fail> {
    let mut edit = match drawn(seed) % 3 {
        0 => edit_of(b"edit 0 0 0 0 0 0 2,9 6")?,
        1 => edit_of(b"edit 0 0 0 0 0 0 6 9")?,
        _ => edit_of(b"edit 0 0 0 0 0 0 6,9 2")?,
    };
    edit.area.min.x = drawn(seed);
    edit.area.max.x = edit.area.min.x.saturating_add(drawn(seed) % 8192);
    Ok(edit)
}

/// Makes an edit of a plain list, whose item i is the class of the record at (step i modulo their
/// number, 0, 0), and answers how many classes changed.
pub(crate) fn edit_plain(plain: &mut [u8], step: u32, edit: &Edit) -> u64 {
    let mut changed = 0u64;
    for i in 0..plain.len() {
        let x = (i as u64).wrapping_mul(u64::from(step)) % u64::from(RECORDS);
        let inside = edit.area.min.x <= x as i32 && x as i32 <= edit.area.max.x;
        if inside && edit.from.has(plain[i]) {
            changed = changed.wrapping_add(u64::from(plain[i] != edit.to));
            plain[i] = edit.to;
        }
    }
    changed
}
