//! Edit lines, read and written.
use class_bits::read_classes;
use edit_ops::{EditFault, applies, classes_text, edit_text, read_edit};
use std::alloc::Global;
use std::test::Fail;
use view_base::{Bytes, Point};

#[test]
fn an_edit_changes_its_classes_in_its_box(rt: HostRuntime) -> Result<(), Fail> {
    let edit = read_edit(b"edit -5 0 0 9 9 9 2,9-10 6", 0)?;
    let inside = Point { x: -5, y: 9, z: 0 };
    assert_eq!(rt; edit.to, 6);
    assert!(rt; applies(&edit, inside, 10));
    assert!(rt; !applies(&edit, inside, 3));
    assert!(rt; !applies(&edit, Point { x: -6, ..inside }, 2));
    Ok(())
}

#[test]
fn the_first_word_that_does_not_fit_is_named(rt: HostRuntime) {
    for (line, at) in [
        (b"".as_slice(), 0),
        (b"Edit 0 0 0 9 9 9 all 6".as_slice(), 0),
        (b"edit 2147483648 0 0 9 9 9 all 6".as_slice(), 1),
        (b"edit 0 0 0 9 9 9 5-3 6".as_slice(), 7),
        (b"edit 0 0 0 9 9 9 all".as_slice(), 8),
        (b"edit 0 0 0 9 9 9 all -1".as_slice(), 8),
        (b"edit 0 0 0 9 9 9 all 999999999999999999999".as_slice(), 8),
        (b"edit 0 0 0 9 9 9 all 6 x".as_slice(), 9),
    ] {
        let fault = read_edit(line, 0).err();
        assert_eq!(rt; fault, Some(EditFault::Line { at }));
    }
}

#[test]
fn a_class_above_the_format_is_named(rt: HostRuntime) {
    let fault = read_edit(b"edit 0 0 0 9 9 9 all 32", 5).err();
    assert_eq!(rt; fault, Some(EditFault::ClassRange { class: 32 }));
    let fault = read_edit(b"edit 0 0 0 9 9 9 all 99999999999999999999", 6).err();
    let class = 99999999999999999999;
    assert_eq!(rt; fault, Some(EditFault::ClassRange { class }));
    assert!(rt; read_edit(b"edit 0 0 0 9 9 9 all 32", 6).is_ok());
}

/// Whether a line is written as this canonical one, on to bytes that stand already.
fn is_canonical(alloc: Global, line: &[u8], canonical: &[u8]) -> Result<bool, Fail> {
    let edit = read_edit(line, 6)?;
    let mut text = Bytes::new(alloc);
    edit_text(&edit, &mut text)?;
    Ok(text.as_slice() == canonical)
}

#[test]
fn a_line_is_written_canonically(rt: HostRuntime) -> Result<(), Fail> {
    for (line, canonical) in [
        (
            b"edit 007 -0 0 9 9 9 3,1-2,2 06".as_slice(),
            b"edit 7 0 0 9 9 9 1-3 6".as_slice(),
        ),
        (
            b" edit\t-2147483648 0 0 0 0 2147483647 0-255 255".as_slice(),
            b"edit -2147483648 0 0 0 0 2147483647 all 255".as_slice(),
        ),
        (
            b"edit 0 0 0 0 0 0 255,7,9-10,0 0".as_slice(),
            b"edit 0 0 0 0 0 0 0,7,9-10,255 0".as_slice(),
        ),
    ] {
        let same = is_canonical(rt.alloc(), line, canonical)?;
        assert!(rt; same);
    }
    Ok(())
}

/// Whether a class list is written as this canonical one, after a byte that stands already.
fn is_list(alloc: Global, list: &[u8], canonical: &[u8]) -> Result<bool, Fail> {
    let mut text = Bytes::new(alloc);
    text.append(b"=")?;
    if let Some(set) = read_classes(list) {
        classes_text(&set, &mut text)?;
    }
    Ok(text.as_slice() == canonical)
}

/// The class lists of the edit lines here and elsewhere, each as it stands in a canonical line.
#[test]
fn a_class_list_is_written_canonically(rt: HostRuntime) -> Result<(), Fail> {
    for (list, canonical) in [
        (b"all".as_slice(), b"=all".as_slice()),
        (b"0-255".as_slice(), b"=all".as_slice()),
        (b"3,1-2,2".as_slice(), b"=1-3".as_slice()),
        (b"255,7,9-10,0".as_slice(), b"=0,7,9-10,255".as_slice()),
        (b"2,9-10".as_slice(), b"=2,9-10".as_slice()),
        (b"9,6,2".as_slice(), b"=2,6,9".as_slice()),
        (b"0-254".as_slice(), b"=0-254".as_slice()),
        (b"007".as_slice(), b"=7".as_slice()),
    ] {
        let same = is_list(rt.alloc(), list, canonical)?;
        assert!(rt; same);
    }
    Ok(())
}
