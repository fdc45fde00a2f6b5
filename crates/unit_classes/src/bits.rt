//! Class bytes, filters and class lists.
use class_bits::{ClassSet, Filter, class_of, passes, read_classes, top_class, with_class};

#[test]
fn flags_stay_where_a_class_changes(rt: HostRuntime) {
    assert_eq!(rt; top_class(5), 31);
    assert_eq!(rt; class_of(0, 0xE2), 2);
    assert_eq!(rt; with_class(0, 0xE2, 6), 0xE6);
    assert_eq!(rt; top_class(6), 255);
    assert_eq!(rt; class_of(6, 0xC8), 200);
    assert_eq!(rt; with_class(10, 0xC8, 7), 7);
}

#[test]
fn a_hidden_flag_or_another_class_does_not_pass(rt: HostRuntime) {
    let mut classes = ClassSet::empty();
    classes.add(6);
    let filter = Filter {
        classes,
        hide_withheld: true,
    };
    assert!(rt; passes(&filter, 6, false));
    assert!(rt; !passes(&filter, 6, true));
    assert!(rt; !passes(&filter, 2, false));
}

#[test]
fn a_class_list_names_the_classes_of_its_items(rt: HostRuntime) {
    for (word, class, has) in [
        (b"all".as_slice(), 255, true),
        (b"3,1-2".as_slice(), 3, true),
        (b"3,1-2".as_slice(), 2, true),
        (b"3,1-2".as_slice(), 4, false),
        (b"007".as_slice(), 7, true),
        (b"9-18".as_slice(), 18, true),
        (b"9-18".as_slice(), 8, false),
    ] {
        let named = read_classes(word).map(|classes| classes.has(class));
        assert_eq!(rt; named, Some(has));
    }
}

#[test]
fn other_words_are_no_class_lists(rt: HostRuntime) {
    for word in [
        b"".as_slice(),
        b"5-3".as_slice(),
        b"3,,4".as_slice(),
        b"3,".as_slice(),
        b"256".as_slice(),
        b"-1".as_slice(),
        b"1-2-3".as_slice(),
        b"+1".as_slice(),
        b"All".as_slice(),
        b"000000000000000000001".as_slice(),
    ] {
        assert!(rt; read_classes(word).is_none());
    }
}
