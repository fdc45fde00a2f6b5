use view_base::{next_word, read_number};

#[test]
fn a_line_gives_its_words_in_order(rt: HostRuntime) {
    let line = b" \tedit  7\t";
    for (at, word) in [
        (0, Some((2, 6))),
        (4, Some((4, 6))),
        (6, Some((8, 9))),
        (9, None),
    ] {
        assert_eq!(rt; next_word(line, at), word);
    }
}

#[test]
fn a_number_has_one_to_twenty_digits(rt: HostRuntime) {
    for (word, number) in [
        (b"007".as_slice(), Some(7)),
        (b"-0", Some(0)),
        (b"-99999999999999999999", Some(-99999999999999999999)),
        (b"100000000000000000000", None),
        (b"+1", None),
        (b"-", None),
        (b"", None),
    ] {
        assert_eq!(rt; read_number(word), number);
    }
}
