ghost use Rattle.std.specs.Prelude.{◌≡◌, ◌<◌, ◌≤◌, length, IfSome};
ghost use Rattle.std.specs.List.{position};
ghost use Rattle.class_bits.specs.ClassSet.{members};
ghost use Rattle.class_bits.specs.Kept.{HasClasses, IsClassSet};
ghost use Rattle.class_bits.specs.ClassSet.{class_list, is_dash, item_range, range_of};

use crate::class_set::ClassSet;
use view_base::{WordKind, read_digits};

/// Words that are class lists.
pub struct ClassWord;

impl WordKind for ClassWord {
    type Value = ClassSet;

    ghost value = { class_list };

    ghost Keeps = { HasClasses };

    fn read(word: &[u8]) -> Option<ClassSet> {
        read_classes(word)
    }
}

/// The place of the first dash of an item.
fn first_dash(item: &[u8]) -> Option<usize>
    ensures { result ≡ position is_dash item.now }
{
    item.iter().position(|byte| *byte == b'-')
}

/// The range from one number to another, or `None` where one is missing, they fall, or the last
/// is above 255.
fn range(first: Option<u128>, last: Option<u128>) -> Option<(u8, u8)>
    ensures value { result ≡ range_of first last }
    ensures rises { IfSome result (λ r. r.0 ≤ r.1) }
{
    let first = first?;
    let last = last?;
    if first > last || last > 255 {
        return None;
    }
    Some((first as u8, last as u8))
}

/// The range of an item of a class list, or `None` where it is no item.
fn read_item(item: &[u8]) -> Option<(u8, u8)>
    ensures value { result ≡ item_range item.now }
    ensures rises { IfSome result (λ r. r.0 ≤ r.1) }
{
    match first_dash(item) {
        Some(dash) => range(read_digits(&item[..dash]), read_digits(&item[dash + 1..])),
        None => {
            let only = read_digits(item);
            range(only, only)
        }
    }
}

/// The set that a class list names, or `None` where the word is no class list. A class list is
/// `all`, or items joined by single commas: `a`, or `a-b` with `a` at most `b`, each 1 to 20
/// decimal digits with a value of at most 255.
pub fn read_classes(word: &[u8]) -> Option<ClassSet>
    ensures value { result ≡ class_list word.now }
    ensures words { IfSome result IsClassSet }
    ensures some { IfSome result (λ classes. 0 < length (members classes)) }
{
    if word == b"all".as_slice() {
        return Some(ClassSet::all());
    }
    let mut classes = ClassSet::empty();
    for item in word.split(|byte| *byte == b',') {
        let (first, last) = read_item(item)?;
        classes.add_range(first, last);
    }
    Some(classes)
}
