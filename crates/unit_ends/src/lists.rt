ghost use Rattle.std.specs.Prelude.{◌≡◌, ◌++◌, ◌-◌, ◌≤◌, length, replicate, take};

use std::test::Fail;
use view_base::Bytes;

/// Overwrites the items from a place on.
fn overwrite(list: &mut Bytes, from: usize, item: u8)
    requires { from ≤ length list.old.items }
    ensures items { list.new.items ≡ take from list.old.items ++ replicate (length list.old.items - from) item }
    ensures spare { list.new.spare ≡ list.old.spare }
{
    list.tail_mut(from).fill(item);
}

/// Appends a bit of each kind within the room.
#[tactic(auto, using(view_base::proofs::Decimals::length_decimal, view_base::proofs::Decimals::length_signed_decimal))]
fn append_each(list: &mut Bytes, below: i32, number: u64)
    requires { 50 ≤ list.old.spare }
{
    list.append_within(b"edit ");
    list.append_signed(i64::from(below));
    list.push_within(b' ');
    list.append_decimal(number);
    list.extend_by(3, b'.');
}

#[test]
fn a_list_takes_what_it_has_room_for(rt: HostRuntime) -> Result<(), Fail> {
    let mut list = Bytes::new(rt.alloc());
    list.reserve(50)?;
    append_each(&mut list, -2147483648, 18446744073709551615);
    assert_eq!(rt;
        list.as_slice(),
        b"edit -2147483648 18446744073709551615...".as_slice()
    );
    Ok(())
}

#[test]
fn a_tail_is_written_in_place(rt: HostRuntime) -> Result<(), Fail> {
    let mut list = Bytes::from_vec(Vec::from_slice(rt.alloc(), b"abcdef")?);
    overwrite(&mut list, 4, b'x');
    assert_eq!(rt; list.as_slice(), b"abcdxx".as_slice());
    Ok(())
}
