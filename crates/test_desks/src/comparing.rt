use std::fmt::Debug;
use std::test::Fail;

/// What was got has to be what is wanted; `told` says where.
pub fn same<T: PartialEq + Debug>(got: &T, wanted: &T, told: &str) -> Result<(), Fail> {
    if got == wanted {
        return Ok(());
    }
    Err(Fail::new(format_args!("{told}: {got:?}, and not {wanted:?}")))
}
