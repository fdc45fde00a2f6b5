ghost use Rattle.std.specs.Prelude.{◌^◌, ◌<◌};
ghost use Rattle.view_base.specs.Text.{digits, number};

use crate::cursor::WordKind;
use crate::text::{read_digits, read_number};

/// Words of 1 to 20 decimal digits.
pub struct DigitsWord;

impl WordKind for DigitsWord {
    type Value = u128;

    ghost value = { digits };

    ghost Keeps = { λ n. n < 10 ^ 20 };

    fn read(word: &[u8]) -> Option<u128> {
        read_digits(word)
    }
}

/// Words that are numbers: an optional `-`, then 1 to 20 digits.
pub struct NumberWord;

impl WordKind for NumberWord {
    type Value = i128;

    ghost value = { number };

    ghost Keeps = { λ z. Unit {0} };

    fn read(word: &[u8]) -> Option<i128> {
        read_number(word)
    }
}
