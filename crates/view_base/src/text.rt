ghost use Rattle.std.specs.Prelude.{◌≡◌, ◌^◌, ◌<◌, ◌≤◌, not, [], ◌∷◌, length, drop, slice_range, IfSome, IfNone};
ghost use Rattle.std.specs.List.{AllPass, position};
ghost use Rattle.view_base.specs.Text.{is_blank, IsNextWord, words, digits, number};

/// Whether a byte is a blank of a line: a space or a tab.
fn is_blank(byte: u8) -> bool
    ensures { result ≡ is_blank byte }
{
    byte == b' ' || byte == b'\t'
}

/// The place of the first byte of a line that isn't a blank.
fn first_letter(line: &[u8]) -> Option<usize>
    ensures { result ≡ position (λ c. not (is_blank c)) line.now }
{
    line.iter().position(|byte| !is_blank(*byte))
}

/// The place of the first blank of a line.
fn first_blank(line: &[u8]) -> Option<usize>
    ensures { result ≡ position is_blank line.now }
{
    line.iter().position(|byte| is_blank(*byte))
}

/// Where the first word of the bytes from `at` on starts, and where it ends, or `None` where they
/// have no word. A word is a longest run of bytes other than space and tab.
pub fn next_word(line: &[u8], at: usize) -> Option<(usize, usize)>
    requires { at ≤ length line.now }
    ensures place { IfSome result (λ p. IsNextWord line.now at p.0 p.1) }
    ensures word { IfSome result
        (λ p. words (drop at line.now)
        ≡ slice_range line.now p.0 p.1 ∷ words (drop p.1 line.now)) }
    ensures blank { IfNone result (AllPass is_blank (drop at line.now)) }
    ensures wordless { IfNone result (words (drop at line.now) ≡ []) }
{
    let start = at + first_letter(&line[at..])?;
    let end = match first_blank(&line[start..]) {
        Some(length) => start + length,
        None => line.len(),
    };
    Some((start, end))
}

/// The value of a word of 1 to 20 decimal digits, or `None` where it is anything else.
pub fn read_digits(word: &[u8]) -> Option<u128>
    ensures value { result ≡ digits word.now }
    ensures small { IfSome result (λ n. n < 10 ^ 20) }
{
    if word.is_empty() || word.len() > 20 {
        return None;
    }
    let mut value = 0;
    for byte in word {
        if !byte.is_ascii_digit() {
            return None;
        }
        value = value * 10 + u128::from(*byte - b'0');
    }
    Some(value)
}

/// The value of a word that is a number: an optional `-`, then 1 to 20 digits. Leading zeros are
/// allowed and `-0` is 0; `None` where the word is anything else.
pub fn read_number(word: &[u8]) -> Option<i128>
    ensures { result ≡ number word.now }
{
    if word.is_empty() {
        return None;
    }
    if word[0] == b'-' {
        return Some(-(read_digits(&word[1..])? as i128));
    }
    Some(read_digits(word)? as i128)
}
