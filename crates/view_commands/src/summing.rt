ghost use Rattle.std.specs.Prelude.{◌≡◌, ◌%◌, ◌^◌, IfOk};
ghost use Rattle.std.specs.List.{sum};
ghost use Rattle.view_commands.specs.Trial.{sums};

use std::alloc::Global;
use survey_info::append_line;
use view_base::{Bytes, OutOfMemory};

/// The most bytes of a line: `replies `, a number of 20 digits and the end.
const LINE: usize = 29;

/// The text that a trial writes: how many records and bytes its survey has, and how many bytes the
/// replies, and their sum modulo 2^64, each in a line.
#[tactic(auto, unfolding(crate::specs::Trial::sums))]
pub(crate) fn summary_text(
    alloc: Global,
    records: u32,
    bytes: usize,
    replies: &[u8],
) -> Result<Bytes, OutOfMemory>
    ensures { IfOk result (λ text. text.items ≡ sums records bytes replies.now) }
{
    let mut text = Bytes::new(alloc);
    text.reserve(4 * LINE)?;
    append_line(&mut text, b"records ", u64::from(records));
    append_line(&mut text, b"bytes ", bytes as u64);
    append_line(&mut text, b"replies ", replies.len() as u64);
    append_line(&mut text, b"sum ", sum_of(replies));
    Ok(text)
}

/// The sum of bytes modulo 2^64.
fn sum_of(bytes: &[u8]) -> u64
    ensures { result ≡ sum bytes.now % 2 ^ 64 }
{
    let mut total: u64 = 0;
    for byte in bytes {
        total = total.wrapping_add(u64::from(*byte));
    }
    total
}
