ghost use Rattle.std.specs.Prelude.{◌≡◌, ◌+◌, ◌≤◌, ◌++◌, length, codes, decimal};
ghost use Rattle.sessions.specs.Session.{head};

use view_base::Bytes;

/// The most bytes of a head line: a word of seven letters, two spaces, two numbers of twenty
/// digits, and LF.
pub const HEAD: usize = 50;

/// Appends the head line of a reply: a word, the version that answers, and a number. It fits in
/// the room, so it takes no memory.
#[tactic(auto, using(view_base::proofs::Decimals::length_decimal))]
pub fn append_head(out: &mut Bytes, word: &[u8], version: u64, number: u64)
    requires word { length word.now ≤ 7 }
    requires room { HEAD ≤ out.old.spare }
    ensures { out.new.items ≡ out.old.items ++ head word.now version number }
{
    out.append_within(word);
    out.append_within(b" ");
    out.append_decimal(version);
    out.append_within(b" ");
    out.append_decimal(number);
    out.append_within(b"\n");
}

/// Appends the line that refuses a command by its code. It fits in the room.
#[tactic(auto, using(view_base::proofs::Decimals::length_decimal_byte))]
pub(crate) fn append_refusal(out: &mut Bytes, code: u8)
    requires room { HEAD ≤ out.old.spare }
    ensures { out.new.items ≡ out.old.items ++ codes "REFUSED " ++ decimal code ++ codes "\n" }
{
    out.append_within(b"REFUSED ");
    out.append_decimal(u64::from(code));
    out.append_within(b"\n");
}
