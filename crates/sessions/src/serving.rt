ghost use Rattle.std.specs.Prelude.{◌≡◌, ◌+◌, ◌^◌, [], None};
ghost use Rattle.version_store.specs.Sharing.{IsOwn};
ghost use Rattle.sessions.specs.Hearing.{HasHeard};
ghost use Rattle.sessions.specs.Listening.{Listened, Read, Wrote, reason_of};
ghost use Rattle.sessions.specs.Session.{Served};
ghost use Rattle.sessions.specs.Talk.{IsReady, talk_of};
ghost use Rattle.sessions.specs.Worlds.{IsWorld, HasGivenBack, survey_of};
ghost use Rattle.sessions.specs.declared.end.Reason.TheVariants.{Memory};
ghost use Rattle.sessions.specs.declared.pending.TheConstants.{LINE};

use crate::end::{Marks, Reason, SessionEnd};
use crate::hearing::{hear, hear_end};
use crate::pending::Pending;
use crate::world::World;
use std::alloc::Global;
use std::sync::Wait;
use std::thread::Threads;
use version_store::Pass;
use view_ends::{Beside, EndFault, Failed, Sink, Source};

/// The most bytes of a session's input.
pub const INPUT_LIMIT: usize = 1 << 20;

/// How many bytes are asked of a source at once.
const PIECE: usize = 1 << 14;

/// Serves one session among others: answers each line of its input in order, and writes the
/// replies to all lines that have ended before it asks the source for more.
///
/// Its pass makes the entries of its lines in the shared history, in order. Which lines it
/// processed is known by its input, how many bytes of it were taken, why it ended and how many
/// marks it has. Byte 2^20 + 1 is taken only once every line among the first 2^20 bytes has its
/// reply whole; nothing can fail after that.
pub fn serve_session<R: Threads + Wait + Sync, I: Source, O: Sink, B: Beside>(
    alloc: Global,
    rt: &R,
    world: &World,
    pass: &mut Pass,
    source: &mut I,
    sink: &mut O,
    beside: &B,
) -> SessionEnd
    requires world { IsWorld world.now }
    requires gate { pass.old.gate ≡ world.now.shared.name }
    requires outside { pass.old.turn ≡ None }
    requires own { IsOwn pass.old }
    requires given_back { HasGivenBack pass.old.seen pass.old.who }
    ensures served { Served (survey_of world.now) pass.old.seen pass.new.seen pass.old.who
        (I.left source.old) (O.got sink.old) (O.got sink.new) result.marks.items result.reason result.taken }
    ensures own { IsOwn pass.new }
    ensures pass { pass.new ≡ record pass.old { seen = pass.new.seen; mine = pass.new.mine } }
    ensures given_back { HasGivenBack pass.new.seen pass.old.who }
    ensures taken { I.taken source.new ≡ I.taken source.old + result.taken }
    ensures reads { Read (I.faults source.old) (I.faults source.new) result.reason }
    ensures writes { Wrote (O.faults sink.old) (O.faults sink.new) result.reason }
    ensures line { LINE ≡ 4096 }
    ensures limit { INPUT_LIMIT ≡ 2 ^ 20 }
{
    let Ok(mut pending) = Pending::new(alloc) else {
        return memory_end(alloc);
    };
    let mut marks = Marks::new(alloc);
    let (reason, taken) = listen(
        alloc,
        rt,
        world,
        pass,
        &mut marks,
        &mut pending,
        source,
        sink,
        beside,
    );
    SessionEnd {
        marks,
        reason,
        taken,
    }
}

/// The end of a session for which there was no memory at all.
fn memory_end(alloc: Global) -> SessionEnd
    ensures marks { result.marks.items ≡ [] }
    ensures reason { result.reason ≡ Memory }
    ensures taken { result.taken ≡ 0 }
{
    SessionEnd {
        marks: Marks::new(alloc),
        reason: Reason::Memory,
        taken: 0,
    }
}

/// Hears an input to its end, or as far as it goes, and answers why it went no further and how
/// many bytes were taken.
fn listen<R: Threads + Wait + Sync, I: Source, O: Sink, B: Beside>(
    alloc: Global,
    rt: &R,
    world: &World,
    pass: &mut Pass,
    marks: &mut Marks,
    pending: &mut Pending,
    source: &mut I,
    sink: &mut O,
    beside: &B,
) -> (Reason, u64)
    requires world { IsWorld world.now }
    requires ready { IsReady world.now.shared.name pass.old }
    requires heard { HasHeard (survey_of world.now) [] (talk_of pass.old marks.old) pending.old
        (record { pass = pass.old; got = O.got sink.old }) (O.got sink.old) }
    ensures ready { IsReady world.now.shared.name pass.new }
    ensures listened { Listened (survey_of world.now) (talk_of pass.new marks.new) (record { pass = pass.old; got = O.got sink.old })
        (I.left source.old) (O.got sink.new) result.0 result.1 }
    ensures taken { I.taken source.new ≡ I.taken source.old + result.1 }
    ensures reads { Read (I.faults source.old) (I.faults source.new) result.0 }
    ensures writes { Wrote (O.faults sink.old) (O.faults sink.new) result.0 }
{
    let mut piece = [0u8; PIECE];
    let mut taken = 0;
    loop {
        let room = (INPUT_LIMIT - taken).max(1).min(PIECE);
        match source.take(&mut piece[..room]) {
            Err(Failed) => return (Reason::ReadFault, taken as u64),
            Ok(0) => {
                let last = hear_end(alloc, rt, world, pass, marks, pending, beside, sink);
                return (reason_of(last), taken as u64);
            }
            Ok(n) => {
                taken += n;
                if taken > INPUT_LIMIT {
                    return (Reason::SessionLimit, taken as u64);
                }
                let heard = hear(
                    alloc,
                    rt,
                    world,
                    pass,
                    marks,
                    pending,
                    &piece[..n],
                    beside,
                    sink,
                );
                if heard.is_err() {
                    return (reason_of(heard), taken as u64);
                }
            }
        }
    }
}

/// Why a session ended whose last replies went so.
fn reason_of(answered: Result<(), EndFault>) -> Reason
    ensures { result ≡ reason_of answered }
{
    match answered {
        Ok(()) => Reason::Finished,
        Err(EndFault::Failed) => Reason::WriteFault,
        Err(EndFault::Memory) => Reason::Memory,
    }
}
