ghost use Rattle.std.specs.Prelude.{◌≡◌, ◌+◌, ◌*◌, ◌<◌, ◌≤◌, true, [], length, vec_capacity, vec_len, IfErr, IfOk, IsSome, IsTrue, OnOk};
ghost use Rattle.std.specs.Vec.Iter.{into_iter_items};
ghost use Rattle.view_ends.specs.Calls.{IsFreshIn};
ghost use Rattle.view_base.specs.Fitting.{word_at};
ghost use Rattle.view_words.specs.CommandLine.{IsLine, texts};
ghost use Rattle.view_commands.specs.Run.{HasPair, input, output};
ghost use Rattle.view_commands.specs.Steps.{AreOpened, EachFrom, IsOpened, IsUnread, IsUnwritten, ShutsUnread, root_of};
ghost use Rattle.view_commands.specs.Steps.{OpensAll, OpensRead, OpensSession, OpensWritten};
ghost use Rattle.view_commands.specs.Steps.{RefusesNext, RefusesOpening, RefusesRead, RefusesWritten};

use crate::places::{INPUT, JOURNAL, OUTPUT};
use crate::seats::Seat;
use crate::status::Status;
use std::alloc::Global;
use std::vec::IntoIter;
use version_store::{Pass, Shared};
use view_ends::{Desk, EndFault};
use view_words::{Row, text_at};

/// The name of the input of session `k`, from 0.
pub(crate) fn input_name(words: &[String], k: u32) -> &str
    requires pair { HasPair (texts words.now) k }
    requires few { k < 16 }
    ensures { result.now ≡ input (texts words.now) k }
{
    text_at(words, (INPUT + 2 * k) as usize)
}

/// The name of its output.
pub(crate) fn output_name(words: &[String], k: u32) -> &str
    requires pair { HasPair (texts words.now) k }
    requires few { k < 16 }
    ensures { result.now ≡ output (texts words.now) k }
{
    text_at(words, (OUTPUT + 2 * k) as usize)
}

/// The name of the journal.
pub(crate) fn journal_name(words: &[String]) -> &str
    requires { HasPair (texts words.now) 0 }
    ensures { result.now ≡ word_at (texts words.now) JOURNAL }
{
    text_at(words, JOURNAL as usize)
}

/// Opens the names of `count` sessions in order, and then the journal, and splits a pass off for
/// each session, numbered from 1. After a refusal the inputs of the sessions that were opened are
/// still to be shut, and no output is kept.
pub(crate) fn open_all<D: Desk>(
    alloc: Global,
    desk: &mut D,
    words: &[String],
    count: u32,
    shared: &Shared,
    root: &mut Pass,
    seats: &mut Vec<Seat<D::In, D::Out>>,
) -> Result<D::Out, Status>
    requires line { IsLine Row.Serve (texts words.now) }
    requires pairs { length words.now ≡ 4 + 2 * count }
    requires some { 1 ≤ count }
    requires few { count ≤ 16 }
    requires root { root.old ≡ root_of shared.now.name 0 }
    requires none { seats.old.items ≡ [] }
    requires room { count ≤ vec_capacity seats.old }
    ensures opened { OnOk result (OpensAll D.tells (D.says desk.old) (D.says desk.new) (texts words.now) shared.now.name seats.new.items) }
    ensures count { OnOk result (length seats.new.items ≡ count) }
    ensures root { OnOk result (root.new ≡ record root.old { out = count; given = count }) }
    ensures journal { IfOk result (λ out. IsUnwritten D.tells (D.Out.got out) (D.Out.faults out)) }
    ensures refused { IfErr result (λ status. RefusesOpening D.tells (D.says desk.old) (D.says desk.new) (texts words.now) status) }
    ensures unread { EachFrom (IsUnread (D.says desk.new) (texts words.now)) 0 seats.new.items }
    ensures fits { length seats.new.items ≤ count }
{
    open_sessions(alloc, desk, words, count, shared, root, seats)?;
    open_written(desk, words, JOURNAL)
}

/// Opens the names of the sessions.
fn open_sessions<D: Desk>(
    alloc: Global,
    desk: &mut D,
    words: &[String],
    count: u32,
    shared: &Shared,
    root: &mut Pass,
    seats: &mut Vec<Seat<D::In, D::Out>>,
) -> Result<(), Status>
    requires line { IsLine Row.Serve (texts words.now) }
    requires pairs { length words.now ≡ 4 + 2 * count }
    requires few { count ≤ 16 }
    requires root { root.old ≡ root_of shared.now.name 0 }
    requires none { seats.old.items ≡ [] }
    requires room { count ≤ vec_capacity seats.old }
    ensures opened { OnOk result (AreOpened D.tells (D.says desk.old) (D.says desk.new) (texts words.now) shared.now.name seats.new.items) }
    ensures count { OnOk result (length seats.new.items ≡ count) }
    ensures root { OnOk result (root.new ≡ record root.old { out = count; given = count }) }
    ensures refused { IfErr result (λ status. RefusesOpening D.tells (D.says desk.old) (D.says desk.new) (texts words.now) status) }
    ensures each { EachFrom (IsUnread (D.says desk.new) (texts words.now)) 0 seats.new.items }
    ensures fits { length seats.new.items ≤ count }
{
    for k in 0..count {
        let seat = match open_session(alloc, desk, words, k, shared, root) {
            Ok(seat) => seat,
            Err(status) => return Err(status),
        };
        seats.push(seat).unwrap();
    }
    Ok(())
}

/// Opens the input and the output of session `k`, from 0. After a refusal its input is shut.
fn open_session<D: Desk>(
    alloc: Global,
    desk: &mut D,
    words: &[String],
    k: u32,
    shared: &Shared,
    root: &mut Pass,
) -> Result<Seat<D::In, D::Out>, Status>
    requires pair { HasPair (texts words.now) k }
    requires few { k < 16 }
    requires gate { root.old.gate ≡ shared.now.name }
    requires root { root.old.root ≡ true }
    requires given { root.old.given ≡ k }
    requires seen { root.old.seen ≡ [] }
    ensures opened { IfOk result (λ seat. OpensSession D.tells (D.says desk.old) (D.says desk.new) (texts words.now) shared.now.name k seat) }
    ensures root { OnOk result (root.new ≡ record root.old { out = root.old.out + 1; given = root.old.given + 1 }) }
    ensures refused { IfErr result (λ status. RefusesNext (D.says desk.old) (D.says desk.new) (texts words.now) k status) }
{
    let input = open_read(desk, words, INPUT + 2 * k)?;
    match open_written(desk, words, OUTPUT + 2 * k) {
        Ok(output) => Ok(Seat::new(alloc, input, output, shared.split(root))),
        Err(status) => {
            desk.shut(input_name(words, k), input);
            Err(status)
        }
    }
}

/// Opens the name at a place for reading.
fn open_read<D: Desk>(desk: &mut D, words: &[String], at: u32) -> Result<D::In, Status>
    requires { at < length words.now }
    ensures fresh { IfOk result (λ input. IsFreshIn ((D.says desk.old).file (word_at (texts words.now) at))
        (D.In.left input) (D.In.taken input) (D.In.faults input)) }
    ensures there { IsTrue D.tells → OnOk result (IsSome ((D.says desk.old).file (word_at (texts words.now) at))) }
    ensures opened { OnOk result (OpensRead (D.says desk.old) (D.says desk.new) (word_at (texts words.now) at)) }
    ensures refused { IfErr result (λ status. RefusesRead (D.says desk.old) (D.says desk.new) (word_at (texts words.now) at) at status) }
{
    match desk.open_in(text_at(words, at as usize)) {
        Ok(input) => Ok(input),
        Err(EndFault::Failed) => Err(Status::OpenFault { at }),
        Err(EndFault::Memory) => Err(Status::Memory),
    }
}

/// Opens the name at a place for writing.
fn open_written<D: Desk>(desk: &mut D, words: &[String], at: u32) -> Result<D::Out, Status>
    requires { at < length words.now }
    ensures fresh { IfOk result (λ out. IsUnwritten D.tells (D.Out.got out) (D.Out.faults out)) }
    ensures opened { OnOk result (OpensWritten D.tells (D.says desk.old) (D.says desk.new) (word_at (texts words.now) at)) }
    ensures refused { IfErr result (λ status. RefusesWritten (D.says desk.old) (D.says desk.new) (word_at (texts words.now) at) at status) }
{
    match desk.open_out(text_at(words, at as usize)) {
        Ok(output) => Ok(output),
        Err(EndFault::Failed) => Err(Status::OpenFault { at }),
        Err(EndFault::Memory) => Err(Status::Memory),
    }
}

/// Shuts the inputs of these sessions in order, of which the first is session `k`, from 0. Their
/// outputs are not kept.
pub(crate) fn shut_all<D: Desk>(
    desk: &mut D,
    words: &[String],
    k: u32,
    mut seats: IntoIter<Seat<D::In, D::Out>>,
)
    requires pairs { 4 + 2 * (k + length (into_iter_items seats)) ≤ length words.now }
    requires few { k + length (into_iter_items seats) ≤ 16 }
    requires unread { EachFrom (IsUnread (D.says desk.old) (texts words.now)) k (into_iter_items seats) }
    ensures { ShutsUnread (D.says desk.old) (D.says desk.new) (texts words.now) }
{
    match seats.next() {
        Some(seat) => {
            let (input, ..) = seat.into_parts();
            desk.shut(input_name(words, k), input);
            shut_all(desk, words, k + 1, seats);
        }
        None => seats.destroy_empty(),
    }
}
