ghost use Rattle.std.specs.Prelude.{◌≡◌, ◌+◌, ◌*◌, ◌<◌, ◌≤◌, true, List, None, [], ◌∷◌, ◌++◌, length, map, IfOk};
ghost use Rattle.std.specs.Vec.Iter.{into_iter_items};
ghost use Rattle.sessions.specs.declared.end.Reason.{Reason};
ghost use Rattle.view_words.specs.CommandLine.{texts};
ghost use Rattle.view_commands.specs.Run.{HasPair, input, output};
ghost use Rattle.view_commands.specs.Steps.{CanFinish, EachFrom, Finishes, FinishesAll, IsRoomFor, Joins, JoinsAll};

use crate::opening::{input_name, output_name};
use crate::seats::Seat;
use crate::texts::reason_of;
use sessions::{Ends, Reason};
use std::alloc::Global;
use std::vec::IntoIter;
use version_store::{Pass, Shared};
use view_base::{Listing, OutOfMemory};
use view_ends::Desk;

/// How sessions ended, and what came of keeping their outputs, in the order of their numbers.
#[derive(Drop)]
pub(crate) struct Outcomes {
    pub(crate) ends: Ends,
    pub(crate) kept: Listing<Reason>,
}

impl Outcomes {
    /// None yet, with room for those of so many sessions.
    pub(crate) fn with_room(alloc: Global, count: u32) -> Result<Outcomes, OutOfMemory>
        ensures { IfOk result (IsRoomFor count) }
    {
        let mut ends = Ends::new(alloc);
        ends.reserve(count as usize)?;
        let mut kept = Listing::new(alloc);
        kept.reserve(count as usize)?;
        Ok(Outcomes { ends, kept })
    }
}

/// Shuts the input and keeps the output of each of these sessions in order, of which the first is
/// session `k`, from 0, and joins its pass.
pub(crate) fn finish_all<D: Desk>(
    desk: &mut D,
    words: &[String],
    k: u32,
    shared: &Shared,
    root: &mut Pass,
    mut seats: IntoIter<Seat<D::In, D::Out>>,
    outcomes: &mut Outcomes,
)
    requires pairs { 4 + 2 * (k + length (into_iter_items seats)) ≤ length words.now }
    requires few { k + length (into_iter_items seats) ≤ 16 }
    requires gate { root.old.gate ≡ shared.now.name }
    requires root { root.old.root ≡ true }
    requires outside { root.old.turn ≡ None }
    requires seats { EachFrom (CanFinish (D.says desk.old) (texts words.now) shared.now.name) k (into_iter_items seats) }
    requires ends_room { length (into_iter_items seats) ≤ outcomes.old.ends.spare }
    requires kept_room { length (into_iter_items seats) ≤ outcomes.old.kept.spare }
    ensures ends { outcomes.new.ends.items ≡ outcomes.old.ends.items ++ map (λ seat. seat.end) (into_iter_items seats) }
    ensures kept { (kept : List Reason) × (outcomes.new.kept.items ≡ outcomes.old.kept.items ++ kept)
        × FinishesAll (texts words.now) k (into_iter_items seats) kept (D.says desk.old) (D.says desk.new) }
    ensures joined { JoinsAll (into_iter_items seats) root.old root.new }
{
    match seats.next() {
        Some(seat) => {
            finish(desk, words, k, shared, root, seat, outcomes);
            finish_all(desk, words, k + 1, shared, root, seats, outcomes);
        }
        None => seats.destroy_empty(),
    }
}

/// Shuts the input and keeps the output of session `k`, from 0, and joins its pass.
fn finish<D: Desk>(
    desk: &mut D,
    words: &[String],
    k: u32,
    shared: &Shared,
    root: &mut Pass,
    seat: Seat<D::In, D::Out>,
    outcomes: &mut Outcomes,
)
    requires pair { HasPair (texts words.now) k }
    requires few { k < 16 }
    requires gate { root.old.gate ≡ shared.now.name }
    requires root { root.old.root ≡ true }
    requires outside { root.old.turn ≡ None }
    requires seat { CanFinish (D.says desk.old) (texts words.now) shared.now.name k seat }
    requires ends_room { 1 ≤ outcomes.old.ends.spare }
    requires kept_room { 1 ≤ outcomes.old.kept.spare }
    ensures ends { outcomes.new.ends.items ≡ outcomes.old.ends.items ++ seat.end ∷ [] }
    ensures ends_spare { outcomes.old.ends.spare ≤ outcomes.new.ends.spare + 1 }
    ensures kept_spare { outcomes.old.kept.spare ≤ outcomes.new.kept.spare + 1 }
    ensures kept { (kept : Reason) × (outcomes.new.kept.items ≡ outcomes.old.kept.items ++ kept ∷ [])
        × Finishes (D.says desk.old) (D.says desk.new) (input (texts words.now) k) (output (texts words.now) k) seat kept }
    ensures joined { Joins root.old root.new seat.pass }
{
    let (input, output, pass, end) = seat.into_parts();
    desk.shut(input_name(words, k), input);
    let kept = reason_of(desk.keep(output_name(words, k), output));
    shared.join(root, pass);
    outcomes.ends.push_within(end);
    outcomes.kept.push_within(kept);
}
