ghost use Rattle.std.specs.Prelude.{◌≡◌, ◌<◌, length, All};
ghost use Rattle.std.specs.Arc.{arc_value};
ghost use Rattle.std.specs.List.{AllZip};
ghost use Rattle.std.specs.Thread.{IsSync};
ghost use Rattle.sessions.specs.Worlds.{IsWorld};
ghost use Rattle.view_commands.specs.Steps.{CanServe, IsServed};

use crate::seats::Seat;
use sessions::World;
use std::alloc::Global;
use std::sync::Wait;
use std::thread::{Threads, for_each_mut};
use view_ends::{Beside, Sink, Source};

/// Serves all sessions side by side, each in a thread of its own where one can be started: the list
/// is halved until one is left, and the halves are joined.
pub(crate) fn serve_all<R: Threads + Wait + Sync, I: Source + Send, O: Sink + Send, B: Beside>(
    alloc: Global,
    rt: &R,
    world: &World,
    beside: &B,
    seats: &mut [Seat<I, O>],
)
    requires world { IsWorld world.now }
    requires ready { All (CanServe world.now.shared.name) seats.old }
    requires some { 0 < length seats.old }
    ensures { AllZip (IsServed (arc_value world.now.scene.survey)) seats.old seats.new }
{
    let count = seats.len();
    let serve = |_: usize, seat: &mut Seat<I, O>|
        requires { IsSync R.row × IsWorld world.now × CanServe world.now.shared.name seat.now }
        ensures { IsServed (arc_value world.entry.now.scene.survey) seat.entry.now seat.exit.now }
    { seat.serve(alloc, rt, world, beside) };
    for_each_mut(rt, seats, count, &serve);
}
