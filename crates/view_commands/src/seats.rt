ghost use Rattle.std.specs.Prelude.{◌≡◌, None, [], false};
ghost use Rattle.std.specs.Arc.{arc_value};
ghost use Rattle.sessions.specs.Worlds.{IsWorld};
ghost use Rattle.view_commands.specs.Steps.{CanServe, IsServed};

use sessions::{Marks, Reason, SessionEnd, World, serve_session};
use std::alloc::Global;
use std::marker::Model;
use std::sync::Wait;
use std::thread::Threads;
use version_store::Pass;
use view_ends::{Beside, Sink, Source};

/// What belongs to one session of a run: its input, its output, its pass, and how it ended, which
/// is want of memory until it was served.
pub(crate) struct Seat<I: Source, O: Sink> {
    input: I,
    output: O,
    pass: Pass,
    end: SessionEnd,
}

impl<I: Source, O: Sink> Model for Seat<I, O> {
    ghost use Rattle.view_commands.specs.Steps.{Seated};

    ghost Value = { Seated };

    ghost view = { λ s. record {
      input = record { left = I.left s.input; taken = I.taken s.input; faults = I.faults s.input };
      output = record { got = O.got s.output; faults = O.faults s.output };
      pass = s.pass;
      end = s.end;
    } };
}

impl<I: Source, O: Sink> Seat<I, O> {
    /// A session that has not begun. Takes no memory.
    pub(crate) fn new(alloc: Global, input: I, output: O, pass: Pass) -> Seat<I, O>
        ensures input { result.input ≡ record { left = I.left input; taken = I.taken input; faults = I.faults input } }
        ensures output { result.output ≡ record { got = O.got output; faults = O.faults output } }
        ensures pass { result.pass ≡ pass }
    {
        Seat {
            input,
            output,
            pass,
            end: SessionEnd {
                marks: Marks::new(alloc),
                reason: Reason::Memory,
                taken: 0,
            },
        }
    }

    /// Serves the session from its input into its output.
    pub(crate) fn serve<R: Threads + Wait + Sync, B: Beside>(
        &mut self,
        alloc: Global,
        rt: &R,
        world: &World,
        beside: &B,
    )
        requires world { IsWorld world.now }
        requires ready { CanServe world.now.shared.name self.old }
        ensures { IsServed (arc_value world.now.scene.survey) self.old self.new }
    {
        self.end = serve_session(
            alloc,
            rt,
            world,
            &mut self.pass,
            &mut self.input,
            &mut self.output,
            beside,
        );
    }

    /// Its input, its output, its pass and how it ended.
    pub(crate) fn into_parts(self) -> (I, O, Pass, SessionEnd)
        ensures input { self.input ≡ record { left = I.left result.0; taken = I.taken result.0; faults = I.faults result.0 } }
        ensures output { self.output ≡ record { got = O.got result.1; faults = O.faults result.1 } }
        ensures pass { result.2 ≡ self.pass }
        ensures end { result.3 ≡ self.end }
    {
        let Seat {
            input,
            output,
            pass,
            end,
        } = self;
        (input, output, pass, end)
    }
}
