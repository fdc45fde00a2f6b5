ghost use Rattle.std.specs.Prelude.{◌≡◌, Some, None, true, MatchOption, IfOk, OnOk, IsSome, IsTrue};
ghost use Rattle.view_ends.specs.Calls.{IsNew, Puts, IsFreshIn, IsFreshOut, OpensIn, Shuts, OpensOut, Keeps};
ghost use Rattle.view_ends.specs.Desk.{IsKnown, Untouched};
ghost use Rattle.view_ends.specs.Memory.{mem_desk, mem_sink, mem_source};
ghost use Rattle.view_ends.specs.Plans.{planned_on, Plan, PlansStay, NonePlanned, OpensInAsPlanned, OpensOutAsPlanned, KeepsAsPlanned};

use crate::desk::Desk;
use crate::fault::EndFault;
use crate::files::Files;
use crate::ledger::{Counts, Ledger, NOTHING, OPENED, UNOPENED, UNWRITTEN};
use crate::mem_sink::MemSink;
use crate::mem_source::MemSource;
use crate::plans::{DeskCall, DeskPlans};
use std::alloc::Global;
use view_base::{Bytes, OutOfMemory};

/// Files by name in memory, whose calls fail where a test says. The opening of a name that has no
/// file fails.
#[derive(Drop)]
pub struct MemDesk {
    alloc: Global,
    files: Files,
    ledger: Ledger,
    plans: DeskPlans,
}

impl MemDesk {
    /// A desk without files, of which no call is to fail.
    pub fn new(alloc: Global) -> MemDesk
        ensures new { IsNew (mem_desk result) }
        ensures planned { NonePlanned (planned_on result) }
    {
        MemDesk {
            alloc,
            files: Files::new(alloc),
            ledger: Ledger::new(alloc),
            plans: DeskPlans::new(alloc),
        }
    }

    /// Puts a file on the desk, in place of one of this name. After an `Err` no file changed.
    pub fn put(&mut self, name: &str, bytes: Bytes) -> Result<(), OutOfMemory>
        ensures put { Puts (mem_desk self.old) (mem_desk self.new) name.now bytes.items result }
        ensures planned { PlansStay (planned_on self.old) (planned_on self.new) }
    {
        self.files.put(name, bytes)
    }

    /// The bytes of a file, and `None` where there is no such file.
    pub fn bytes_of(&self, name: &str) -> Option<&[u8]>
        ensures { MatchOption result ((mem_desk self.now).file name.now ≡ None) (λ bytes. (mem_desk self.now).file name.now ≡ Some bytes.now) }
    {
        self.files.get(name)
    }

    /// How often a name was not opened for reading.
    pub fn unopened(&self, name: &str) -> u64
        ensures { result ≡ (mem_desk self.now).unopened name.now }
    {
        self.ledger.of(name).unopened
    }

    /// How often reading of a name failed.
    pub fn read_faults(&self, name: &str) -> u64
        ensures { result ≡ (mem_desk self.now).reads name.now }
    {
        self.ledger.of(name).read_faults
    }

    /// How often writing of a name failed.
    pub fn write_faults(&self, name: &str) -> u64
        ensures { result ≡ (mem_desk self.now).writes name.now }
    {
        self.ledger.of(name).write_faults
    }

    /// How many bytes were taken from the inputs of a name that were shut.
    pub fn taken(&self, name: &str) -> u64
        ensures { result ≡ (mem_desk self.now).taken name.now }
    {
        self.ledger.of(name).taken
    }

    /// How often the keeping of a name was refused.
    pub fn unkept(&self, name: &str) -> u64
        ensures { result ≡ (mem_desk self.now).unkept name.now }
    {
        self.ledger.of(name).unkept
    }

    /// Lets one later call on this name fail, the first that comes to it. For `Take` and `Give`
    /// that is a call of the next end opened of this name, when just `at` bytes were taken or
    /// given; for the other calls `at` says nothing.
    pub fn fail(&mut self, name: &str, call: DeskCall, at: u64) -> Result<(), OutOfMemory>
        ensures desk { Untouched (mem_desk self.old) (mem_desk self.new) }
        ensures planned { Plan (planned_on self.old) (planned_on self.new) name.now call at result }
    {
        self.plans.add(name, call, at)
    }
}

impl Desk for MemDesk {
    type In = MemSource;

    type Out = MemSink;

    ghost tells = { true };

    ghost says = { mem_desk };

    fn open_in(&mut self, name: &str) -> Result<MemSource, EndFault>
        ensures fresh { IfOk result (λ input. IsFreshIn ((mem_desk self.old).file name.now)
            (mem_source input).left (mem_source input).taken (mem_source input).faults) }
        ensures there { OnOk result (IsSome ((mem_desk self.old).file name.now)) }
        ensures desk { OpensIn (mem_desk self.old) (mem_desk self.new) name.now result }
        ensures planned { OpensInAsPlanned (planned_on self.old) (planned_on self.new) name.now ((mem_desk self.old).file name.now) result }
    {
        let copy = self.files.copy_of(name)?;
        self.ledger.enter(name)?;
        let planned = self.plans.open_in.strike(name);
        match copy {
            Some(bytes) if !planned => {
                self.ledger.add(name, OPENED);
                let fail_at = self.plans.take.hand_on(name);
                Ok(MemSource::new(bytes, fail_at))
            }
            _ => {
                self.ledger.add(name, UNOPENED);
                Err(EndFault::Failed)
            }
        }
    }

    #[tactic(auto, using(crate::proofs::Known::known_and_filed))]
    fn shut(&mut self, name: &str, input: MemSource)
        requires { IsKnown (mem_desk self.old) name.now }
        ensures desk { Shuts (mem_desk self.old) (mem_desk self.new) name.now (mem_source input).taken (mem_source input).faults }
        ensures planned { PlansStay (planned_on self.old) (planned_on self.new) }
    {
        let counts = Counts {
            taken: input.taken(),
            read_faults: input.faults(),
            ..NOTHING
        };
        self.ledger.add(name, counts);
    }

    fn open_out(&mut self, name: &str) -> Result<MemSink, EndFault>
        ensures fresh { IfOk result (λ out. IsFreshOut true ((mem_desk self.new).file name.now) (mem_sink out).got (mem_sink out).faults) }
        ensures desk { OpensOut (mem_desk self.old) (mem_desk self.new) name.now result }
        ensures planned { OpensOutAsPlanned (planned_on self.old) (planned_on self.new) name.now result }
    {
        self.ledger.enter(name)?;
        if self.plans.open_out.strike(name) {
            self.ledger.add(name, UNWRITTEN);
            return Err(EndFault::Failed);
        }
        self.files.put(name, Bytes::new(self.alloc))?;
        self.ledger.add(name, OPENED);
        let fail_at = self.plans.give.hand_on(name);
        Ok(MemSink::new(self.alloc, fail_at))
    }

    #[tactic(auto, using(crate::proofs::Known::known_and_filed))]
    fn keep(&mut self, name: &str, out: MemSink) -> Result<(), EndFault>
        requires { IsKnown (mem_desk self.old) name.now }
        ensures desk { Keeps (mem_desk self.old) (mem_desk self.new) name.now (mem_sink out).got (mem_sink out).faults result }
        ensures planned { KeepsAsPlanned (planned_on self.old) (planned_on self.new) name.now result }
    {
        let faults = out.faults();
        if self.plans.keep.strike(name) {
            self.ledger.add(name, Counts::refused(faults));
            return Err(EndFault::Failed);
        }
        self.files.replace(name, out.into_bytes());
        let counts = Counts {
            write_faults: faults,
            ..NOTHING
        };
        self.ledger.add(name, counts);
        Ok(())
    }
}
