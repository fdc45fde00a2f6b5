ghost use Rattle.std.specs.Prelude.{◌≡◌, Some, None, true, MatchOption, IfOk, OnOk, IsSome, IsTrue, IsErrOf, IsOk};
ghost use Rattle.view_ends.specs.Calls.{IsNew, Puts, IsFreshIn, IsFreshOut, OpensIn, OpensOut, Keeps};
ghost use Rattle.view_ends.specs.Desk.{IsKnown};
ghost use Rattle.view_ends.specs.Memory.{still_desk, still_sink, still_source};

use crate::desk::Desk;
use crate::fault::EndFault;
use crate::files::Files;
use crate::ledger::{Counts, Ledger, NOTHING, OPENED, UNOPENED};
use crate::still_sink::StillSink;
use crate::still_source::StillSource;
use std::alloc::Global;
use view_base::{Bytes, OutOfMemory};

/// Files by name in memory. Only the opening of a name that has no file fails; whatever else is
/// refused is refused for want of memory. So no count but that of bytes taken rises while every
/// name that is read is there.
#[derive(Drop)]
pub struct StillDesk {
    alloc: Global,
    files: Files,
    ledger: Ledger,
}

impl StillDesk {
    /// A desk without files.
    pub fn new(alloc: Global) -> StillDesk
        ensures { IsNew (still_desk result) }
    {
        StillDesk {
            alloc,
            files: Files::new(alloc),
            ledger: Ledger::new(alloc),
        }
    }

    /// Puts a file on the desk, in place of one of this name. After an `Err` no file changed.
    pub fn put(&mut self, name: &str, bytes: Bytes) -> Result<(), OutOfMemory>
        ensures put { Puts (still_desk self.old) (still_desk self.new) name.now bytes.items result }
    {
        self.files.put(name, bytes)
    }

    /// The bytes of a file, and `None` where there is no such file.
    pub fn bytes_of(&self, name: &str) -> Option<&[u8]>
        ensures { MatchOption result ((still_desk self.now).file name.now ≡ None) (λ bytes. (still_desk self.now).file name.now ≡ Some bytes.now) }
    {
        self.files.get(name)
    }

    /// How many bytes were taken from the inputs of a name that were shut.
    pub fn taken(&self, name: &str) -> u64
        ensures { result ≡ (still_desk self.now).taken name.now }
    {
        self.ledger.of(name).taken
    }
}

impl Desk for StillDesk {
    type In = StillSource;

    type Out = StillSink;

    ghost tells = { true };

    ghost says = { still_desk };

    fn open_in(&mut self, name: &str) -> Result<StillSource, EndFault>
        ensures fresh { IfOk result (λ input. IsFreshIn ((still_desk self.old).file name.now)
            (still_source input).left (still_source input).taken (still_source input).faults) }
        ensures there { OnOk result (IsSome ((still_desk self.old).file name.now)) }
        ensures desk { OpensIn (still_desk self.old) (still_desk self.new) name.now result }
        ensures absent { IsErrOf result EndFault.Failed → (still_desk self.old).file name.now ≡ None }
    {
        let copy = self.files.copy_of(name)?;
        self.ledger.enter(name)?;
        match copy {
            Some(bytes) => {
                self.ledger.add(name, OPENED);
                Ok(StillSource::new(bytes))
            }
            None => {
                self.ledger.add(name, UNOPENED);
                Err(EndFault::Failed)
            }
        }
    }

    #[tactic(auto, using(crate::proofs::Known::known_and_filed))]
    fn shut(&mut self, name: &str, input: StillSource) {
        self.ledger.add(
            name,
            Counts {
                taken: input.taken(),
                ..NOTHING
            },
        );
    }

    fn open_out(&mut self, name: &str) -> Result<StillSink, EndFault>
        ensures fresh { IfOk result (λ out. IsFreshOut true ((still_desk self.new).file name.now) (still_sink out).got (still_sink out).faults) }
        ensures desk { OpensOut (still_desk self.old) (still_desk self.new) name.now result }
        ensures never { ¬ IsErrOf result EndFault.Failed }
    {
        self.ledger.enter(name)?;
        self.files.put(name, Bytes::new(self.alloc))?;
        self.ledger.add(name, OPENED);
        Ok(StillSink::new(self.alloc))
    }

    #[tactic(auto, using(crate::proofs::Known::known_and_filed))]
    fn keep(&mut self, name: &str, out: StillSink) -> Result<(), EndFault>
        requires { IsKnown (still_desk self.old) name.now }
        ensures desk { Keeps (still_desk self.old) (still_desk self.new) name.now (still_sink out).got (still_sink out).faults result }
        ensures never { IsOk result }
    {
        self.files.replace(name, out.into_bytes());
        Ok(())
    }
}
