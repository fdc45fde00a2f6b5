//! A survey with other classes, written to a sink.
ghost use Rattle.std.specs.Prelude.{◌≡◌, length, IfOk};
ghost use Rattle.class_pages.specs.Fitting.{EachFits};
ghost use Rattle.view_meaning.specs.Survey.{format_of, record_count};

use crate::made::{append_survey, edit_of, loaded};
use class_pages::{Classes, base};
use las_survey::Survey;
use las_write::write_survey;
use std::alloc::Global;
use std::process::Abort;
use std::test::Fail;
use view_base::{Bytes, OutOfMemory};
use view_ends::{EndFault, Sink, StillSink};

/// A sink that takes one byte a call.
#[derive(Drop)]
struct DripSink {
    inner: StillSink,
}

impl Sink for DripSink {
    ghost got = { λ s. ⟦<StillSink as Sink>⟧.got s.inner };

    ghost faults = { λ s. ⟦<StillSink as Sink>⟧.faults s.inner };

    fn give(&mut self, piece: &[u8]) -> Result<usize, EndFault> {
        let most = piece.len().min(1);
        let n = self.inner.give(&piece[..most])?;
        Ok(n)
    }
}

/// Appends a survey of 4000 records with this class byte, and four bytes after the points.
fn append_all(bytes: &mut Bytes, class: u8) -> Result<(), OutOfMemory> {
    append_survey(bytes, 4000, 0, class)?;
    bytes.append(&[44; 4])
}

/// The survey of 4000 records of class 2, with all flags.
fn survey(alloc: Global) -> Result<Survey, Fail> {
    let mut bytes = Bytes::new(alloc);
    append_all(&mut bytes, 0xE2)?;
    loaded(alloc, bytes)
}

/// The classes after class 2 got class 6.
fn edited(rt: &impl Abort, alloc: Global, survey: &Survey) -> Result<Classes, Fail>
    ensures size { IfOk result (λ classes. length classes ≡ record_count survey.now) }
    ensures top { IfOk result (λ classes. EachFits (format_of survey.now) classes) }
{
    let edit = edit_of(b"edit 0 0 0 0 0 0 2 6")?;
    assert!(rt; edit.to <= 31);
    let (classes, _) = base(alloc, survey)?.edited(alloc, survey, &edit)?;
    Ok(classes)
}

/// The bytes are those of the survey of 4000 records of class 6, with all flags. The class byte of
/// the first record stands at 375 + 15.
fn is_saved(rt: &impl Abort, alloc: Global, got: &[u8]) -> Result<(), Fail> {
    let mut wanted = Bytes::new(alloc);
    append_all(&mut wanted, 0xE6)?;
    assert_eq!(rt; got.get(390).copied(), Some(0xE6));
    assert_eq!(rt; got, wanted.as_slice());
    Ok(())
}

/// Writes the survey with class 6 to a sink.
fn write(rt: &impl Abort, alloc: Global, sink: &mut DripSink) -> Result<(), Fail> {
    let survey = survey(alloc)?;
    let classes = edited(rt, alloc, &survey)?;
    write_survey(&survey, &classes, sink)?;
    Ok(())
}

/// A sink that takes one byte a call gets all pieces, of which there are more than one.
#[test]
fn classes_change_and_their_flags_stay(rt: HostRuntime) -> Result<(), Fail> {
    let mut sink = DripSink {
        inner: StillSink::new(rt.alloc()),
    };
    write(&rt, rt.alloc(), &mut sink)?;
    is_saved(&rt, rt.alloc(), sink.inner.got())
}
