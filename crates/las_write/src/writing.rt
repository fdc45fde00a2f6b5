ghost use Rattle.std.specs.Prelude.{◌≡◌, ◌≤◌, ◌<◌, OnOk, OnErr, IsErrOf, length, take, drop, slice_index};
ghost use Rattle.class_pages.specs.Fitting.{EachFits};
ghost use Rattle.las_write.specs.Points.{HasPoints, saved_records};
ghost use Rattle.view_ends.specs.Ends.{Rose, Gains, GainsPart};
ghost use Rattle.view_meaning.specs.Classes.{saved};
ghost use Rattle.view_meaning.specs.Survey.{format_of, points_at, points_end, record_count};

use crate::records::{copy_records, run_from};
use class_pages::Classes;
use las_survey::Survey;
use view_ends::{EndFault, Sink, give_all};

/// How many bytes of records are given at once. A record is shorter.
const ROOM: usize = 1 << 16;

/// Gives a survey's file to a sink, as it was read but for the classes: each record has the one of
/// the list, and keeps its flags (LAS 1.4 R15, classification). After an `Err` the sink got only
/// some front of it. It takes no memory.
pub fn write_survey<K: Sink>(
    survey: &Survey,
    classes: &Classes,
    sink: &mut K,
) -> Result<(), EndFault>
    requires records { length classes.now ≡ record_count survey.now }
    requires room { EachFits (format_of survey.now) classes.now }
    ensures given { OnOk result (Gains (K.got sink.old) (saved survey.now classes.now) (K.got sink.new)) }
    ensures part { OnErr result (GainsPart (K.got sink.old) (saved survey.now classes.now) (K.got sink.new)) }
    ensures length { length (saved survey.now classes.now) ≡ length survey.now }
    ensures calm { OnOk result (K.faults sink.new ≡ K.faults sink.old) }

    ensures failed { IsErrOf result EndFault.Failed → Rose (K.faults sink.old) (K.faults sink.new) }
    ensures memory { IsErrOf result EndFault.Memory → K.faults sink.new ≡ K.faults sink.old }
    ensures later { K.faults sink.old ≤ K.faults sink.new }
{
    let (before, after) = around_points(survey);
    give_all(sink, before)?;
    give_records(survey, classes, sink)?;
    give_all(sink, after)
}

/// The bytes before a survey's point records, and those after them.
fn around_points(survey: &Survey) -> (&[u8], &[u8])
    ensures before { result.0.now ≡ take (points_at survey.now) survey.now }
    ensures after { result.1.now ≡ drop (points_end survey.now) survey.now }
    ensures there { HasPoints survey.now }
{
    let bytes = survey.bytes();
    let header = survey.header();
    let start = header.points_at as usize;
    let end = start + survey.records() as usize * usize::from(header.length);
    (&bytes[..start], &bytes[end..])
}

/// Gives the point records with their classes, page by page, as many at once as there is room for.
fn give_records<K: Sink>(survey: &Survey, classes: &Classes, sink: &mut K) -> Result<(), EndFault>
    requires there { HasPoints survey.now }
    requires records { length classes.now ≡ record_count survey.now }
    requires room { EachFits (format_of survey.now) classes.now }
    ensures given { OnOk result (Gains (K.got sink.old) (saved_records survey.now classes.now 0 (record_count survey.now)) (K.got sink.new)) }
    ensures part { OnErr result (GainsPart (K.got sink.old) (saved_records survey.now classes.now 0 (record_count survey.now)) (K.got sink.new)) }
    ensures calm { OnOk result (K.faults sink.new ≡ K.faults sink.old) }

    ensures failed { IsErrOf result EndFault.Failed → Rose (K.faults sink.old) (K.faults sink.new) }
    ensures memory { IsErrOf result EndFault.Memory → K.faults sink.new ≡ K.faults sink.old }
    ensures later { K.faults sink.old ≤ K.faults sink.new }
{
    let mut buffer = [0u8; ROOM];
    let size = usize::from(survey.header().length);
    let most = ROOM / size;
    let records = survey.records();
    let mut given = 0;
    while given < records {
        let run = run_from(classes, given, most);
        let piece = &mut buffer[..run.len() * size];
        copy_records(piece, survey, run, given);
        give_all(sink, piece)?;
        given += run.len() as u32;
    }
    Ok(())
}
