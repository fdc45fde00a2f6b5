ghost use Rattle.std.specs.Prelude.{◌≡◌, ◌≤◌, OnOk, OnErr, IsErrOf};
ghost use Rattle.view_ends.specs.Ends.{Rose, Gains, GainsPart};

use crate::fault::EndFault;
use crate::sink::Sink;

/// Gives a whole piece, in as many gives as it takes. After an `Err` the sink got only some front
/// of the piece. An empty piece takes no give.
pub fn give_all<S: Sink>(sink: &mut S, piece: &[u8]) -> Result<(), EndFault>
    ensures given { OnOk result (Gains (S.got sink.old) piece.now (S.got sink.new)) }
    ensures part { OnErr result (GainsPart (S.got sink.old) piece.now (S.got sink.new)) }
    ensures calm { OnOk result (S.faults sink.new ≡ S.faults sink.old) }

    ensures failed { IsErrOf result EndFault.Failed → Rose (S.faults sink.old) (S.faults sink.new) }
    ensures memory { IsErrOf result EndFault.Memory → S.faults sink.new ≡ S.faults sink.old }
    ensures later { S.faults sink.old ≤ S.faults sink.new }
{
    let mut given = 0;
    while given < piece.len() {
        let (_, rest) = piece.split_at(given);
        given += sink.give(rest)?;
    }
    Ok(())
}
