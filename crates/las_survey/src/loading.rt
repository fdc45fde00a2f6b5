ghost use Rattle.std.specs.Prelude.{◌≡◌, ℕ, ◌+◌, ◌^◌, ◌≤◌, ◌<◌, [], List, length, min, Some, IfOk, IfSome, IsErrOf};
ghost use Rattle.las_survey.specs.Loading.{TookAll};
ghost use Rattle.view_ends.specs.Ends.{Rose};
ghost use Rattle.view_meaning.specs.Layout as layout;
ghost use Rattle.view_meaning.specs.Layout.{IsLaid};

use crate::survey::Survey;
use las_vlr::{EvlrFault, VlrFault};
use std::alloc::Global;
use view_base::{Bytes, HeaderFault, OutOfMemory, SurveyFault};
use view_ends::{Failed, Source};

/// The most bytes that a survey may have.
pub const LIMIT: usize = 1 << 30;

/// How many bytes are asked of a source at once.
const PIECE: usize = 1 << 16;

/// Why no survey was loaded.
#[derive(Clone, Copy, Debug, PartialEq, Eq)]
pub enum LoadFault {
    /// The source failed.
    ReadFault,
    /// There are more than 2^30 bytes.
    TooLong,
    /// Want of memory.
    Memory,
    /// The bytes are not laid out as a survey.
    Survey(SurveyFault),
}

impl From<OutOfMemory> for LoadFault {
    ghost use Rattle.std.specs.Prelude.{◌≡◌};
    ghost use Rattle.las_survey.specs.declared.loading.LoadFault.TheVariants.{Memory};

    ghost from_gives = { λ _ fault. fault ≡ Memory };

    fn from(_: OutOfMemory) -> Self {
        LoadFault::Memory
    }
}

impl From<HeaderFault> for LoadFault {
    ghost use Rattle.std.specs.Prelude.{◌≡◌};
    ghost use Rattle.las_survey.specs.Refusal.{of_header};

    ghost from_gives = { λ fault refusal. refusal ≡ of_header fault };

    fn from(fault: HeaderFault) -> Self {
        LoadFault::Survey(SurveyFault::Header(fault))
    }
}

impl From<VlrFault> for LoadFault {
    ghost use Rattle.std.specs.Prelude.{◌≡◌};
    ghost use Rattle.las_survey.specs.Refusal.{of_vlr};

    ghost from_gives = { λ fault refusal. refusal ≡ of_vlr fault };

    fn from(fault: VlrFault) -> Self {
        match fault {
            VlrFault::Vlr { k, at } => LoadFault::Survey(SurveyFault::Vlr { k, at }),
            VlrFault::Memory => LoadFault::Memory,
        }
    }
}

impl From<EvlrFault> for LoadFault {
    ghost use Rattle.std.specs.Prelude.{◌≡◌};
    ghost use Rattle.las_survey.specs.Refusal.{of_evlr};

    ghost from_gives = { λ fault refusal. refusal ≡ of_evlr fault };

    fn from(fault: EvlrFault) -> Self {
        match fault {
            EvlrFault::Evlr { k, at } => LoadFault::Survey(SurveyFault::Evlr { k, at }),
            EvlrFault::Memory => LoadFault::Memory,
        }
    }
}

/// Takes all bytes of a source, and answers the survey that they are, or the first fault of their
/// layout. It asks for no byte past the one that makes a survey too long, and makes its room once
/// where the source says about how much is to come.
pub fn load<S: Source>(alloc: Global, source: &mut S) -> Result<Survey, LoadFault>
    ensures took { IfOk result (λ survey. TookAll (S.left source.old) (S.taken source.old) survey (S.left source.new) (S.taken source.new)) }
    ensures laid { IfOk result IsLaid }

    ensures read_fault { IsErrOf result LoadFault.ReadFault → Rose (S.faults source.old) (S.faults source.new) }
    ensures too_long { IsErrOf result LoadFault.TooLong → S.taken source.new ≡ S.taken source.old + (LIMIT + 1) }
    ensures too_many { IsErrOf result LoadFault.TooLong → IfSome (S.left source.old) (λ all. LIMIT < length all) }
    ensures survey { (fault : SurveyFault) → IsErrOf result (LoadFault.Survey fault)
        → (bytes : List ℕ) × (length bytes ≤ LIMIT)
        × TookAll (S.left source.old) (S.taken source.old) bytes (S.left source.new) (S.taken source.new)
        × (layout.fault bytes ≡ Some fault) }
    ensures calm { (IsErrOf result LoadFault.ReadFault → ⊥) → S.faults source.new ≡ S.faults source.old }
    ensures later { S.faults source.old ≤ S.faults source.new }
    ensures few { S.taken source.new ≤ S.taken source.old + (LIMIT + 1) }
    ensures no_more { (IsErrOf result LoadFault.TooLong → ⊥) → S.taken source.new ≤ S.taken source.old + LIMIT }
    ensures limit { LIMIT ≡ 2 ^ 30 }
{
    let bytes = taken_from(alloc, source)?;
    Survey::of(alloc, bytes)
}

/// An empty list with room for the bytes that are expected, as far as a survey may have them. A
/// refusal of memory for a guess is no answer: what comes may fit all the same.
fn room_for(alloc: Global, expected: u64) -> Bytes
    ensures { result.items ≡ [] }
{
    let mut bytes = Bytes::new(alloc);
    match bytes.reserve(room_of(expected)) {
        Ok(()) | Err(OutOfMemory) => bytes,
    }
}

/// For how many bytes room is made: for all that are expected, and no more than a survey may have.
fn room_of(expected: u64) -> usize
    ensures { result ≡ min expected LIMIT }
{
    expected.min(LIMIT as u64) as usize
}

/// All bytes of a source, where they are few enough.
fn taken_from<S: Source>(alloc: Global, source: &mut S) -> Result<Bytes, LoadFault>
    ensures took { IfOk result (λ bytes. TookAll (S.left source.old) (S.taken source.old) bytes.items (S.left source.new) (S.taken source.new)) }
    ensures short { IfOk result (λ bytes. length bytes.items ≤ LIMIT) }

    ensures read_fault { IsErrOf result LoadFault.ReadFault → Rose (S.faults source.old) (S.faults source.new) }
    ensures too_long { IsErrOf result LoadFault.TooLong → S.taken source.new ≡ S.taken source.old + (LIMIT + 1) }
    ensures too_many { IsErrOf result LoadFault.TooLong → IfSome (S.left source.old) (λ all. LIMIT < length all) }
    ensures survey { (fault : SurveyFault) → IsErrOf result (LoadFault.Survey fault) → ⊥ }
    ensures calm { (IsErrOf result LoadFault.ReadFault → ⊥) → S.faults source.new ≡ S.faults source.old }
    ensures later { S.faults source.old ≤ S.faults source.new }
    ensures few { S.taken source.new ≤ S.taken source.old + (LIMIT + 1) }
    ensures no_more { (IsErrOf result LoadFault.TooLong → ⊥) → S.taken source.new ≤ S.taken source.old + LIMIT }
{
    let mut bytes = room_for(alloc, source.expected());
    let mut piece = [0u8; PIECE];
    loop {
        let room = (LIMIT + 1 - bytes.len()).min(PIECE);
        match source.take(&mut piece[..room]) {
            Err(Failed) => return Err(LoadFault::ReadFault),
            Ok(0) => return Ok(bytes),
            Ok(n) => {
                if bytes.len() + n > LIMIT {
                    return Err(LoadFault::TooLong);
                }
                bytes.append(&piece[..n])?;
            }
        }
    }
}
