ghost use Rattle.std.specs.Prelude.{◌≡◌, ◌+◌, ◌*◌, ◌^◌, ◌<◌, ◌≤◌, length, take, drop, slice_set, Some, IfOk, IsErrOf};
ghost use Rattle.las_survey.specs.Beside.{class_at, SameFields};
ghost use Rattle.las_vlr.specs.Places.{vlr_places, evlr_places};
ghost use Rattle.view_meaning.specs.Layout as layout;
ghost use Rattle.view_meaning.specs.Layout.{IsLaid, least_length};
ghost use Rattle.view_meaning.specs.Survey.{header_size, points_at, vlr_count, evlrs_at, evlr_count};
ghost use Rattle.view_meaning.specs.Survey.{format_of, record_at, record_count, record_length, points_end};

use crate::loading::LoadFault;
use las_header::{Header, read_header};
use las_points::class_place;
use las_vlr::{VlrList, walk_evlrs, walk_vlrs};
use std::alloc::Global;
use std::marker::Model;
use view_base::{Bytes, SurveyFault};

/// The bytes of a file that is laid out as a survey. Contracts see it as the list of its bytes;
/// the type keeps that they are laid out so and at most 2^30.
#[derive(Drop)]
pub struct Survey {
    bytes: Bytes,
    header: Header,
    vlrs: VlrList,
    evlrs: VlrList,
}

impl Model for Survey {
    ghost use Rattle.std.specs.Prelude.{List, ℕ};
    ghost use Rattle.las_survey.specs.Kept.{IsKept};

    ghost Value = { List ℕ };

    ghost view = { λ a. a.bytes.items };

    ghost invariant = { λ a. IsKept a.bytes.items a.header a.vlrs.items a.evlrs.items };
}

impl Survey {
    ghost use Rattle.las_header.specs.Header.{IsHeaderOf};

    /// The survey of a file's bytes, or their first fault.
    pub(crate) fn of(alloc: Global, bytes: Bytes) -> Result<Survey, LoadFault>
        requires short { length bytes.items ≤ 2 ^ 30 }
        ensures same { IfOk result (λ survey. survey ≡ bytes.items) }
        ensures laid { IfOk result IsLaid }
        ensures survey { (fault : SurveyFault) → IsErrOf result (LoadFault.Survey fault) → layout.fault bytes.items ≡ Some fault }
        ensures read_fault { IsErrOf result LoadFault.ReadFault → ⊥ }
        ensures too_long { IsErrOf result LoadFault.TooLong → ⊥ }
    {
        let all = bytes.as_slice();
        let header = read_header(all)?;
        let first = u64::from(header.size);
        let vlrs = walk_vlrs(alloc, all, first, u64::from(header.points_at), header.vlrs)?;
        let need = points_end_of(&header);
        let have = all.len() as u64;
        if need > u128::from(have) {
            return Err(LoadFault::Survey(SurveyFault::Points { need, have }));
        }
        let evlrs = walk_evlrs(alloc, all, header.evlrs_at, need as u64, header.evlrs)?;
        Ok(Survey {
            bytes,
            header,
            vlrs,
            evlrs,
        })
    }

    /// All bytes of the file. The points are among them: they end at their last byte or before.
    pub fn bytes(&self) -> &[u8]
        ensures bytes { result.now ≡ self.now }
        ensures laid { IsLaid self.now }
        ensures short { length self.now ≤ 2 ^ 30 }
        ensures points { points_end self.now ≤ length self.now }
        ensures before { points_at self.now ≤ points_end self.now }
    {
        self.bytes.as_slice()
    }

    /// The header's fields.
    pub fn header(&self) -> &Header
        ensures fields { IsHeaderOf self.now result.now }
        ensures known { format_of self.now ≤ 10 }
        ensures fitting { least_length (format_of self.now) ≤ record_length self.now }
    {
        &self.header
    }

    /// The number of point records, at most 53687091: a record has at least 20 of the bytes.
    pub fn records(&self) -> u32
        ensures count { result ≡ record_count self.now }
        ensures laid { IsLaid self.now }
        ensures small { result ≤ 53687091 }
    {
        self.header.records as u32
    }

    /// The bytes of record `i`.
    pub fn point_bytes(&self, i: u32) -> &[u8]
        requires { i < record_count self.now }
        ensures bytes { result.now ≡ take (record_length self.now) (drop (record_at self.now i) self.now) }
        ensures whole { length result.now ≡ record_length self.now }
        ensures least { 20 ≤ record_length self.now }
        ensures fitting { least_length (format_of self.now) ≤ record_length self.now }
        ensures laid { IsLaid self.now }
    {
        let size = usize::from(self.header.length);
        let at = self.header.points_at as usize + i as usize * size;
        &self.bytes.as_slice()[at..at + size]
    }

    /// Sets the byte of record `i` that has its class. No other byte changes, and it takes no memory.
    pub fn set_class_byte(&mut self, i: u32, byte: u8)
        requires { i < record_count self.old }
        ensures bytes { self.new ≡ slice_set self.old (class_at self.old i) byte }
        ensures fields { SameFields self.old self.new }
        ensures laid { IsLaid self.new }
    {
        let header = &self.header;
        let first = header.points_at as usize + i as usize * usize::from(header.length);
        let at = first + class_place(header.format);
        set_byte(&mut self.bytes, at, byte);
    }

    /// The places of the variable length records, in their order.
    pub fn vlrs(&self) -> &VlrList
        ensures { result.now.items ≡ vlr_places self.now (header_size self.now) (vlr_count self.now) }
    {
        &self.vlrs
    }

    /// The places of the extended variable length records, in their order.
    pub fn evlrs(&self) -> &VlrList
        ensures { result.now.items ≡ evlr_places self.now (evlrs_at self.now) (evlr_count self.now) }
    {
        &self.evlrs
    }
}

/// Sets the byte at a place.
fn set_byte(bytes: &mut Bytes, at: usize, byte: u8)
    requires { at < length bytes.old.items }
    ensures { bytes.new.items ≡ slice_set bytes.old.items at byte }
{
    bytes.tail_mut(at)[0] = byte;
}

/// Where the points end: the offset to point data, and the records times their length.
fn points_end_of(header: &Header) -> u128
    ensures { result ≡ header.now.points_at + header.now.records * header.now.length }
{
    u128::from(header.points_at) + u128::from(header.records) * u128::from(header.length)
}
