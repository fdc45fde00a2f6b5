ghost use Rattle.std.specs.Prelude.{◌≡◌, ◌<◌, ◌≤◌, length};
ghost use Rattle.std.specs.Int.{div_ceil};

use class_bits::Filter;
use class_pages::Classes;
use cull_boxes::KeptBlocks;
use grid_blocks::Blocks;
use int_camera::Camera;
use las_survey::Survey;

/// The fewest pieces of a picture whose pieces have several blocks: enough that 64 workers end at
/// about the same time.
const FEWEST: u32 = 8192;

/// What is to be drawn: the records of the kept blocks that pass a filter under these classes, as a
/// camera sees them. Workers claim it by pieces: piece `n` has the kept blocks at the places from
/// `n * step` on, `step` of them, or as many as are left.
#[derive(Drop)]
pub struct Plan<'a> {
    /// The records.
    pub survey: &'a Survey,
    /// The class of each record.
    pub classes: &'a Classes,
    /// The survey's records in blocks.
    pub blocks: &'a Blocks,
    /// The numbers of the blocks to be drawn.
    pub kept: &'a KeptBlocks,
    /// Where each point falls.
    pub camera: &'a Camera,
    /// Which records show.
    pub filter: &'a Filter,
    /// How many kept blocks a piece has, at least 1.
    pub step: u32,
}

impl Plan<'_> {
    /// How many pieces there are.
    pub fn pieces(&self) -> u32
        requires { 1 ≤ self.now.step }
        ensures count { result ≡ div_ceil (length self.now.kept.now) self.now.step }
        ensures few { result ≤ length self.now.kept.now }
    {
        self.kept.count().div_ceil(self.step)
    }
}

/// How many blocks a piece has where so many are kept: one where they are fewer than 16,384, and
/// else as many as leave 8192 to 16,383 pieces. So a claim costs little beside what it draws.
pub fn step_for(kept: u32) -> u32
    ensures some { 1 ≤ result }
    ensures few { kept < 16384 → result ≡ 1 }
    ensures many { 16384 ≤ kept → (8192 ≤ div_ceil kept result) × (div_ceil kept result < 16384) }
{
    (kept / FEWEST).max(1)
}
