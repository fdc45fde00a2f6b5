ghost use Rattle.std.specs.Prelude.{◌≡◌, ◌↔◌, ◌<◌, ◌≤◌, All, Any, IfOk, length, slice_index};
ghost use Rattle.view_base.specs.declared.place.Box3.{Box3 as Area};
ghost use Rattle.view_meaning.specs.Camera.{Lens};
ghost use Rattle.int_camera.specs.HalfSpaces.{HasNormal};
ghost use Rattle.cull_boxes.specs.Outside.{Excludes, IsOutside};
ghost use Rattle.cull_boxes.specs.Kept.{HasEachInView, IsKept};

use crate::boxes::some_excludes;
use crate::cull::Cull;
use crate::narrow::narrow_all;
use grid_blocks::Blocks;
use int_camera::{Camera, half_spaces};
use std::alloc::Global;
use std::marker::Model;
use view_base::{Listing, OutOfMemory};

/// The numbers of the blocks that a view has to look at, rising. Contracts see a list of numbers.
#[derive(Drop)]
pub struct KeptBlocks {
    list: Listing<u32>,
}

impl Model for KeptBlocks {
    ghost use Rattle.std.specs.Prelude.{ℕ, ◌<◌, ◌^◌, List, length};

    ghost Value = { List ℕ };

    ghost view = { λ a. a.list.items };

    ghost invariant = { λ a. length a.list.items < 2 ^ 32 };
}

impl KeptBlocks {
    /// How many blocks are kept.
    pub fn count(&self) -> u32
        ensures { result ≡ length self.now }
    {
        self.list.len() as u32
    }

    /// The number of the kept block at place `i`, from 0.
    pub fn at(&self, i: u32) -> u32
        requires { i < length self.now }
        ensures { result ≡ slice_index self.now i }
    {
        *self.list.at(i as usize)
    }
}

/// The numbers of the blocks whose boxes are not outside a camera's view, in rising order. A
/// refusal is want of memory; room for all blocks is made at once. Looks at each block's box, and
/// at no record.
pub fn kept(alloc: Global, camera: &Camera, blocks: &Blocks) -> Result<KeptBlocks, OutOfMemory>
    ensures kept { IfOk result (IsKept camera.now blocks.now.blocks) }
    ensures few { IfOk result (λ kept. length kept ≤ length blocks.now.blocks) }
    ensures in_view { IfOk result (HasEachInView camera.now blocks.now.blocks) }
{
    let spaces = half_spaces(camera);
    match narrow_all(&spaces) {
        Some(narrow) => kept_by(alloc, &narrow, blocks),
        None => kept_by(alloc, &spaces, blocks),
    }
}

/// The numbers of the blocks whose boxes none of some half-spaces excludes, in rising order.
fn kept_by<S: Cull>(alloc: Global, spaces: &[S], blocks: &Blocks) -> Result<KeptBlocks, OutOfMemory>
    requires normals { All (λ s. HasNormal (S.half_space s)) spaces.now }
    ensures kept { (lens : Lens) → ((area : Area) → Any (λ s. Excludes (S.half_space s) area) spaces.now ↔ IsOutside lens area)
        → IfOk result (IsKept lens blocks.now.blocks) }
    ensures few { IfOk result (λ kept. length kept ≤ length blocks.now.blocks) }
{
    let mut list = Listing::new(alloc);
    list.reserve(blocks.count() as usize)?;
    for k in 0..blocks.count() {
        if !some_excludes(spaces, &blocks.block(k).area) {
            list.push_within(k);
        }
    }
    Ok(KeptBlocks { list })
}
