ghost use Rattle.std.specs.Prelude.{◌≡◌, ◌+◌, ◌-◌, ◌^◌, ◌<◌, [], None, true, false, IfOk};
ghost use Rattle.sessions.specs.Worlds.{IsWorld, HasGivenBack};
ghost use Rattle.version_store.specs.Sharing.{IsOwn};

use grid_blocks::build;
use las_survey::{Survey, load};
use min_frame::EmptyWords;
use sessions::{Scene, World};
use std::alloc::Global;
use std::sync::Arc;
use std::test::Fail;
use std::thread::Threads;
use test_desks::{ONE, plain};
use version_store::{Pass, Shared};
use view_ends::StillSource;

/// The survey of one point.
fn one_point(alloc: Global) -> Result<Survey, Fail> {
    let mut file = StillSource::new(plain(alloc, &ONE)?);
    Ok(load(alloc, &mut file)?)
}

/// A world of one point, whose pictures one worker draws, and the root of its passes.
pub(crate) fn world<R: Threads + Sync>(rt: &R, alloc: Global) -> Result<(World, Pass), Fail>
    ensures world { IfOk result (λ r. IsWorld r.0) }
    ensures root { IfOk result (λ r. r.1 ≡ record { gate = r.0.shared.name; who = 0; seen = []; mine = []; turn = None; root = true; out = 0; given = 0; kept = [] }) }
{
    let survey = one_point(alloc)?;
    let blocks = Arc::new(alloc, build(alloc, rt, 1, &survey)?)?;
    let survey = Arc::new(alloc, survey)?;
    let (shared, root) = Shared::over(alloc, Arc::try_clone(&survey)?, Arc::try_clone(&blocks)?)?;
    let scene = Scene {
        survey,
        blocks,
        workers: 1,
        empty: EmptyWords::none(alloc),
    };
    Ok((World { scene, shared }, root))
}

/// The pass of the next session, while no session has begun.
pub(crate) fn next_pass(world: &World, root: &mut Pass) -> Pass
    requires gate { root.old.gate ≡ world.now.shared.name }
    requires root { root.old.root ≡ true }
    requires given { root.old.given < 2 ^ 32 - 1 }
    requires unseen { root.old.seen ≡ [] }
    ensures root { root.new ≡ record root.old { out = root.old.out + 1; given = root.old.given + 1 } }
    ensures pass { result ≡ record { gate = world.now.shared.name; who = root.old.given + 1; seen = []; mine = []; turn = None; root = false; out = 0; given = 0; kept = [] } }
    ensures own { IsOwn result }
    ensures given_back { HasGivenBack result.seen result.who }
{
    world.shared.split(root)
}
