use crate::drawing::Scene;
use version_store::Shared;

/// What every session of a run shares: the survey as pictures of it are drawn, and the store of its
/// versions.
#[derive(Drop)]
pub struct World {
    /// The survey.
    pub scene: Scene,
    /// The versions of the survey's classes.
    pub shared: Shared,
}
