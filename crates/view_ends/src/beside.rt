/// Whoever watches the workers of a picture.
pub trait Beside: Sync {
    /// Is told that a worker, numbered from 0, claimed the piece of the picture's work with this
    /// number. It promises nothing, and returns.
    fn arrive(&self, worker: u32, number: u32);
}

/// Nobody watches.
#[derive(Clone, Copy, Debug, PartialEq, Eq)]
pub struct NoBeside;

impl Beside for NoBeside {
    fn arrive(&self, _worker: u32, _number: u32) {}
}
