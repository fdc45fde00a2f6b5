use std::sync::Wait;
use std::thread::Threads;

/// What a test that runs commands runs on.
pub trait Host: Threads + Wait + Sync {}

impl<R: Threads + Wait + Sync> Host for R {}
