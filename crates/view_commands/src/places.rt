/// The place of the survey's name on the command line, from 0.
pub(crate) const SURVEY: u32 = 1;

/// The place of the name of what a `draw` or an `info` writes.
pub(crate) const OUT: u32 = 2;

/// The place of the name of what a `trial` writes.
pub(crate) const TRIAL_OUT: u32 = 4;

/// The place of the journal's name in a `serve`.
pub(crate) const JOURNAL: u32 = 3;

/// The place there of the name of the first session's input. That of each next one is two
/// places on.
pub(crate) const INPUT: u32 = 4;

/// The place there of the name of the first session's output. That of each next one is two places
/// on.
pub(crate) const OUTPUT: u32 = 5;
