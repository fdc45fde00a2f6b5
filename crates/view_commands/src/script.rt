/// The point data record format of the survey of a trial.
pub(crate) const FORMAT: u8 = 7;

/// The first line of a trial, without its LF: all records from above, by their classes.
pub(crate) const FROM_ABOVE: &[u8] =
    b"view ortho 256 256 32768 32768 0 1 0 0 0 1 0 0 0 1 256 1 0 65535 class all show";

/// The second: the records whose Z is at most 1023 get class 2.
pub(crate) const RECLASSIFY: &[u8] = b"edit 0 0 0 65535 65535 1023 all 2";

/// The third: the records that are not withheld, in perspective, by their intensity.
pub(crate) const IN_PERSPECTIVE: &[u8] =
    b"view persp 256 256 32768 32768 -65536 1 0 0 0 1 0 0 0 1 128 16 1 65535 intensity all hide";

/// The fourth: how many records have class 2.
pub(crate) const COUNT: &[u8] = b"count 2 show";
