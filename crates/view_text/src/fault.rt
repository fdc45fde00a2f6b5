use int_camera::CameraLimit;

/// Why words are not those of a view or of a filter.
#[derive(Clone, Copy, Debug, PartialEq, Eq)]
pub enum TextFault {
    /// The first word that doesn't fit, by its place from 0, or the number of words where more are
    /// needed.
    Line { at: u32 },
    /// The words fit, and this is the first camera number that is out of its range.
    Limit(CameraLimit),
}
