use thiserror::Error;

/// Why a line is no edit.
#[derive(Clone, Copy, Debug, PartialEq, Eq, Error)]
pub enum EditFault {
    /// The first word that doesn't fit, by its place from 0, or the number of words where more are
    /// needed.
    #[error("word {at} does not fit")]
    Line { at: u32 },
    /// The line fits, and its new class is above the greatest class of the point format.
    #[error("class {class} is above the greatest class of the point format")]
    ClassRange { class: i128 },
}
