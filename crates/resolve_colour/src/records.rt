use class_pages::Classes;
use las_survey::Survey;

/// The records of a survey under given classes, as words name them.
#[derive(Clone, Copy)]
pub(crate) struct Records<'a> {
    /// The survey.
    pub(crate) survey: &'a Survey,
    /// The class of each of its records.
    pub(crate) classes: &'a Classes,
}
