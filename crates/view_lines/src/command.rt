use class_bits::Filter;
use edit_ops::Edit;
use view_text::ViewSpec;

/// What a line of a session asks for.
#[derive(Clone, Copy, Debug)]
pub enum Command {
    /// A picture.
    View(ViewSpec),
    /// Another class for the records of some classes in a box.
    Edit(Edit),
    /// How many records pass.
    Count(Filter),
    /// The survey as a file.
    Save,
}
