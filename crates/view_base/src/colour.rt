/// The RGB of a point data record, 16 bits a channel as the file stores them.
#[derive(Clone, Copy, Debug, PartialEq, Eq)]
pub struct Rgb {
    pub red: u16,
    pub green: u16,
    pub blue: u16,
}

/// What a picture's colours are taken from.
#[derive(Clone, Copy, Debug, PartialEq, Eq)]
pub enum Colouring {
    /// The palette of classes.
    Class,
    /// The record's RGB, its channels divided by 256.
    Rgb16,
    /// The record's RGB, its channels cut at 255, for files that fill only the lower byte.
    Rgb8,
    /// The record's intensity divided by 256, as a grey.
    Intensity,
}
