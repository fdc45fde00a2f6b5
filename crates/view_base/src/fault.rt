use std::fmt;

/// The first condition on the public header block that a file does not meet (LAS 1.4 R15, public
/// header block), with the numbers that show it.
#[derive(Clone, Copy, Debug, PartialEq, Eq)]
pub enum HeaderFault {
    /// The file has fewer bytes than the block of its version, 227, 235 or 375: so many.
    TooShort { have: u64 },
    /// The file does not begin with `LASF`.
    Signature,
    /// The version is not 1.2, 1.3 or 1.4.
    Version { major: u8, minor: u8 },
    /// The header size is below the bytes of the version's block.
    HeaderSize { size: u16 },
    /// The format byte is 128 or more: the points are compressed.
    Compressed { byte: u8 },
    /// The point data record format is above 10.
    Format { byte: u8 },
    /// The point data record length is below the least of the format.
    RecordLength { have: u16, least: u16 },
    /// The offset to point data is below the header size.
    Offset { offset: u32 },
}

impl fmt::Display for HeaderFault {
    ghost use Rattle.std.specs.Prelude.{Some};
    ghost use Rattle.view_base.specs.FaultText.{header_text};

    ghost output = { λ fault. Some (header_text fault) };

    fn fmt<W: fmt::Write>(&self, f: &mut fmt::Formatter<W>) -> fmt::Result {
        match self {
            HeaderFault::TooShort { have } => write!(f, "only {have} bytes"),
            HeaderFault::Signature => f.write_str("no LASF signature"),
            HeaderFault::Version { major, minor } => write!(f, "version {major}.{minor}"),
            HeaderFault::HeaderSize { size } => write!(f, "header size {size}"),
            HeaderFault::Compressed { byte } => write!(f, "compressed points, format byte {byte}"),
            HeaderFault::Format { byte } => write!(f, "point format {byte}"),
            HeaderFault::RecordLength { have, least } => {
                write!(f, "record length {have}, least {least}")
            }
            HeaderFault::Offset { offset } => write!(f, "point offset {offset}"),
        }
    }
}

/// The first condition on the layout of a file that its bytes do not meet, with the numbers that
/// show it: first the header's, then each variable length record, the points, and each extended
/// variable length record.
#[derive(Clone, Copy, Debug, PartialEq, Eq)]
pub enum SurveyFault {
    /// A condition on the public header block.
    Header(HeaderFault),
    /// Variable length record `k`, from 0, which begins at byte `at`, does not end before the
    /// points and within the file.
    Vlr { k: u32, at: u64 },
    /// The points end at byte `need`, and the file has `have` bytes.
    Points { need: u128, have: u64 },
    /// Extended variable length record `k`, from 0, which begins at byte `at`, does not begin
    /// after the points and end within the file.
    Evlr { k: u32, at: u64 },
}

impl fmt::Display for SurveyFault {
    ghost use Rattle.std.specs.Prelude.{Some};
    ghost use Rattle.view_base.specs.FaultText.{text_of};

    ghost output = { λ fault. Some (text_of fault) };

    fn fmt<W: fmt::Write>(&self, f: &mut fmt::Formatter<W>) -> fmt::Result {
        match self {
            SurveyFault::Header(fault) => write!(f, "{fault}"),
            SurveyFault::Vlr { k, at } => write!(f, "VLR {k} at {at}"),
            SurveyFault::Points { need, have } => {
                write!(f, "points need {need} bytes, file has {have}")
            }
            SurveyFault::Evlr { k, at } => write!(f, "EVLR {k} at {at}"),
        }
    }
}
