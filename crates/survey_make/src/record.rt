ghost use Rattle.std.specs.Prelude.{◌≡◌, ◌≤◌, ◌+◌, ◌++◌, ◌<◌};
ghost use Rattle.survey_make.specs.Made.{colour_part, place_bytes, record_bytes};
ghost use Rattle.view_meaning.specs.Survey.{class_place};
ghost use Rattle.view_meaning.specs.Layout.{least_length};

use las_header::least_length;
use las_points::{class_place, rgb_place};
use view_base::Bytes;

/// The numbers of a record that are not 0.
#[derive(Clone, Copy)]
pub(crate) struct Numbers {
    pub(crate) x: u16,
    pub(crate) y: u16,
    pub(crate) z: u16,
    pub(crate) intensity: u16,
    pub(crate) class: u8,
}

impl Numbers {
    /// Appends the record of a format with these numbers, of the format's least length. Its red is
    /// the intensity, its green X and its blue Y. It fits in the room.
    pub(crate) fn append(&self, format: u8, bytes: &mut Bytes)
        requires format { format ≤ 10 }
        requires room { least_length format ≤ bytes.old.spare }
        ensures appended { bytes.new.items ≡ bytes.old.items ++ record_bytes format self.now.x self.now.y self.now.z self.now.intensity self.now.class }
        ensures spare { bytes.old.spare ≤ bytes.new.spare + least_length format }
    {
        self.append_place(bytes);
        bytes.extend_by(class_place(format) - 14, 0);
        bytes.push_within(self.class);
        self.append_colour(format, bytes);
    }

    /// Appends X, Y, Z and intensity, the first 14 bytes of the record.
    fn append_place(&self, bytes: &mut Bytes)
        requires { 14 ≤ bytes.old.spare }
        ensures appended { bytes.new.items ≡ bytes.old.items ++ place_bytes self.now.x self.now.y self.now.z self.now.intensity }
        ensures spare { bytes.old.spare ≤ bytes.new.spare + 14 }
    {
        bytes.append_within(&u32::from(self.x).to_le_bytes());
        bytes.append_within(&u32::from(self.y).to_le_bytes());
        bytes.append_within(&u32::from(self.z).to_le_bytes());
        bytes.append_within(&self.intensity.to_le_bytes());
    }

    /// Appends what stands behind the class of the record.
    #[tactic(auto, unfolding(crate::specs::Made::behind_class))]
    fn append_colour(&self, format: u8, bytes: &mut Bytes)
        requires format { format ≤ 10 }
        requires room { least_length format ≤ bytes.old.spare + class_place format + 1 }
        ensures appended { bytes.new.items ≡ bytes.old.items ++ colour_part format self.now.intensity self.now.x self.now.y }
        ensures spare { bytes.old.spare + class_place format + 1 ≤ bytes.new.spare + least_length format }
    {
        let at = class_place(format) + 1;
        let end = usize::from(least_length(format));
        match rgb_place(format) {
            Some(place) => {
                bytes.extend_by(place - at, 0);
                bytes.append_within(&self.intensity.to_le_bytes());
                bytes.append_within(&self.x.to_le_bytes());
                bytes.append_within(&self.y.to_le_bytes());
                bytes.extend_by(end - (place + 6), 0);
            }
            None => bytes.extend_by(end - at, 0),
        }
    }
}
