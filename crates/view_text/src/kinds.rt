ghost use Rattle.view_text.specs.ViewWords.{kind, colouring, hides};

use int_camera::Kind;
use view_base::{Colouring, WordKind};

/// Words that name a kind of camera.
pub(crate) struct CameraWord;

#[tactic(auto, unfolding(crate::specs::ViewWords::kind))]
impl WordKind for CameraWord {
    type Value = Kind;

    ghost value = { kind };

    ghost Keeps = { λ kind. Unit {0} };

    fn read(word: &[u8]) -> Option<Kind> {
        if word == b"ortho".as_slice() {
            return Some(Kind::Ortho);
        }
        if word == b"persp".as_slice() {
            return Some(Kind::Persp);
        }
        None
    }
}

/// Words that name a colouring.
pub(crate) struct ColouringWord;

#[tactic(auto, unfolding(crate::specs::ViewWords::colouring))]
impl WordKind for ColouringWord {
    type Value = Colouring;

    ghost value = { colouring };

    ghost Keeps = { λ colouring. Unit {0} };

    fn read(word: &[u8]) -> Option<Colouring> {
        if word == b"class".as_slice() {
            return Some(Colouring::Class);
        }
        if word == b"rgb16".as_slice() {
            return Some(Colouring::Rgb16);
        }
        if word == b"rgb8".as_slice() {
            return Some(Colouring::Rgb8);
        }
        if word == b"intensity".as_slice() {
            return Some(Colouring::Intensity);
        }
        None
    }
}

/// Words that say what becomes of withheld records: whether they are hidden.
pub(crate) struct WithheldWord;

#[tactic(auto, unfolding(crate::specs::ViewWords::hides))]
impl WordKind for WithheldWord {
    type Value = bool;

    ghost value = { hides };

    ghost Keeps = { λ hidden. Unit {0} };

    fn read(word: &[u8]) -> Option<bool> {
        if word == b"show".as_slice() {
            return Some(false);
        }
        if word == b"hide".as_slice() {
            return Some(true);
        }
        None
    }
}
