use class_bits::Filter;
use int_camera::Camera;
use std::marker::Model;
use view_base::Colouring;

/// What a picture is of: a camera, where the colours come from, and which records show. Contracts
/// see it as the record `View` of the definitions.
#[derive(Clone, Copy, Debug)]
pub struct ViewSpec {
    /// Where each point falls.
    pub camera: Camera,
    /// Where the colours come from.
    pub colouring: Colouring,
    /// Which records show.
    pub filter: Filter,
}

impl Model for ViewSpec {
    ghost use Rattle.view_meaning.specs.Picture.{View};

    ghost Value = { View };

    ghost view = { λ v. record { camera = v.camera; colouring = v.colouring; filter = v.filter } };

    ghost inverse = { λ v. record { camera = v.camera; colouring = v.colouring; filter = v.filter } };
}
