use int_camera::{Camera, CameraNumbers, Kind, half_spaces};
use std::process::Abort;

/// The half-spaces of a camera whose numbers all differ are these, each by its normal and bound.
fn are(rt: &impl Abort, kind: Kind, wanted: &[[i128; 4]; 6]) {
    let n = [5, 3, 10, 20, 30, 1, 2, 3, 4, 5, 6, 7, 8, 9, 100, 50, 2, 6];
    let camera = Camera::new(&CameraNumbers { kind, n }).expect(rt, "a camera");
    let spaces = half_spaces(&camera);
    for i in 0..6 {
        let space = spaces[i];
        assert_eq!(rt; [space.nx, space.ny, space.nz, space.c], wanted[i]);
    }
}

// r . e is 140, d . e is 320 and f . e is 500; a half is 2 of 5 columns and 1 of 3 rows.
#[test]
fn the_half_spaces_of_an_orthographic_camera(rt: HostRuntime) {
    are(
        &rt,
        Kind::Ortho,
        &[
            [1, 2, 3, 140 - 200],
            [-1, -2, -3, -140 - 300 + 1],
            [4, 5, 6, 320 - 100],
            [-4, -5, -6, -320 - 200 + 1],
            [7, 8, 9, 500 + 100],
            [-7, -8, -9, -500 - 350 + 1],
        ],
    );
}

#[test]
fn the_half_spaces_of_a_camera_in_perspective(rt: HostRuntime) {
    are(
        &rt,
        Kind::Persp,
        &[
            [114, 216, 318, 15000],
            [-79, -176, -273, -12500 + 1],
            [407, 508, 609, 32500],
            [-386, -484, -582, -31000 + 1],
            [7, 8, 9, 500 + 100],
            [-7, -8, -9, -500 - 350 + 1],
        ],
    );
}
