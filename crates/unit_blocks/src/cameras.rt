use int_camera::{Camera, CameraLimit, CameraNumbers, Kind, Spot, project};
use std::process::Abort;
use view_base::Point;

/// The numbers of a camera of one pixel at the origin that looks along Z.
const ONE: [i128; 18] = [1, 1, 0, 0, 0, 1, 0, 0, 0, 1, 0, 0, 0, 1, 1, 1, 0, 10];

/// The numbers of a camera in perspective of two pixels at the origin that looks along Z.
const TWO: [i128; 18] = [2, 1, 0, 0, 0, 1, 0, 0, 0, 1, 0, 0, 0, 1, 1, 1, 1, 10];

/// The camera of these numbers.
fn camera(rt: &impl Abort, kind: Kind, n: [i128; 18]) -> Camera {
    Camera::new(&CameraNumbers { kind, n }).expect(rt, "a camera")
}

/// A camera shows a point at this pixel and depth, or not.
fn shows(rt: &impl Abort, camera: &Camera, [x, y, z]: [i32; 3], wanted: Option<(u32, u32)>) {
    let spot = match wanted {
        Some((pixel, depth)) => Some(Spot { pixel, depth }),
        None => None,
    };
    assert_eq!(rt; project(camera, Point { x, y, z }), spot);
}

/// Numbers, each with another one at some places, from 0, are refused for this place and value.
fn is_refused(rt: &impl Abort, kind: Kind, n: [i128; 18], wanted: Option<(u8, i128)>) {
    let limit = match wanted {
        Some((place, value)) => Some(CameraLimit { place, value }),
        None => None,
    };
    assert_eq!(rt; Camera::new(&CameraNumbers { kind, n }).err(), limit);
}

#[test]
fn depths_up_to_the_greatest_are_in_view(rt: HostRuntime) {
    let mut n = ONE;
    n[4] = -2147483648;
    n[17] = 4294967294;
    let camera = camera(&rt, Kind::Ortho, n);
    shows(&rt, &camera, [0, 0, 2147483647], None);
    shows(&rt, &camera, [0, 0, 2147483646], Some((0, 4294967294)));
}

#[test]
fn the_largest_products_do_not_wrap(rt: HostRuntime) {
    let eye = 2147483647;
    let part = -32768;
    let scale = 1099511627776;
    let n = [
        768, 1, eye, eye, eye, part, part, part, 0, 0, 0, part, part, part, scale, scale, 0,
        4294967294,
    ];
    shows(
        &rt,
        &camera(&rt, Kind::Ortho, n),
        [-2147483648; 3],
        Some((767, 383)),
    );
}

#[test]
fn the_first_number_out_of_range_is_named(rt: HostRuntime) {
    let mut n = ONE;
    n[0] = 4097;
    n[17] = -1;
    is_refused(&rt, Kind::Ortho, n, Some((1, 4097)));
    n[0] = 4096;
    n[1] = 4096;
    is_refused(&rt, Kind::Ortho, n, Some((18, -1)));
    n[17] = 10;
    is_refused(&rt, Kind::Ortho, n, Some((19, 16777216)));
}

#[test]
fn a_column_left_of_the_middle_is_rounded_down(rt: HostRuntime) {
    let camera = camera(&rt, Kind::Persp, TWO);
    shows(&rt, &camera, [-1, 0, 2], Some((0, 2)));
    shows(&rt, &camera, [0, 0, 0], None);
    shows(&rt, &camera, [1, 0, -2], None);
}

#[test]
fn the_ranges_of_perspective_are_its_own(rt: HostRuntime) {
    let mut n = TWO;
    n[14] = 1048576;
    is_refused(&rt, Kind::Persp, n, None);
    n[14] = 1048577;
    is_refused(&rt, Kind::Persp, n, Some((15, 1048577)));
    n[14] = 1;
    n[16] = 0;
    is_refused(&rt, Kind::Persp, n, Some((17, 0)));
}

/// The widest camera in perspective, with the eye in one corner of all points and a vector to the
/// right of equal parts.
fn widest(rt: &impl Abort, part: i128) -> Camera {
    let eye = 2147483647;
    let ahead = -32768;
    camera(
        rt,
        Kind::Persp,
        [
            4096,
            2304,
            eye,
            eye,
            eye,
            part,
            part,
            part,
            0,
            0,
            0,
            ahead,
            ahead,
            ahead,
            1048576,
            1099511627776,
            1,
            4294967294,
        ],
    )
}

/// The column at which a camera of 4096 columns shows the corner that is farthest from its eye.
fn column(camera: &Camera) -> Option<u32> {
    let corner = Point {
        x: -2147483648,
        y: -2147483648,
        z: -2147483648,
    };
    match project(camera, corner) {
        Some(spot) => Some(spot.pixel % 4096),
        None => None,
    }
}

// The distance to the right is part / -32768 of the distance ahead, and 2^20 magnifies it.
#[test]
fn the_widest_perspective_ends_at_its_edges(rt: HostRuntime) {
    for (part, wanted) in [
        (64, Some(0)),
        (-63, Some(4064)),
        (-64, None),
        (-32768, None),
    ] {
        assert_eq!(rt; column(&widest(&rt, part)), wanted);
    }
}
