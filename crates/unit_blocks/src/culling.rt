use crate::blocks::WIDE;
use crate::surveys::survey;
use cull_boxes::{kept, outside};
use grid_blocks::{Blocks, build};
use int_camera::{Camera, CameraNumbers, Kind, project};
use las_survey::Survey;
use std::alloc::Global;
use std::process::Abort;
use std::thread::Threads;
use view_base::{Box3, Point};

/// The camera of these numbers.
fn camera(rt: &impl Abort, kind: Kind, n: [i128; 18]) -> Camera {
    Camera::new(&CameraNumbers { kind, n }).expect(rt, "a camera")
}

/// A camera of one pixel at the origin that looks along Z to a depth of 10.
fn one_pixel(rt: &impl Abort) -> Camera {
    let n = [1, 1, 0, 0, 0, 1, 0, 0, 0, 1, 0, 0, 0, 1, 1, 1, 0, 10];
    camera(rt, Kind::Ortho, n)
}

/// The box from one corner to another.
fn area([x, y, z]: [i32; 3], [to_x, to_y, to_z]: [i32; 3]) -> Box3 {
    Box3 {
        min: Point { x, y, z },
        max: Point {
            x: to_x,
            y: to_y,
            z: to_z,
        },
    }
}

/// A camera keeps these of some blocks.
fn keeps(rt: &impl Abort, alloc: Global, camera: &Camera, blocks: &Blocks, wanted: &[u32]) {
    let kept = kept(alloc, camera, blocks).expect(rt, "memory for a list");
    assert_eq!(rt; kept.count() as usize, wanted.len());
    for i in 0..kept.count() {
        assert_eq!(rt; kept.at(i), wanted[i as usize]);
    }
}

/// The camera of one pixel keeps these blocks by cells of a survey.
fn pixel_keeps<R: Abort + Threads + Sync>(rt: &R, alloc: Global, survey: &Survey, wanted: &[u32]) {
    let blocks = build(alloc, rt, 1, survey).expect(rt, "memory for blocks");
    keeps(rt, alloc, &one_pixel(rt), &blocks, wanted);
}

/// No corner of the middle block's box is in view, and still no half-space has none of them.
fn has_no_corner_in_view(rt: &impl Abort, camera: &Camera) {
    for (x, y) in [(-10, -10), (-10, 10), (10, -10), (10, 10)] {
        assert_eq!(rt; project(camera, Point { x, y, z: 5 }), None);
    }
    assert!(rt; !outside(camera, &area([-10, -10, 5], [10, 10, 5])));
}

#[test]
fn a_box_wider_than_the_picture_is_kept(rt: HostRuntime) {
    has_no_corner_in_view(&rt, &one_pixel(&rt));
    pixel_keeps(&rt, rt.alloc(), &survey(&rt, rt.alloc(), 0, &WIDE), &[1]);
}

#[test]
fn a_block_beside_the_picture_is_not_kept(rt: HostRuntime) {
    let survey = survey(&rt, rt.alloc(), 1024, &[[5000, 0, 5]]);
    pixel_keeps(&rt, rt.alloc(), &survey, &[0]);
}

#[test]
fn no_records_have_no_kept_blocks(rt: HostRuntime) {
    pixel_keeps(&rt, rt.alloc(), &survey(&rt, rt.alloc(), 0, &[]), &[]);
}

/// Boxes are outside a camera's view or not, each by its corners.
fn boxes_are(rt: &impl Abort, camera: &Camera, wanted: &[([i32; 3], [i32; 3], bool)]) {
    for (min, max, is_outside) in wanted {
        assert_eq!(rt; outside(camera, &area(*min, *max)), *is_outside);
    }
}

#[test]
fn a_box_behind_the_eye_is_outside(rt: HostRuntime) {
    let n = [2, 1, 0, 0, 0, 1, 0, 0, 0, 1, 0, 0, 0, 1, 1, 1, 1, 10];
    boxes_are(
        &rt,
        &camera(&rt, Kind::Persp, n),
        &[
            ([-5, -5, -9], [5, 5, -1], true),
            ([-5, -5, -9], [5, 5, 0], true),
            ([-5, -5, -9], [5, 5, 1], false),
            ([9, -5, 1], [99, 5, 9], true),
            ([8, -5, 1], [99, 5, 9], false),
        ],
    );
}

/// The numbers of a camera in perspective of two pixels with this eye, vector to the right and focal
/// number, that looks along Z to a depth of 10.
fn numbers_with([x, y, z]: [i128; 3], [a, b, c]: [i128; 3], focal: i128) -> [i128; 18] {
    [2, 1, x, y, z, a, b, c, 0, 1, 0, 0, 0, 1, focal, 1, 1, 10]
}

// With depths 1 to 10 along Z and these vectors, all in view has the eye's own X. A part of a normal
// is 2^30 in size by a focal number of 32768, the most that sums of 64 bits take, and more by 32769.
#[test]
fn the_largest_parts_leave_out_what_is_beside_the_eye(rt: HostRuntime) {
    for focal in [32768, 32769] {
        let n = numbers_with([0, 0, -2147483648], [-32768, 0, 0], focal);
        boxes_are(
            &rt,
            &camera(&rt, Kind::Persp, n),
            &[
                ([1, 0, -2147483647], [2147483647, 0, -2147483638], true),
                ([-2147483648, 0, -2147483647], [-1, 0, -2147483638], true),
                ([0, 0, -2147483647], [0, 0, -2147483647], false),
            ],
        );
    }
}

#[test]
fn the_largest_sums_do_not_wrap(rt: HostRuntime) {
    let least = -2147483648;
    let most = 2147483647;
    let n = numbers_with([-2147483648; 3], [-32768; 3], 32767);
    boxes_are(
        &rt,
        &camera(&rt, Kind::Persp, n),
        &[
            ([most; 3], [most; 3], true),
            ([least; 3], [most; 3], false),
            ([least; 3], [least; 3], true),
        ],
    );
}
