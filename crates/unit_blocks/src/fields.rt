use las_points::{intensity, rgb, withheld};
use view_base::Rgb;

/// A record of format 10, the longest, of which each byte is its own place.
fn places() -> [u8; 67] {
    let mut rec = [0; 67];
    for at in 0..67 {
        rec[at] = at as u8;
    }
    rec
}

#[test]
fn intensity_and_colours_stand_at_their_places(rt: HostRuntime) {
    let rec = places();
    assert_eq!(rt; intensity(&rec), 0x0D0C);
    for format in [0, 1, 4, 6, 9] {
        assert_eq!(rt; rgb(format, &rec), None);
    }
    let at_20 = Some(Rgb {
        red: 0x1514,
        green: 0x1716,
        blue: 0x1918,
    });
    let at_28 = Some(Rgb {
        red: 0x1D1C,
        green: 0x1F1E,
        blue: 0x2120,
    });
    let at_30 = Some(Rgb {
        red: 0x1F1E,
        green: 0x2120,
        blue: 0x2322,
    });
    for (format, want) in [
        (2, at_20),
        (3, at_28),
        (5, at_28),
        (7, at_30),
        (8, at_30),
        (10, at_30),
    ] {
        assert_eq!(rt; rgb(format, &rec), want);
    }
}

#[test]
fn each_family_has_its_own_withheld_bit(rt: HostRuntime) {
    let mut rec = [0; 67];
    for (flags, old, new) in [
        (0x80, true, false),
        (0x04, false, true),
        (0x7B, false, false),
    ] {
        rec[15] = flags;
        assert_eq!(rt; withheld(5, &rec), old);
        assert_eq!(rt; withheld(6, &rec), new);
    }
}
