ghost use Rattle.std.specs.Prelude.{◌≤◌, None};

use las_survey::{HeaderFault, LoadFault, SurveyFault, load};
use std::alloc::Global;
use std::process::Abort;
use view_ends::{Failed, Source};

/// A number of zeros, which are not told beforehand.
#[derive(Drop)]
struct Zeros {
    all: u64,
    taken: u64,
    ghost within: { taken ≤ all },
}

impl Source for Zeros {
    ghost left = { λ _. None };

    ghost taken = { λ s. s.taken };

    ghost faults = { λ _. 0 };

    fn take(&mut self, buf: &mut [u8]) -> Result<usize, Failed> {
        let n = buf.len().min((self.all - self.taken) as usize);
        buf[..n].fill(0);
        self.taken += n as u64;
        Ok(n)
    }
}

/// A load of `all` zeros has this fault, and takes each of them.
fn are_answered(rt: &impl Abort, alloc: Global, all: u64, want: LoadFault) {
    let mut zeros = Zeros { all, taken: 0 };
    assert_eq!(rt; load(alloc, &mut zeros).err(), Some(want));
    assert_eq!(rt; zeros.taken, all);
}

#[test]
fn a_survey_has_at_most_two_to_the_30_bytes(rt: HostRuntime) {
    let limit = 1 << 30;
    let signature = LoadFault::Survey(SurveyFault::Header(HeaderFault::Signature));
    are_answered(&rt, rt.alloc(), limit, signature);
    are_answered(&rt, rt.alloc(), limit + 1, LoadFault::TooLong);
}
