//! Workers who have to meet.
ghost use Rattle.std.specs.Prelude.{◌≡◌, ◌≤◌};

use crate::drawing::{ONE_PIXEL, are, drawn_by, view_of};
use crate::surveys::survey_of;
use class_bits::ClassSet;
use las_survey::Survey;
use std::alloc::Global;
use std::hint::spin_loop;
use std::process::Abort;
use std::sync::atomic::{AtomicU64, Ordering};
use std::test::Fail;
use std::thread::Threads;
use view_base::OutOfMemory;
use view_ends::Beside;

/// How often a held worker looks for the others.
const TURNS: u32 = 100_000_000;

/// Holds each of two or three workers in its first call until the others have come, and counts how
/// often each worker called and how often each number below 4 was told.
#[derive(Drop)]
struct Meeting {
    workers: u32,
    calls: [AtomicU64; 3],
    told: [AtomicU64; 4],
    late: AtomicU64,
    strangers: AtomicU64,
}

impl Meeting {
    fn new(workers: u32) -> Meeting
        ensures { result.workers ≡ workers }
    {
        Meeting {
            workers,
            calls: [AtomicU64::new(0), AtomicU64::new(0), AtomicU64::new(0)],
            told: [
                AtomicU64::new(0),
                AtomicU64::new(0),
                AtomicU64::new(0),
                AtomicU64::new(0),
            ],
            late: AtomicU64::new(0),
            strangers: AtomicU64::new(0),
        }
    }

    /// Whether each worker has come.
    fn is_full(&self) -> bool {
        let [first, second, third] = &self.calls;
        first.load(Ordering::SeqCst) > 0
            && second.load(Ordering::SeqCst) > 0
            && (self.workers < 3 || third.load(Ordering::SeqCst) > 0)
    }

    /// Waits until each worker has come, so many turns at most.
    fn wait(&self) {
        for _ in 0..TURNS {
            if self.is_full() {
                return;
            }
            spin_loop();
        }
        self.late.fetch_add(1, Ordering::SeqCst);
    }

    /// How often each worker called.
    fn calls(&self) -> [u64; 3] {
        let [first, second, third] = &self.calls;
        [
            first.load(Ordering::SeqCst),
            second.load(Ordering::SeqCst),
            third.load(Ordering::SeqCst),
        ]
    }

    /// How often each number was told.
    fn told(&self) -> [u64; 4] {
        let [first, second, third, fourth] = &self.told;
        [
            first.load(Ordering::SeqCst),
            second.load(Ordering::SeqCst),
            third.load(Ordering::SeqCst),
            fourth.load(Ordering::SeqCst),
        ]
    }

    /// How many calls came too late, or of no worker or number that there is.
    fn amiss(&self) -> u64 {
        self.late
            .load(Ordering::SeqCst)
            .wrapping_add(self.strangers.load(Ordering::SeqCst))
    }
}

impl Beside for Meeting {
    fn arrive(&self, worker: u32, number: u32) {
        if worker >= self.workers || worker >= 3 || number >= 4 {
            self.strangers.fetch_add(1, Ordering::SeqCst);
            return;
        }
        self.told[number as usize].fetch_add(1, Ordering::SeqCst);
        if self.calls[worker as usize].fetch_add(1, Ordering::SeqCst) == 0 {
            self.wait();
        }
    }
}

/// Draws a survey of one pixel by pieces of one block, and asks that all workers met and each piece
/// was told as often as that.
fn meet<R: Abort + Threads + Sync>(
    rt: &R,
    alloc: Global,
    survey: &Survey,
    pieces: u32,
    told: [u64; 4],
    meeting: &Meeting,
) -> Result<(), OutOfMemory>
    requires workers { (1 ≤ meeting.now.workers) × (meeting.now.workers ≤ 64) }
{
    let view = view_of(rt, ONE_PIXEL, ClassSet::all(), false);
    let workers = meeting.workers;
    let words = drawn_by(rt, alloc, survey, &view, (1, pieces), workers, meeting)?;
    assert!(rt; are(&words, &[5 << 32]));
    assert!(rt; meeting.amiss() == 0 && meeting.told() == told);
    Ok(())
}

#[test]
fn two_workers_run_at_the_same_time(rt: HostRuntime) -> Result<(), Fail> {
    let survey = survey_of(rt.alloc(), &[([0, 0, 5], 2); 2049])?;
    let meeting = Meeting::new(2);
    meet(&rt, rt.alloc(), &survey, 3, [1, 1, 1, 0], &meeting)?;
    let [first, second, third] = meeting.calls();
    assert!(rt; (first, second) == (1, 2) || (first, second) == (2, 1));
    assert!(rt; third == 0);
    Ok(())
}

#[test]
fn three_workers_each_tell_their_own_number(rt: HostRuntime) -> Result<(), Fail> {
    let survey = survey_of(rt.alloc(), &[([0, 0, 5], 2); 3073])?;
    let meeting = Meeting::new(3);
    meet(&rt, rt.alloc(), &survey, 4, [1, 1, 1, 1], &meeting)?;
    let calls = meeting.calls();
    assert!(rt; calls == [2, 1, 1] || calls == [1, 2, 1] || calls == [1, 1, 2]);
    Ok(())
}
