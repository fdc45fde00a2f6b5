ghost use Rattle.std.specs.Prelude.{◌<◌, ◌≤◌};

/// From how many records on work on them is shared among workers.
pub(crate) const SHARED: usize = 4096;

/// How many of so many records the first half of the workers takes.
pub(crate) fn front_share(records: usize, workers: u32) -> usize
    requires { 1 ≤ workers }
    ensures some { 2 ≤ workers → workers ≤ records → 1 ≤ result }
    ensures rest { 1 ≤ records → result < records }
    ensures within { result ≤ records }
{
    records / workers as usize * (workers / 2) as usize
}
