ghost use Rattle.std.specs.Prelude.{◌≡◌, ℕ, ◌+◌, ◌<◌, ◌≤◌, [], ◌∷◌, IfSome, IfNone, true, false};
ghost use Rattle.view_meaning.specs.Classes.{has};
ghost use Rattle.edit_ops.specs.EditLine.{runs};
ghost use Rattle.edit_ops.specs.Reading.{members_from};

use class_bits::ClassSet;

/// The first longest run of neighbouring classes from `from` on, by its first and its last.
pub fn next_run(classes: &ClassSet, from: u16) -> Option<(u8, u8)>
    requires { from ≤ 256 }
    ensures run { IfSome result (λ run. runs (members_from classes.now from)
        ≡ run ∷ runs (members_from classes.now (run.1 + 1))) }
    ensures after { IfSome result (λ run. from ≤ run.1) }
    ensures within { IfSome result (λ run. run.1 ≤ 255) }
    ensures none { IfNone result (members_from classes.now from ≡ []) }
{
    let first = first_from(classes, from);
    if first == 256 {
        return None;
    }
    Some((first as u8, run_end(classes, first as u8)))
}

/// The first class of a set from `from` on, or 256 where it has none.
fn first_from(classes: &ClassSet, from: u16) -> u16
    requires { from ≤ 256 }
    ensures from { from ≤ result }
    ensures within { result ≤ 256 }
    ensures skipped { members_from classes.now from ≡ members_from classes.now result }
    ensures found { result < 256 → has classes.now result ≡ true }
{
    for class in from..256 {
        if classes.has(class as u8) {
            return class;
        }
    }
    256
}

/// The last of the neighbours of a class that the set has in one run with it.
fn run_end(classes: &ClassSet, first: u8) -> u8
    requires { has classes.now first ≡ true }
    ensures after { first ≤ result }
    ensures run { (c : ℕ) → first ≤ c → c ≤ result → has classes.now c ≡ true }
    ensures ends { result < 255 → has classes.now (result + 1) ≡ false }
{
    for class in first..255 {
        if !classes.has(class + 1) {
            return class;
        }
    }
    255
}
