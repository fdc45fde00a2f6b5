ghost use Rattle.std.specs.Prelude.{◌≡◌, ◌-◌, ◌/◌, ◌^◌, ◌≤◌};

/// The reciprocal of a divisor, by which `quotient` divides: `(2^64 - 1) / by`.
#[inline]
pub fn reciprocal(by: u64) -> u64
    requires by { 1 ≤ by }
    ensures value { result ≡ (2 ^ 64 - 1) / by }
{
    u64::MAX / by
}

/// The quotient of a number by a divisor whose reciprocal is known, rounded down. It costs two
/// multiplications: the high word of the number times the reciprocal is the quotient or one less,
/// and what is left over tells which.
#[inline]
pub fn quotient(number: u64, by: u64, reciprocal: u64) -> u64
    requires by { 1 ≤ by }
    requires reciprocal { reciprocal ≡ (2 ^ 64 - 1) / by }
    ensures value { result ≡ number / by }
{
    let (_, least) = number.carrying_mul(reciprocal, 0);
    let rest = number - least * by;
    if rest < by { least } else { least + 1 }
}
