//! Calls that are to fail.

ghost use Rattle.std.specs.Prelude.{◌≡◌};
ghost use Rattle.cha_outside.specs.Faults.{is_to_fail};

/// Whether the number of a call is among those of the calls that are to fail.
pub(crate) fn is_among(fails: &[u32], number: u64) -> bool
    ensures { result ≡ is_to_fail fails.now number }
{
    fails.iter().any(|call| u64::from(*call) == number)
}
