// The numbers of calls that are to fail.
ghost use Rattle.std.specs.Prelude.{◌≡◌};
ghost use Rattle.jo_io.specs.Counts.{is_listed};

/// Whether the number is among them.
pub(crate) fn is_listed(numbers: &[u32], number: u64) -> bool
    ensures { result ≡ is_listed numbers.now number }
{
    numbers.iter().any(|listed| u64::from(*listed) == number)
}
