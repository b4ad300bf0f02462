//! Numbers of calls that are to fail.

ghost use Rattle.std.specs.Prelude.{◌≡◌};
ghost use Rattle.acg_base.specs.Outside.{is_listed as is_listed_in};

/// Whether the number of the call, from 0, stands in the list.
pub fn is_listed(numbers: &[u32], call: u64) -> bool
    ensures { result ≡ is_listed_in numbers.now call }
{
    numbers.iter().any(|number| u64::from(*number) == call)
}
