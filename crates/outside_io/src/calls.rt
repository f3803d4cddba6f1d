ghost use Rattle.std.specs.Prelude.{◌≡◌};
ghost use Rattle.outside_io.specs.Memory.{is_due};

use wsrep_base::CallList;

/// Whether the call after the first `made` calls is to fail. The list has no number of 2^64 and
/// above, so no later call is.
pub(crate) fn is_due(made: u64, fails: &CallList) -> bool
    ensures { result ≡ is_due made fails.now }
{
    made < u64::MAX && fails.as_slice().contains(&(made + 1))
}
