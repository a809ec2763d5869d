ghost use Rattle.std.specs.Prelude.{◌≡◌};
ghost use Rattle.plank_io.specs.Faults.{is_listed};

/// Whether the call of this number, from 1, is among those that are to fail.
pub(crate) fn is_listed(fails: &[u32], call: u64) -> bool
    ensures { result ≡ is_listed fails.now call }
{
    fails.iter().any(|listed| u64::from(*listed) == call)
}
