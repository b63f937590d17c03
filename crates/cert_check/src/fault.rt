//! Why runs of a certificate are no runs.
ghost use Rattle.cert_check.specs.declared.fault.RunsFault.TheVariants as runs;
ghost use Rattle.std.specs.Prelude.{◌≡◌};

use std::alloc::AllocFailed;

/// Why runs aren't all replayed: the first that is not a run.
#[derive(Drop)]
pub(crate) enum RunsFault {
    NoRun(usize),
    OutOfMemory,
}

impl<T: Drop> From<AllocFailed<T>> for RunsFault {
    ghost from_gives = { λ _ fault. fault ≡ runs.OutOfMemory };

    fn from(_error: AllocFailed<T>) -> RunsFault {
        RunsFault::OutOfMemory
    }
}
