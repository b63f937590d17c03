//! Why a search for a cover tree ends without one.
ghost use Rattle.std.specs.Prelude.{◌≡◌};
ghost use Rattle.cover_search.specs.declared.stop.SearchStop.TheVariants as stop;

use run_maker::MadeRun;
use std::alloc::{AllocError, AllocFailed};

/// Why a search for a cover tree ends without one.
#[derive(Drop)]
pub enum SearchStop {
    /// This run has an outcome that is not in the list.
    New(MadeRun),
    OutOfMemory,
}

impl From<AllocError> for SearchStop {
    ghost from_gives = { λ _ why. why ≡ stop.OutOfMemory };

    fn from(_error: AllocError) -> SearchStop {
        SearchStop::OutOfMemory
    }
}

impl<T: Drop> From<AllocFailed<T>> for SearchStop {
    ghost from_gives = { λ _ why. why ≡ stop.OutOfMemory };

    fn from(_error: AllocFailed<T>) -> SearchStop {
        SearchStop::OutOfMemory
    }
}
