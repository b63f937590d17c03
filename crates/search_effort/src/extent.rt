//! What decides how long a search takes, and from where on it may take minutes.
ghost use Rattle.std.specs.Prelude.{◌≡◌};
ghost use Rattle.search_effort.specs.Extents.{has_many_accesses, may_take_minutes};

use program_streams::Progress;
use std::alloc::{AllocError, Global};
use tso_program::{Instr, Program, Thread};

/// Random programs of fewer threads took at most 19 s (`docs/performance.md`, *How large may mine be?*).
const MANY_THREADS: usize = 4;

/// From so many accesses on a program with many exchanges may take minutes, and one with fewer from one access more on.
const MANY_ACCESSES: usize = 28;

/// A program of 29 accesses, six of them exchanges, had no answer after 70 s. Random programs without an exchange took at
/// most 7 s.
const MANY_EXCHANGES: usize = 4;

/// What decides how long a search takes.
#[derive(Clone, Copy)]
struct Extent {
    threads: usize,
    /// An exchange is one.
    accesses: usize,
    exchanges: usize,
}

impl Extent {
    /// The extent of a program.
    fn of(program: &Program) -> Extent {
        let threads = program.threads();
        let mut extent = Extent {
            threads: threads.len(),
            accesses: 0,
            exchanges: 0,
        };
        for thread in threads {
            extent.add(thread);
        }
        extent
    }

    /// Adds the accesses of one more thread.
    fn add(&mut self, thread: &Thread) {
        let code = thread.code.as_slice();
        let accesses = code.iter().filter(|x| x.location().is_some()).count();
        let exchanges = code.iter().filter(|x| matches!(x, Instr::Xchg(..))).count();
        self.accesses = self.accesses.saturating_add(accesses);
        self.exchanges = self.exchanges.saturating_add(exchanges);
    }

    /// Whether a search may take minutes.
    fn may_take_minutes(self) -> bool
        ensures { result ≡ may_take_minutes self }
    {
        self.threads >= MANY_THREADS && self.has_many_accesses()
    }

    /// Whether there are many accesses for so many exchanges.
    fn has_many_accesses(self) -> bool
        ensures { result ≡ has_many_accesses self }
    {
        if self.exchanges >= MANY_EXCHANGES {
            self.accesses >= MANY_ACCESSES
        } else {
            self.exchanges >= 1 && self.accesses > MANY_ACCESSES
        }
    }
}

/// Warns where a search may take minutes.
pub fn warn_of_minutes(alloc: Global, program: &Program, progress: Progress) {
    let extent = Extent::of(program);
    if extent.may_take_minutes() {
        progress.warn(minutes_line(alloc, extent));
    }
}

fn minutes_line(alloc: Global, extent: Extent) -> Result<Vec<u8>, AllocError> {
    let Extent {
        threads,
        accesses,
        exchanges,
    } = extent;
    let line = format!(in alloc;
        "fencer: {threads} threads, {accesses} accesses, {exchanges} exchanges: this may take minutes, and more than 1 GiB (docs/performance.md)\n"
    )?;
    Ok(line.into_bytes())
}
