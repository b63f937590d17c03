//! Where it is reported how far a search is.

use crate::streams::write_bytes;
use std::alloc::AllocError;
use std::io::{IsTerminal, Stderr};
use std::thread;
use std::time::{Duration, Instant};

/// From so many milliseconds on a search is long.
const LONG_MILLIS: u64 = 1_000;

/// Which searches are reported on.
#[derive(Clone, Copy)]
enum Reported {
    Nothing,
    LongSearches,
    EachSearch,
}

/// The system's clock, with a time that it has read.
#[derive(Clone, Copy)]
struct Timer {
    clock: HostRuntime,
    start: Instant,
}

/// Where it is reported how far a search is: on standard error, or nowhere. No answer depends on it.
#[derive(Clone, Copy)]
pub struct Progress {
    messages: Option<Stderr>,
    reported: Reported,
    /// Since when time is counted.
    timer: Option<Timer>,
}

impl Progress {
    /// Nowhere.
    pub fn none() -> Progress {
        Progress {
            messages: None,
            reported: Reported::Nothing,
            timer: None,
        }
    }

    /// On standard error, for long searches, where that is a terminal. Time is counted from here on.
    pub fn on(messages: Stderr, clock: HostRuntime) -> Progress {
        let reported = if messages.is_terminal() {
            Reported::LongSearches
        } else {
            Reported::Nothing
        };
        let timer = match Instant::now(&clock) {
            Ok(start) => Some(Timer { clock, start }),
            Err(_) => None,
        };
        Progress {
            messages: Some(messages),
            reported,
            timer,
        }
    }

    /// In this place, and for each search where that is asked for.
    pub fn asked(self, asked: bool) -> Progress {
        let mut progress = self;
        if asked {
            progress.reported = Reported::EachSearch;
        }
        progress
    }

    /// Whether anything is reported.
    pub fn is_shown(self) -> bool {
        self.messages.is_some() && self.reported != Reported::Nothing
    }

    /// How many milliseconds have passed, where the clock can be read.
    pub fn millis(self) -> Option<u64> {
        let Timer { clock, start } = self.timer?;
        match start.elapsed(&clock) {
            Ok(time) => u64::try_from(time.as_millis()).ok(),
            Err(_) => None,
        }
    }

    /// Waits for so many milliseconds, where there is a clock.
    pub fn wait(self, millis: u64) {
        if let Some(Timer { clock, .. }) = self.timer {
            thread::sleep(&clock, Duration::from_millis(millis));
        }
    }

    /// Writes a line of a search: where long ones alone are reported on, once a second has passed.
    pub fn report(self, line: Result<Vec<u8>, AllocError>) {
        let is_early = match self.reported {
            Reported::LongSearches => self.millis().unwrap_or(0) < LONG_MILLIS,
            Reported::Nothing | Reported::EachSearch => false,
        };
        if !is_early {
            self.warn(line);
        }
    }

    /// Writes a line at once, where anything is reported, and ignores where that fails. A line that could not be made is
    /// left out.
    pub fn warn(self, line: Result<Vec<u8>, AllocError>) {
        if !self.is_shown() {
            return;
        }
        if let Ok(line) = line {
            if let Some(messages) = self.messages {
                let mut messages = messages;
                let _ = write_bytes(&mut messages, &line);
            }
        }
    }
}
