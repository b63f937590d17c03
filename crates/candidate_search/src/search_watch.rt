//! How far a search is, reported to people by time. Nothing that a search proposes depends on it.

use program_streams::{Progress, grouped};
use std::alloc::{AllocError, Global};
use std::sync::Arc;
use std::sync::atomic::{AtomicBool, AtomicU64, Ordering};
use std::thread::{self, Threads};

/// So many milliseconds pass between two lines.
const LINE_MILLIS: u64 = 3_500;

/// So many milliseconds pass before it is looked whether the search has ended.
const NAP_MILLIS: u64 = 50;

/// More naps than any search takes.
const MOST_NAPS: u64 = 1 << 44;

/// Who has the numbers of a search while it goes on: the search and the thread that reports them.
const BOTH: usize = 2;

/// Reports how far searches are, a line every few seconds, from a thread of its own. It ends with the watch.
#[derive(Drop)]
pub struct SearchWatch {
    /// None where nothing is reported, or where there is no thread or no memory for it.
    state: Option<Arc<SearchState, Global>>,
}

/// How far a search is.
#[derive(Drop)]
struct SearchState {
    /// How many sets of gaps were asked about. None while outcomes are searched for.
    asked: AtomicU64,
    /// Into how many parts the search is cut. None before it is.
    parts: AtomicU64,
    /// How many parts are done.
    done: AtomicU64,
    /// Whether states are gone through.
    is_walked: AtomicBool,
    /// Whether what was found is judged.
    is_judged: AtomicBool,
}

/// How far the parts of a search are, where it is cut into them.
#[derive(Clone, Copy)]
struct Parts {
    done: u64,
    all: u64,
    /// For how many milliseconds they have been searched.
    millis: u64,
}

impl SearchWatch {
    /// A watch that reports there, from now on.
    pub fn new<R: Threads>(rt: &R, alloc: Global, progress: Progress) -> SearchWatch {
        if !progress.is_shown() {
            return SearchWatch::none();
        }
        let Ok(state) = Arc::new(alloc, SearchState::new()) else {
            return SearchWatch::none();
        };
        let Ok(reported) = Arc::try_clone(&state) else {
            return SearchWatch::none();
        };
        match thread::spawn(rt, move || report_by_time(alloc, progress, &reported)) {
            Ok(_) => SearchWatch { state: Some(state) },
            Err(_) => SearchWatch::none(),
        }
    }

    /// A watch that reports nothing.
    pub fn none() -> SearchWatch {
        SearchWatch { state: None }
    }

    /// Notes that outcomes are searched for.
    pub(crate) fn seek_outcomes(&self) {
        if let Some(state) = &self.state {
            state.asked.store(0, Ordering::SeqCst);
            state.begin();
        }
    }

    /// Notes that one more set of gaps is asked about, and returns about how many it was asked before. `None` where nothing is
    /// reported.
    pub fn ask(&self) -> Option<u64> {
        let state = self.state.as_ref()?;
        state.begin();
        Some(state.asked.fetch_add(1, Ordering::SeqCst))
    }

    /// Notes that the search is cut into so many parts.
    pub(crate) fn cut(&self, parts: usize) {
        if let Some(state) = &self.state {
            state.parts.store(parts as u64, Ordering::SeqCst);
        }
    }

    /// Notes that one more part is done.
    pub(crate) fn finish_part(&self) {
        if let Some(state) = &self.state {
            state.done.fetch_add(1, Ordering::SeqCst);
        }
    }

    /// Notes that the states of the sequential machine are gone through.
    pub fn walk(&self) {
        if let Some(state) = &self.state {
            state.is_walked.store(true, Ordering::SeqCst);
        }
    }

    /// Notes that what is found is judged.
    pub fn judge(&self) {
        if let Some(state) = &self.state {
            state.is_judged.store(true, Ordering::SeqCst);
        }
    }
}

impl SearchState {
    /// Of a search that has found nothing.
    fn new() -> SearchState {
        SearchState {
            asked: AtomicU64::new(0),
            parts: AtomicU64::new(0),
            done: AtomicU64::new(0),
            is_walked: AtomicBool::new(false),
            is_judged: AtomicBool::new(false),
        }
    }

    /// A search begins, in one piece.
    fn begin(&self) {
        self.parts.store(0, Ordering::SeqCst);
        self.done.store(0, Ordering::SeqCst);
    }
}

/// Reports a search every few seconds, until it ends.
fn report_by_time(alloc: Global, progress: Progress, state: &Arc<SearchState, Global>) {
    let mut due = LINE_MILLIS;
    // which question is asked, and since when its parts are searched
    let mut question = 0;
    let mut start = 0;
    for _ in 0..MOST_NAPS {
        progress.wait(NAP_MILLIS);
        if Arc::strong_count(state) < BOTH {
            return;
        }
        let Some(millis) = progress.millis() else {
            return;
        };
        let asked = state.asked.load(Ordering::SeqCst);
        if asked != question || state.parts.load(Ordering::SeqCst) == 0 {
            question = asked;
            start = millis;
        }
        if millis >= due {
            progress.warn(line_of(alloc, state, millis, start));
            due = millis.saturating_add(LINE_MILLIS);
        }
    }
}

/// The line of a search after so many milliseconds, whose parts have been searched since then.
fn line_of(
    alloc: Global,
    state: &SearchState,
    millis: u64,
    start: u64,
) -> Result<Vec<u8>, AllocError> {
    let parts = Parts {
        done: state.done.load(Ordering::SeqCst),
        all: state.parts.load(Ordering::SeqCst),
        millis: millis.saturating_sub(start),
    };
    let far = how_far(alloc, state, parts)?;
    let seconds = grouped(alloc, millis / 1_000)?;
    Ok(format!(in alloc; "fencer: after {seconds} s: {far}\n")?.into_bytes())
}

/// How far a search is, in words.
fn how_far(alloc: Global, state: &SearchState, parts: Parts) -> Result<String, AllocError> {
    let asked = state.asked.load(Ordering::SeqCst);
    if state.is_judged.load(Ordering::SeqCst) {
        format!(in alloc; "what is found is judged")
    } else if state.is_walked.load(Ordering::SeqCst) {
        format!(in alloc; "the states of the sequential machine are gone through")
    } else if asked == 0 {
        outcomes_found(alloc, parts)
    } else {
        sets_asked(alloc, asked, parts)
    }
}

/// How far the search for outcomes is.
fn outcomes_found(alloc: Global, parts: Parts) -> Result<String, AllocError> {
    if parts.all == 0 {
        return format!(in alloc; "outcomes are searched for");
    }
    parts.text(alloc, "the search for outcomes")
}

/// How many sets were asked about, and how far the last question is.
fn sets_asked(alloc: Global, asked: u64, parts: Parts) -> Result<String, AllocError> {
    let asked = grouped(alloc, asked)?;
    if parts.all == 0 {
        return format!(in alloc; "sets asked: {asked}");
    }
    let far = parts.text(alloc, "the last question")?;
    format!(in alloc; "sets asked: {asked}; {far}")
}

impl Parts {
    /// How many of the parts of a search are done, and how long the others may take.
    fn text(self, alloc: Global, search: &str) -> Result<String, AllocError> {
        let left = self.left(alloc)?;
        let done = grouped(alloc, self.done)?;
        let all = grouped(alloc, self.all)?;
        format!(in alloc; "{done} of {all} parts of {search} are done{left}")
    }

    /// About how many seconds are left, if the parts that are left take as long as those that are done; nothing before the first is
    /// done.
    fn left(self, alloc: Global) -> Result<String, AllocError> {
        let Some(each) = self.millis.checked_div(self.done) else {
            return Ok(String::new(alloc));
        };
        let left = self.all.saturating_sub(self.done).saturating_mul(each);
        let seconds = grouped(alloc, left.div_ceil(1_000))?;
        format!(in alloc; ", about {seconds} s left")
    }
}
