//! When a worker asks.
//!
//! Best first needs no question about a set for which a better one is the answer. So a worker begins no question
//! while another asks about a cheaper set, which may be the answer, and none once another has confirmed a set that
//! is no worse. Which questions are asked is a preference, and no clause rests on it.
use gap_sets::{Costs, GapSet};
use std::alloc::{AllocError, Global};
use std::sync::{Condvar, Mutex, MutexGuard, Wait};

/// What the workers ask about, and what they have found.
#[derive(Drop)]
struct Asking {
    /// By seat, what the set costs that is asked about.
    costs: Vec<Option<u64>>,
    /// The best set that a worker has confirmed.
    confirmed: Option<GapSet>,
}

impl Asking {
    /// Whether a cheaper set is asked about.
    fn has_cheaper(&self, cost: u64) -> bool {
        for other in &self.costs {
            if other.is_some_and(|other| other < cost) {
                return true;
            }
        }
        false
    }

    /// Whether a set is confirmed that this one isn't better than.
    fn beats(&self, costs: &Costs, set: &GapSet) -> bool {
        match &self.confirmed {
            Some(confirmed) => !costs.better(set, confirmed),
            None => false,
        }
    }

    /// The set is confirmed.
    fn confirm(&mut self, costs: &Costs, set: GapSet) {
        if !self.beats(costs, &set) {
            self.confirmed = Some(set);
        }
    }

    /// What the seat asks about costs so much, or it asks nothing.
    fn note(&mut self, seat: u8, cost: Option<u64>) {
        if let Some(noted) = self.costs.get_mut(usize::from(seat)) {
            *noted = cost;
        }
    }
}

/// When a seat may ask.
#[derive(Clone, Copy)]
pub(crate) enum Turn {
    Now,
    /// A cheaper set was asked about, so a better node may be open now.
    Later,
    /// Another worker has confirmed a set that this one isn't better than.
    Never,
}

/// The questions of all workers.
#[derive(Drop)]
pub(crate) struct Turns {
    asking: Mutex<Asking>,
    ended: Condvar,
}

impl Turns {
    /// No question is asked yet.
    pub(crate) fn new(alloc: Global, seats: u8) -> Result<Turns, AllocError> {
        let mut none = Vec::new(alloc);
        for _ in 0..seats {
            none.push(None)?;
        }
        Ok(Turns {
            asking: Mutex::new(Asking {
                costs: none,
                confirmed: None,
            }),
            ended: Condvar::new(),
        })
    }

    /// When the seat may ask about a set. It waits where another worker asks about a cheaper one.
    pub(crate) fn begin<W: Wait>(&self, wait: &W, costs: &Costs, seat: u8, set: &GapSet) -> Turn {
        let cost = costs.total(set);
        let mut asking = self.asking.lock(wait);
        if asking.beats(costs, set) {
            return Turn::Never;
        }
        if asking.has_cheaper(cost) {
            self.wait_for_cheaper(wait, costs, set, asking);
            return Turn::Later;
        }
        asking.note(seat, Some(cost));
        Turn::Now
    }

    /// Waits until no cheaper set is asked about, or one is confirmed that this one isn't better than.
    fn wait_for_cheaper<W: Wait>(
        &self,
        wait: &W,
        costs: &Costs,
        set: &GapSet,
        asking: MutexGuard<'_, Asking>,
    ) {
        let cost = costs.total(set);
        let _ = self.ended.wait_while(wait, asking, |asking| {
            asking.has_cheaper(cost) && !asking.beats(costs, set)
        });
    }

    /// The seat's node is settled by its question, or given back; this is the best set that its worker has confirmed.
    pub(crate) fn end<W: Wait>(&self, wait: &W, costs: &Costs, seat: u8, best: Option<GapSet>) {
        let mut asking = self.asking.lock(wait);
        asking.note(seat, None);
        if let Some(best) = best {
            asking.confirm(costs, best);
        }
        self.ended.notify_all();
    }
}
