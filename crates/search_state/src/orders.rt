//! Orders of two writes that are open.
use event_rows::{EventGraph, each_in, is_in};
use tso_program::MAX_LOCATIONS;

/// An open order of two writes, how many of the two ways close nothing, and how many of the writes have a later one.
#[derive(Clone, Copy)]
pub(crate) struct OpenOrder {
    pub(crate) first: u8,
    pub(crate) second: u8,
    pub(crate) open: u32,
    pub(crate) followed: u32,
}

/// Which orders are looked for.
#[derive(Clone, Copy)]
pub(crate) enum Wanted {
    /// Those of which a cycle closes one way at least.
    Forced,
    /// All. One way also closes where the first write is of this row: the graph then must end as a known outcome.
    All(u32),
}

/// The open order of which the fewest ways close nothing, and of these one whose writes have the fewest later ones.
pub(crate) fn best_order(graph: &EventGraph, wanted: Wanted) -> Option<OpenOrder> {
    let mut best = None;
    for location in 0..MAX_LOCATIONS as u8 {
        best = best_at(graph, wanted, location, best);
        if is_closed(best) {
            return best;
        }
    }
    best
}

/// Whether both ways of an order close.
fn is_closed(order: Option<OpenOrder>) -> bool {
    match order {
        Some(order) => order.open == 0,
        None => false,
    }
}

/// The better of an order and those of the writes to a location.
fn best_at(
    graph: &EventGraph,
    wanted: Wanted,
    location: u8,
    best: Option<OpenOrder>,
) -> Option<OpenOrder> {
    let mut best = best;
    for first in each_in(graph.rows.written(location)) {
        for second in each_in(graph.rows.unordered_with(location, first)) {
            if first < second {
                best = better(wanted_order(graph, wanted, first, second), best);
            }
        }
        if is_closed(best) {
            return best;
        }
    }
    best
}

/// The better of two orders, the second if neither is.
fn better(order: Option<OpenOrder>, best: Option<OpenOrder>) -> Option<OpenOrder> {
    match (order, best) {
        (Some(own), Some(other)) => if (own.open, own.followed) < (other.open, other.followed) {
            order
        } else {
            best
        },
        (Some(_), None) => order,
        (None, _) => best,
    }
}

/// The order of two writes, if it is wanted. A way that closes nothing comes first: where its tree does not rest on the
/// choice, the other is not needed.
fn wanted_order(graph: &EventGraph, wanted: Wanted, first: u8, second: u8) -> Option<OpenOrder> {
    let rows = &graph.rows;
    let mut there = rows.closes_order(first, second);
    let mut back = rows.closes_order(second, first);
    match wanted {
        Wanted::Forced => if !there && !back {
            return None;
        },
        Wanted::All(last) => {
            there = there || is_in(last, first);
            back = back || is_in(last, second);
        }
    }
    let (first, second) = if there {
        (second, first)
    } else {
        (first, second)
    };
    Some(OpenOrder {
        first,
        second,
        open: u32::from(!there) + u32::from(!back),
        followed: u32::from(is_in(rows.followed, first)) + u32::from(is_in(rows.followed, second)),
    })
}
