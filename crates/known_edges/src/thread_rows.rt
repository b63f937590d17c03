//! Program order between the accesses of one thread, in rows of their indices.
ghost use Rattle.std.specs.Prelude.{◌↔◌, ◌<◌, ◌≤◌, ℕ, length};
ghost use Rattle.bit_rows.specs.Rows.{IsIn};
ghost use Rattle.bit_rows.specs.declared.row.TheConstants.{ROW_BITS};
ghost use Rattle.known_edges.specs.ThreadOrder.{IsLaterIn};

use bit_rows::with;
use candidate_executions::{Access, Kind};
use thread_traces::is_kept_by;

/// The accesses of a thread to which the union has program order from the one with this index.
pub(crate) fn later_than(kind: Kind, accesses: &[Access], i: usize) -> u32
    requires few { length accesses.now ≤ ROW_BITS }
    requires there { i < length accesses.now }
    ensures { (j : ℕ) → IsIn result j ↔ IsLaterIn kind accesses.now i j }
{
    let mut row = 0;
    for j in i + 1..accesses.len() {
        if is_kept_by(kind, accesses[i], accesses[j]) {
            row = with(row, j as u8);
        }
    }
    row
}
