//! The known edges in rows, and what a choice adds to them.
ghost use Rattle.std.specs.Prelude.{◌≡◌, ◌≤◌, [], ◌∷◌, ◌++◌, List, length};
ghost use Rattle.bit_rows.specs.declared.row.TheConstants.{ROW_BITS};
ghost use Rattle.tso_program.specs.declared.listing.Listing.{Listing};
ghost use Rattle.candidate_executions.specs.declared.event.Event.{Event};
ghost use Rattle.program_sketches.specs.Kept.{view_of};
ghost use Rattle.program_sketches.specs.Choices.{MayRead, MayFollow};
ghost use Rattle.known_edges.specs.Rows.{union_rows, IsAlike, AreSourceRows, AreOrderRows, IsRepresented};

use crate::access_rows::{if_far, if_fenced, readers_of, writes_after};
use crate::numbered_traces::Traces;
use bit_rows::{ROW_BITS, Relation, joined, minus, put_rows};
use candidate_executions::{Event, Kind};
use tso_machine::Mode;

/// Between accesses by their numbers: the chosen orders, and the known edges of the mode's unions. The
/// main one is Sequential in sequential mode, which has no other, and else Location.
#[derive(Drop)]
pub struct EdgeRows {
    pub later: [u32; ROW_BITS],
    pub main: Relation,
    pub global: Relation,
}

/// The rows between which a read's source makes edges: the read's, the source's, and that of the writes
/// after the source.
#[derive(Drop)]
pub(crate) struct SourceRows {
    reader: u32,
    written: u32,
    after: u32,
}

/// The rows between which an order of two writes makes edges: the first's, the second's, that of the
/// reads that have the first as their source, and that of these and the first.
#[derive(Drop)]
pub(crate) struct OrderRows {
    before: u32,
    after: u32,
    readers: u32,
    earlier: u32,
}

impl EdgeRows {
    /// A copy of the rows.
    pub fn copy(&self) -> EdgeRows
        ensures { result ≡ self.now }
    {
        EdgeRows {
            later: self.later,
            main: self.main.copy(),
            global: self.global.copy(),
        }
    }

    /// The known edges of a union.
    pub fn of_union(&self, kind: Kind) -> &Relation
        ensures { result.now ≡ union_rows kind self.now.main self.now.global }
    {
        match kind {
            Kind::Sequential | Kind::Location => &self.main,
            Kind::Global => &self.global,
        }
    }

    /// The rows between which a read's source makes edges.
    fn rows_of_source(&self, traces: &Traces, read: Event, source: Event) -> SourceRows
        requires few { length traces.now.events ≤ ROW_BITS }
        requires alike { IsAlike traces.now.events self.now.later }
        ensures { AreSourceRows traces.now.thread_traces traces.now.events self.now.later read source result }
    {
        let reader = traces.row_of(read);
        let written = traces.row_of(source);
        let after = writes_after(traces, &self.later, source, written);
        SourceRows {
            reader,
            written,
            after: minus(after, reader),
        }
    }

    /// The edges of a read's source: from it to the read, and from the read to the writes after it. In the
    /// global union it counts only where it is of another thread.
    pub fn connect_source(&mut self, mode: &Mode, traces: &Traces, read: Event, source: Event)
        requires few { length traces.now.events ≤ ROW_BITS }
        requires alike { IsAlike traces.now.events self.old.later }
        ensures { (p : Listing) (sources pairs : List (Event × Event)) → IsRepresented p mode.now traces.now.thread_traces traces.now.events sources pairs self.old.later self.old.main self.old.global
            → MayRead (view_of p mode.now traces.now.thread_traces sources pairs) read source
            → IsRepresented p mode.now traces.now.thread_traces traces.now.events (sources ++ (read, source) ∷ []) pairs self.new.later self.new.main self.new.global }
    {
        let rows = self.rows_of_source(traces, read, source);
        self.main.connect(rows.written, rows.reader);
        self.main.connect(rows.reader, rows.after);
        let far = if_far(source, read, rows.written);
        self.global.connect(if_fenced(*mode, far), rows.reader);
        self.global
            .connect(if_fenced(*mode, rows.reader), rows.after);
    }

    /// The edges of an order of two writes: from the first, and from the reads that have it as their
    /// source, to the second.
    pub fn connect_order(
        &mut self,
        mode: &Mode,
        traces: &Traces,
        sources: &[(Event, Event)],
        first: Event,
        second: Event,
    )
        requires { length traces.now.events ≤ ROW_BITS }
        ensures { (p : Listing) (pairs : List (Event × Event)) → IsRepresented p mode.now traces.now.thread_traces traces.now.events sources.now pairs self.old.later self.old.main self.old.global
            → MayFollow (view_of p mode.now traces.now.thread_traces sources.now pairs) first second
            → IsRepresented p mode.now traces.now.thread_traces traces.now.events sources.now (pairs ++ (first, second) ∷ []) self.new.later self.new.main self.new.global }
    {
        let rows = rows_of_order(traces, sources, first, second);
        put_rows(&mut self.later, rows.before, rows.after);
        self.main.connect(rows.earlier, rows.after);
        self.global
            .connect(if_fenced(*mode, rows.earlier), rows.after);
    }
}

/// The rows between which an order of two writes makes edges.
fn rows_of_order(
    traces: &Traces,
    sources: &[(Event, Event)],
    first: Event,
    second: Event,
) -> OrderRows
    requires { length traces.now.events ≤ ROW_BITS }
    ensures { AreOrderRows traces.now.events sources.now first second result }
{
    let before = traces.row_of(first);
    let readers = readers_of(sources, traces, first, second);
    OrderRows {
        before,
        after: traces.row_of(second),
        readers,
        earlier: joined(before, readers),
    }
}
