//! What is known before anything but values is chosen.
ghost use Rattle.std.specs.Prelude.{◌≡◌, IfOk};
ghost use Rattle.std.specs.Arc.{arc_value};
ghost use Rattle.candidate_executions.specs.declared.event.Event.{Event};
ghost use Rattle.candidate_executions.specs.declared.event.Kind.TheVariants as union;
ghost use Rattle.tso_machine.specs.declared.mode.Mode.TheVariants.{Sequential};
ghost use Rattle.known_edges.specs.Rows.{main_kind, AreOfSketch, AreRowsOf, InOrder, HasOrder};

use crate::numbered_traces::Traces;
use bit_rows::Relation;
use candidate_executions::Kind;
use std::alloc::{AllocError, Global};
use std::sync::Arc;
use thread_traces::SharedTrace;
use tso_machine::Mode;

/// The traces, and the program order of the mode's unions between the accesses that have numbers.
#[derive(Drop)]
pub struct Ordered {
    pub traces: Arc<Traces>,
    pub main: Relation,
    pub global: Relation,
}

/// What is known of these traces.
pub fn in_order(
    alloc: Global,
    mode: Mode,
    thread_traces: Vec<SharedTrace>,
) -> Result<Ordered, AllocError>
    requires { AreOfSketch thread_traces.items }
    ensures thread_traces { IfOk result (λ ordered. (arc_value ordered.traces).thread_traces ≡ thread_traces.items) }
    ensures order { IfOk result (λ ordered. HasOrder mode thread_traces.items (arc_value ordered.traces).events ordered.main ordered.global) }
{
    let traces = Traces::new(alloc, thread_traces)?;
    let main = traces.order_rows(main_union(mode));
    let global = global_rows(mode, &traces);
    Ok(Ordered {
        traces: Arc::new(alloc, traces)?,
        main,
        global,
    })
}

/// The union that a mode has beside the global one, or alone.
fn main_union(mode: Mode) -> Kind
    ensures { result ≡ main_kind mode }
{
    match mode {
        Mode::Sequential => Kind::Sequential,
        Mode::Fenced(_) => Kind::Location,
    }
}

/// The program order of the global union, which sequential mode has not.
fn global_rows(mode: Mode, traces: &Traces) -> Relation
    requires { (d e f : Event) → InOrder traces.now.thread_traces union.Global d e → InOrder traces.now.thread_traces union.Global e f → InOrder traces.now.thread_traces union.Global d f }
    ensures { AreRowsOf traces.now.events (λ d e. (mode ≡ Sequential → ⊥) × InOrder traces.now.thread_traces union.Global d e) result }
{
    match mode {
        Mode::Sequential => Relation::empty(),
        Mode::Fenced(_) => traces.order_rows(Kind::Global),
    }
}
