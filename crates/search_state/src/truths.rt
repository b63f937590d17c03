//! What is known of a formula's truth, whatever is chosen further.
use event_rows::{EventGraph, each_in};
use program_sketches::{Knowledge, Left, joined, negated, settled, unsettled};
use std::alloc::{AllocError, Global};
use tso_program::{Atom, Formula, FormulaNode, MAX_LOCATIONS, MAX_THREADS};

/// The truth of a formula at each end of a graph, if it is known.
pub fn known_truth(
    alloc: Global,
    graph: &EventGraph,
    formula: &Formula,
) -> Result<Option<bool>, AllocError> {
    let mut value = settled(false);
    let mut waiting = Vec::new(alloc);
    for node in formula.nodes() {
        value = after_node(graph, *node, value, &mut waiting)?;
    }
    Ok(match (value.is_true, value.is_false) {
        (true, _) => Some(true),
        (false, true) => Some(false),
        (false, false) => None,
    })
}

/// What is known after one node more.
fn after_node(
    graph: &EventGraph,
    node: FormulaNode,
    value: Knowledge,
    waiting: &mut Vec<Left>,
) -> Result<Knowledge, AllocError> {
    match node {
        FormulaNode::Atom(atom) => Ok(known_atom(graph, atom)),
        FormulaNode::Const(constant) => Ok(settled(constant)),
        FormulaNode::Not => Ok(negated(value)),
        FormulaNode::And => {
            waiting.push(Left::OfAnd(value))?;
            Ok(value)
        }
        FormulaNode::Or => {
            waiting.push(Left::OfOr(value))?;
            Ok(value)
        }
        FormulaNode::End => match waiting.pop() {
            Some(left) => Ok(joined(left, value)),
            None => Ok(value),
        },
    }
}

fn known_atom(graph: &EventGraph, atom: Atom) -> Knowledge {
    match atom {
        Atom::Register {
            thread,
            register,
            value,
        } => {
            if thread >= u32::from(graph.thread_count()) {
                return settled(false);
            }
            let state = graph.state((thread as usize % MAX_THREADS) as u8);
            match state.next {
                Some(_) => unsettled(),
                None => settled(state.last.registers[register.index()] == value),
            }
        }
        Atom::Location { location, value } => {
            if location as usize >= graph.program().memory().len() {
                return settled(false);
            }
            known_value(graph, (location as usize % MAX_LOCATIONS) as u8, value)
        }
    }
}

/// What is known of a location's last value: once each read has its value, that of the writes that may be its last.
fn known_value(graph: &EventGraph, location: u8, value: u32) -> Knowledge {
    if !graph.is_whole() {
        return unsettled();
    }
    let written = graph.rows.written(location);
    if written == 0 {
        return settled(graph.initial(location) == value);
    }
    let mut known = Knowledge {
        is_true: true,
        is_false: true,
    };
    for d in each_in(written & !graph.rows.followed) {
        if graph.access(d).written == Some(value) {
            known.is_false = false;
        } else {
            known.is_true = false;
        }
    }
    known
}
