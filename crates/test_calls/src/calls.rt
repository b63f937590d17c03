//! The names of the calls.

use hunt_calls::HuntCall;
use place_calls::{PlaceCall, PlacerCall};
use solver_calls::SolverCall;
use text_calls::{LitmusCall, TextCall};

/// A call, by its name.
#[derive(Clone, Copy)]
pub enum Call {
    Text(TextCall),
    Litmus(LitmusCall),
    Sketch,
    Table(TableCall),
    Exchange,
}

/// A call with the sequential outcomes of a litmus text.
#[derive(Clone, Copy)]
pub enum TableCall {
    Solver(SolverCall),
    Hunt(HuntCall),
    Place(PlaceCall),
}

pub const CALLS: [(&[u8], Call); 38] = [
    (b"tokens", Call::Text(TextCall::Tokens)),
    (b"plain-number", Call::Text(TextCall::PlainNumber)),
    (b"body", Call::Text(TextCall::Body)),
    (b"ending", Call::Text(TextCall::Ending)),
    (b"read", Call::Litmus(LitmusCall::Read)),
    (b"read-fenced", Call::Text(TextCall::ReadFenced)),
    (b"canonical", Call::Litmus(LitmusCall::Canonical)),
    (b"formula", Call::Text(TextCall::Formula)),
    (b"formulas", Call::Text(TextCall::Formulas)),
    (b"condition", Call::Text(TextCall::Condition)),
    (b"sets", Call::Text(TextCall::Sets)),
    (b"costs", Call::Text(TextCall::Costs)),
    (b"program", Call::Text(TextCall::Program)),
    (b"gaps", Call::Litmus(LitmusCall::Gaps)),
    (b"fenced", Call::Litmus(LitmusCall::Fenced)),
    (b"copy", Call::Litmus(LitmusCall::Copy)),
    (b"action", Call::Litmus(LitmusCall::Action)),
    (b"outcomes", Call::Text(TextCall::Outcomes)),
    (b"replay", Call::Litmus(LitmusCall::Replay)),
    (b"run", Call::Text(TextCall::Run)),
    (b"sketch", Call::Sketch),
    (b"certificate", Call::Text(TextCall::Certificate)),
    (b"check", Call::Text(TextCall::Check)),
    (b"exchange", Call::Exchange),
    (
        b"sequential",
        Call::Table(TableCall::Solver(SolverCall::Sequential)),
    ),
    (b"ask", Call::Table(TableCall::Solver(SolverCall::Ask))),
    (
        b"foreign",
        Call::Table(TableCall::Solver(SolverCall::Foreign)),
    ),
    (b"search", Call::Table(TableCall::Hunt(HuntCall::Search))),
    (b"records", Call::Table(TableCall::Hunt(HuntCall::Records))),
    (b"hunt", Call::Table(TableCall::Hunt(HuntCall::Hunt))),
    (
        b"hunt-with",
        Call::Table(TableCall::Place(PlaceCall::HuntWith)),
    ),
    (b"place", Call::Table(TableCall::Place(PlaceCall::Place))),
    (
        b"place-gated",
        Call::Table(TableCall::Place(PlaceCall::Gated(PlacerCall::Place))),
    ),
    (
        b"hunt-gated",
        Call::Table(TableCall::Place(PlaceCall::Gated(PlacerCall::Hunt))),
    ),
    (
        b"place-shared",
        Call::Table(TableCall::Place(PlaceCall::Shared(PlacerCall::Place))),
    ),
    (
        b"hunt-shared",
        Call::Table(TableCall::Place(PlaceCall::Shared(PlacerCall::Hunt))),
    ),
    (
        b"place-lacking",
        Call::Table(TableCall::Place(PlaceCall::Lacking(PlacerCall::Place))),
    ),
    (
        b"hunt-lacking",
        Call::Table(TableCall::Place(PlaceCall::Lacking(PlacerCall::Hunt))),
    ),
];
