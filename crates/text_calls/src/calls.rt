//! The calls.

/// A call with a text of its own, or with none.
#[derive(Clone, Copy)]
pub enum TextCall {
    Tokens,
    PlainNumber,
    Body,
    Ending,
    ReadFenced,
    Formula,
    Formulas,
    Condition,
    Sets,
    Costs,
    Program,
    Outcomes,
    Run,
    Certificate,
    Check,
}

/// A call with the test of a litmus text.
#[derive(Clone, Copy)]
pub enum LitmusCall {
    Read,
    Canonical,
    Gaps,
    Fenced,
    Copy,
    Action,
    Replay,
}
