//! Placement problems, and what they are read from.
ghost use Rattle.std.specs.Prelude.{◌≡◌, ◌≤◌, IfErr, IfOk, length, option_map};
ghost use Rattle.tso_program.specs.Listings.{gap_count};
ghost use Rattle.litmus_reader.specs.Texts.{IsLitmus};
ghost use Rattle.litmus_text.specs.GivenCosts.{AreGiven};
ghost use Rattle.placed_text.specs.Problems.{IsProblem};
ghost use Rattle.placed_text.specs.TextFaults.{HasNoProblem, HasNoProgram, HasNoCosts};

use crate::TextFault;
use gap_list::TextLines;
use gap_sets::TiedCosts;
use litmus_text::{CostTextFault, Litmus, ReadFault, given_costs, read_litmus};
use std::alloc::Global;
use tso_program::{Program, Shown, ShownKind};

/// A placement problem: a litmus test, what is shown of its outcomes, what each gap of its program costs, which go
/// together, and the lines of its text.
#[derive(Drop)]
pub(crate) struct Problem {
    pub(crate) litmus: Litmus<Program>,
    pub(crate) shown: Shown,
    pub(crate) costs: TiedCosts,
    pub(crate) lines: TextLines,
}

/// What a litmus text stands for.
pub fn read_program(alloc: Global, text: &[u8]) -> Result<Litmus<Program>, TextFault>
    ensures found { IfOk result (IsLitmus text.now) }
    ensures refused { IfErr result (HasNoProgram text.now) }
{
    match read_litmus(alloc, text) {
        Ok(litmus) => Ok(litmus),
        Err(ReadFault::OutOfMemory) => Err(TextFault::OutOfMemory),
        Err(fault) => Err(TextFault::Read(fault)),
    }
}

/// The costs that a text gives a program's gaps, with their ties; 1 each without a text.
pub fn read_gap_costs(
    alloc: Global,
    text: Option<&[u8]>,
    program: &Program,
) -> Result<TiedCosts, TextFault>
    ensures given { IfOk result (AreGiven program.now (option_map (λ text. text.now) text.entry)) }
    ensures refused { IfErr result (HasNoCosts program.now (option_map (λ text. text.now) text.entry)) }
{
    match given_costs(alloc, text, program) {
        Ok(costs) => Ok(costs),
        Err(fault) => match fault {
            CostTextFault::OutOfMemory => Err(TextFault::OutOfMemory),
            _ => Err(TextFault::CostText(fault)),
        },
    }
}

/// The problem of a litmus text, where what is shown is of this kind and the gaps cost what a text of costs says, 1 each
/// without one. The litmus text is judged first.
pub(crate) fn read_problem(
    alloc: Global,
    litmus: &[u8],
    costs: Option<&[u8]>,
    kind: ShownKind,
) -> Result<Problem, TextFault>
    ensures problem { IfOk result (IsProblem litmus.now (option_map (λ text. text.now) costs.entry) kind) }
    ensures one_each { IfOk result (λ problem. length problem.costs.costs ≡ gap_count problem.litmus.program.threads) }
    ensures ties { IfOk result (λ problem. length problem.costs.ties ≤ gap_count problem.litmus.program.threads) }
    ensures fault { IfErr result (HasNoProblem litmus.now (option_map (λ text. text.now) costs.entry)) }
{
    let text = litmus;
    let litmus = read_program(alloc, text)?;
    let costs = read_gap_costs(alloc, costs, &litmus.program)?;
    let shown = litmus.shown_as(kind)?;
    let lines = TextLines::of_text(alloc, text)?;
    Ok(Problem {
        litmus,
        shown,
        costs,
        lines,
    })
}
