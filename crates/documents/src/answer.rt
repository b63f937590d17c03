//! The answer of a placement.
ghost use Rattle.std.specs.Prelude.{◌≡◌, ◌++◌, ◌<◌, ◌≤◌, IfOk, OnOk, length};
ghost use Rattle.gap_sets.specs.Order.{total};
ghost use Rattle.documents.specs.Parts.{gap_line, gap_value, costs_array, is_observed, condition_members, set_members, compared, answer_value, ties_array, tie_members, answer_members};

use crate::lined::LinedLitmus;
use gap_list::TextLines;
use gap_sets::{GapSet, TiedCosts, Ties};
use json_text::{JsonArray, JsonObject, JsonText};
use json_values::{gap_name, gap_names};
use std::alloc::{AllocError, Global};
use tso_program::{Program, Shown};

/// The line of the text in which the instruction after a gap stands.
fn gap_line(lines: &TextLines, program: &Program, gap: u8) -> u32
    ensures { result ≡ gap_line lines.now program.now.threads gap }
{
    match program.gap_place(gap) {
        Some((thread, k)) => lines.line(thread, k as usize),
        None => 0,
    }
}

/// A gap with what it costs, and its line.
fn gap_value(
    alloc: Global,
    program: &Program,
    lines: &TextLines,
    gap: u8,
    cost: u32,
) -> Result<JsonText, AllocError>
    ensures { IfOk result (λ json. json ≡ gap_value program.now.threads lines.now gap cost) }
{
    let line = gap_line(lines, program, gap);
    let mut object = JsonObject::new(alloc);
    object.add("gap", gap_name(alloc, program, gap)?)?;
    object.add("cost", JsonText::number(alloc, u64::from(cost))?)?;
    object.add("line", JsonText::number(alloc, u64::from(line))?)?;
    object.into_json()
}

/// Each gap with what it costs, ascending.
pub(crate) fn costs_array(
    alloc: Global,
    program: &Program,
    lines: &TextLines,
    costs: &[u32],
) -> Result<JsonText, AllocError>
    requires { length costs.now ≤ 255 }
    ensures { IfOk result (λ json. json ≡ costs_array program.now.threads lines.now costs.now) }
{
    let mut array = JsonArray::new(alloc);
    for (gap, cost) in costs.iter().enumerate() {
        array.add(gap_value(alloc, program, lines, gap as u8, *cost)?)?;
    }
    array.into_json()
}

/// Whether values that are named tell outcomes apart.
pub(crate) fn is_observed(shown: &Shown) -> bool
    ensures { result ≡ is_observed shown.now }
{
    match shown {
        Shown::All => false,
        Shown::Only(_) => true,
        Shown::Truth(_) => false,
    }
}

/// Adds that the truth of the condition's formula tells outcomes apart, where it does.
fn add_condition(alloc: Global, object: &mut JsonObject, shown: &Shown) -> Result<(), AllocError>
    ensures { OnOk result (object.new ≡ object.old ++ condition_members shown.now) }
{
    match shown {
        Shown::All | Shown::Only(_) => Ok(()),
        Shown::Truth(_) => object.add("condition", JsonText::truth(alloc, true)?),
    }
}

/// Adds the set that is the answer, what it costs, and what tells outcomes apart.
fn add_set(
    alloc: Global,
    object: &mut JsonObject,
    program: &Program,
    shown: &Shown,
    costs: &TiedCosts,
    set: &GapSet,
) -> Result<(), AllocError>
    ensures { OnOk result (object.new ≡ object.old ++ set_members program.now shown.now costs.now set.now) }
{
    object.add("set", gap_names(alloc, program, set)?)?;
    object.add("cost", JsonText::number(alloc, costs.total(set))?)?;
    object.add("observed", JsonText::truth(alloc, is_observed(shown))?)?;
    add_condition(alloc, object, shown)
}

/// What tells outcomes apart, in one word.
fn compared(shown: &Shown) -> &'static str
    ensures { result.now ≡ compared shown.now }
{
    match shown {
        Shown::All => "all",
        Shown::Only(_) => "observed",
        Shown::Truth(_) => "condition",
    }
}

/// The set that is the answer, what it costs, and what is compared.
pub(crate) fn answer_value(
    alloc: Global,
    program: &Program,
    shown: &Shown,
    costs: &TiedCosts,
    set: &GapSet,
) -> Result<JsonText, AllocError>
    ensures { IfOk result (λ json. json ≡ answer_value program.now shown.now costs.now set.now) }
{
    let mut object = JsonObject::new(alloc);
    add_set(alloc, &mut object, program, shown, costs, set)?;
    let word = JsonText::string(alloc, compared(shown).as_bytes())?;
    object.add("compares", word)?;
    object.into_json()
}

/// The gaps that go together, for each tie of several gaps.
fn ties_array(alloc: Global, program: &Program, ties: &Ties) -> Result<JsonText, AllocError>
    ensures { IfOk result (λ json. json ≡ ties_array program.now.threads ties.now) }
{
    let mut array = JsonArray::new(alloc);
    for name in 0..program.gaps() {
        let tie = ties.spread(&GapSet::empty().with(name));
        if tie.len() > 1 {
            array.add(gap_names(alloc, program, &tie)?)?;
        }
    }
    array.into_json()
}

/// Adds which gaps go together, where some do.
pub(crate) fn add_ties(
    alloc: Global,
    object: &mut JsonObject,
    program: &Program,
    ties: &Ties,
) -> Result<(), AllocError>
    ensures { OnOk result (object.new ≡ object.old ++ tie_members program.now.threads ties.now) }
{
    if ties.is_single() {
        return Ok(());
    }
    object.add("ties", ties_array(alloc, program, ties)?)
}

/// Adds the gaps with their costs, the answer, and which gaps go together.
pub(crate) fn add_answer(
    alloc: Global,
    object: &mut JsonObject,
    source: &LinedLitmus<'_>,
    shown: &Shown,
    costs: &TiedCosts,
    set: &GapSet,
) -> Result<(), AllocError>
    ensures { OnOk result (object.new ≡ object.old ++ answer_members source.now.litmus.now.program source.now.lines.now shown.now costs.now set.now) }
{
    let program = &source.litmus.program;
    let gaps = costs_array(alloc, program, source.lines, costs.costs.as_slice())?;
    object.add("gaps", gaps)?;
    object.add("answer", answer_value(alloc, program, shown, costs, set)?)?;
    add_ties(alloc, object, program, &costs.ties)
}
