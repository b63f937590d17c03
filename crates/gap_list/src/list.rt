//! The list of the gaps.

ghost use Rattle.std.specs.Prelude.{◌≡◌, ◌<◌, ◌++◌, IfOk, OnOk, option_map};
ghost use Rattle.gap_sets.specs.declared.gap_set.TheConstants.{MAX_GAPS};
ghost use Rattle.tso_program.specs.Listings.{instr_at};
ghost use Rattle.gap_list.specs.Lists.{cost_part, gap_line, gap_part, gaps_part, instruction_part, others_of, others_part, IsGapList};

use crate::text_lines::TextLines;
use gap_sets::{GapSet, TiedCosts, Ties};
use litmus_reader::Litmus;
use litmus_text::push_code;
use std::alloc::{AllocError, Global};
use tso_program::{Instr, Program};

/// Instruction k of thread t, if there is one.
fn instr_at(program: &Program, t: u8, k: u8) -> Option<Instr>
    ensures { result ≡ instr_at program.now.threads t k }
{
    match program.threads().get(t as usize) {
        Some(thread) => thread.code.as_slice().get(k as usize).copied(),
        None => None,
    }
}

/// Adds instruction k of thread t, as it is written; nothing if there is none.
pub fn push_instruction(
    out: &mut Vec<u8>,
    litmus: &Litmus<Program>,
    t: u8,
    k: u8,
) -> Result<(), AllocError>
    ensures { OnOk result (out.new.items ≡ out.old.items ++ instruction_part litmus.now t k) }
{
    match instr_at(&litmus.program, t, k) {
        Some(code) => push_code(out, litmus, &GapSet::empty(), t, code),
        None => Ok(()),
    }
}

/// Adds a space and the place of a gap, if the program has the gap.
fn push_gap(alloc: Global, out: &mut Vec<u8>, program: &Program, gap: u8) -> Result<(), AllocError>
    ensures { OnOk result (out.new.items ≡ out.old.items ++ gap_part program.now.threads gap) }
{
    if let Some((t, k)) = program.gap_place(gap) {
        let place = format!(in alloc; " {t}:{k}")?;
        out.extend_from_slice(place.as_bytes())?;
    }
    Ok(())
}

/// Adds the places of gaps, with a space before each.
fn push_gaps(
    alloc: Global,
    out: &mut Vec<u8>,
    program: &Program,
    gaps: &GapSet,
) -> Result<(), AllocError>
    ensures { OnOk result (out.new.items ≡ out.old.items ++ gaps_part program.now.threads gaps.now) }
{
    for gap in gaps.iter() {
        push_gap(alloc, out, program, gap)?;
    }
    Ok(())
}

/// The other gaps of a gap's tie.
fn others_of(ties: &Ties, gap: u8) -> GapSet
    requires { gap < MAX_GAPS }
    ensures { result ≡ others_of ties.now gap }
{
    let name = GapSet::empty().with(ties.name_of(gap));
    ties.spread(&name).without(gap)
}

/// Adds the other gaps of a gap's tie, if it has others.
fn push_others(
    alloc: Global,
    out: &mut Vec<u8>,
    program: &Program,
    ties: &Ties,
    gap: u8,
) -> Result<(), AllocError>
    requires { gap < MAX_GAPS }
    ensures { OnOk result (out.new.items ≡ out.old.items ++ others_part program.now.threads ties.now gap) }
{
    let others = others_of(ties, gap);
    if others.len() == 0 {
        return Ok(());
    }
    out.extend_from_slice(b" with")?;
    push_gaps(alloc, out, program, &others)
}

/// Adds what a gap costs, and the other gaps of its tie, where costs are given.
fn push_cost(
    alloc: Global,
    out: &mut Vec<u8>,
    program: &Program,
    costs: Option<&TiedCosts>,
    gap: u8,
) -> Result<(), AllocError>
    requires { gap < MAX_GAPS }
    ensures { OnOk result (out.new.items ≡ out.old.items ++ cost_part program.now.threads (option_map (λ costs. costs.now) costs.entry) gap) }
{
    let Some(costs) = costs else {
        return Ok(());
    };
    if let Some(cost) = costs.costs.cost_of(gap) {
        let text = format!(in alloc; " cost {cost}")?;
        out.extend_from_slice(text.as_bytes())?;
    }
    push_others(alloc, out, program, &costs.ties, gap)
}

/// Adds the line of a gap.
fn push_gap_line(
    alloc: Global,
    out: &mut Vec<u8>,
    litmus: &Litmus<Program>,
    costs: Option<&TiedCosts>,
    lines: &TextLines,
    gap: u8,
) -> Result<(), AllocError>
    requires { gap < MAX_GAPS }
    ensures { OnOk result (out.new.items ≡ out.old.items ++ gap_line litmus.now (option_map (λ costs. costs.now) costs.entry) lines.now gap) }
{
    if let Some((t, k)) = litmus.program.gap_place(gap) {
        let line = lines.line(t, k as usize);
        let place = format!(in alloc; "{t}:{k} line {line} ")?;
        out.extend_from_slice(place.as_bytes())?;
        push_instruction(out, litmus, t, k)?;
        push_cost(alloc, out, &litmus.program, costs, gap)?;
        out.push(b'\n')?;
    }
    Ok(())
}

/// The gaps of the program of a litmus text, a line a gap: where it lies, in which line of the text the instruction after
/// it stands, this instruction, and where costs are given what the gap costs and which gaps go with it.
pub fn gap_list(
    alloc: Global,
    lines: &TextLines,
    litmus: &Litmus<Program>,
    costs: Option<&TiedCosts>,
) -> Result<Vec<u8>, AllocError>
    ensures { IfOk result (λ list. IsGapList litmus.now (option_map (λ costs. costs.now) costs.entry) list.items) }
{
    litmus.program.recall_facts();
    let mut out = Vec::new(alloc);
    for gap in 0..litmus.program.gaps() {
        push_gap_line(alloc, &mut out, litmus, costs, lines, gap)?;
    }
    Ok(out)
}
