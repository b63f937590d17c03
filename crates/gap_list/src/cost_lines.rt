//! The cost file of all gaps.

ghost use Rattle.std.specs.Prelude.{◌≡◌, ◌<◌, ◌++◌, IfOk, OnOk, length};
ghost use Rattle.tso_program.specs.Listings.{gap_count};
ghost use Rattle.cost_text.specs.CostTexts.{IsCostText};
ghost use Rattle.gap_list.specs.CostFiles.{as_read, cost_file_text, entry_text, gap_and_blank, places_text};
ghost use Rattle.gap_sets.specs.declared.gap_set.TheConstants.{MAX_GAPS};

use gap_sets::{GapSet, TiedCosts};
use std::alloc::{AllocError, Global};
use tso_program::Program;

/// Adds the place of a gap and a space, if the program has the gap.
fn push_place(
    alloc: Global,
    out: &mut Vec<u8>,
    program: &Program,
    gap: u8,
) -> Result<(), AllocError>
    ensures { OnOk result (out.new.items ≡ out.old.items ++ gap_and_blank program.now.threads gap) }
{
    if let Some((t, k)) = program.gap_place(gap) {
        let place = format!(in alloc; "{t}:{k} ")?;
        out.extend_from_slice(place.as_bytes())?;
    }
    Ok(())
}

/// Adds the places of gaps, with a space after each.
fn push_places(
    alloc: Global,
    out: &mut Vec<u8>,
    program: &Program,
    gaps: &GapSet,
) -> Result<(), AllocError>
    ensures { OnOk result (out.new.items ≡ out.old.items ++ places_text program.now.threads gaps.now) }
{
    for gap in gaps.iter() {
        push_place(alloc, out, program, gap)?;
    }
    Ok(())
}

/// Adds the line of the tie that a gap names, if it names one.
fn push_entry(
    alloc: Global,
    out: &mut Vec<u8>,
    program: &Program,
    costs: &TiedCosts,
    gap: u8,
) -> Result<(), AllocError>
    requires { gap < MAX_GAPS }
    ensures { OnOk result (out.new.items ≡ out.old.items ++ entry_text program.now.threads costs.now gap) }
{
    if costs.ties.name_of(gap) != gap {
        return Ok(());
    }
    if let Some(cost) = costs.costs.cost_of(gap) {
        let tie = costs.ties.spread(&GapSet::empty().with(gap));
        push_places(alloc, out, program, &tie)?;
        let end = format!(in alloc; "{cost}\n")?;
        out.extend_from_slice(end.as_bytes())?;
    }
    Ok(())
}

/// A line for each tie.
fn entries(alloc: Global, program: &Program, costs: &TiedCosts) -> Result<Vec<u8>, AllocError>
    ensures { IfOk result (λ text. text.items ≡ cost_file_text program.now.threads costs.now) }
{
    program.recall_facts();
    let mut out = Vec::new(alloc);
    for gap in 0..program.gaps() {
        push_entry(alloc, &mut out, program, costs, gap)?;
    }
    Ok(out)
}

/// The cost file that gives each gap of a program its cost, a line for each tie.
pub fn cost_file(alloc: Global, program: &Program, costs: &TiedCosts) -> Result<Vec<u8>, AllocError>
    requires { length costs.now.costs ≡ gap_count program.now.threads }
    ensures text { IfOk result (λ text. text.items ≡ cost_file_text program.now.threads costs.now) }
    // It is read as these costs and ties.
    ensures read { IfOk result (λ text. IsCostText text.items program.now.threads (as_read (gap_count program.now.threads) costs.now)) }
{
    program.recall_facts();
    costs.costs.recall_facts();
    costs.ties.recall_facts();
    entries(alloc, program, costs)
}
