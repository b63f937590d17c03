//! Ceilings of a search.
ghost use Rattle.std.specs.Prelude.{◌≡◌, IfOk};
ghost use Rattle.search_core.specs.Ceilings.{IsCeilingOf};

use crate::inquiry::Inquiry;
use crate::refusal::HuntRefusal;
use oracle::Oracle;
use search_core::{Ceiling, SearchTree};
use tso_program::Question;

/// How a ceiling is made.
#[derive(Clone, Copy)]
pub enum Making {
    /// There is none.
    None,
    /// Of a set that serves.
    Of,
    /// Of what such a set costs.
    At,
}

/// What the set of these gaps costs, where it serves.
fn ceiling_of<O: Oracle>(
    inquiry: &Inquiry<'_, O>,
    tree: &SearchTree,
    gaps: &[u8],
) -> Result<Ceiling, HuntRefusal>
    requires may { O.may_be_asked inquiry.now.oracle.now }
    requires of_table { tree.now.question ≡ inquiry.now.table.now.question }
    ensures { IfOk result (IsCeilingOf tree.now.question tree.now.costs) }
{
    let costs = tree.costs();
    if costs.len() != usize::from(inquiry.table.program().gaps()) {
        return Err(HuntRefusal::Call);
    }
    let served = inquiry.served_by(gaps)?;
    let ceiling = Ceiling::of(&served, costs);
    drop(served);
    Ok(ceiling)
}

/// The ceiling of the same cost.
fn at_cost_of(tree: &SearchTree, ceiling: &Ceiling) -> Ceiling
    requires { IsCeilingOf tree.now.question tree.now.costs ceiling.now }
    ensures { IsCeilingOf tree.now.question tree.now.costs result }
{
    let cost = ceiling.cost();
    Ceiling::at(tree.question(), tree.costs(), cost)
}

/// A ceiling that is made in this way, of the set of these gaps where it is of one.
pub fn made<O: Oracle>(
    inquiry: &Inquiry<'_, O>,
    tree: &SearchTree,
    making: Making,
    gaps: &[u8],
) -> Result<Ceiling, HuntRefusal>
    requires may { O.may_be_asked inquiry.now.oracle.now }
    requires of_table { tree.now.question ≡ inquiry.now.table.now.question }
    ensures { IfOk result (IsCeilingOf tree.now.question tree.now.costs) }
{
    match making {
        Making::None => Ok(Ceiling::none()),
        Making::Of => ceiling_of(inquiry, tree, gaps),
        Making::At => Ok(at_cost_of(tree, &ceiling_of(inquiry, tree, gaps)?)),
    }
}
