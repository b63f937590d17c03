//! What a call does to the tree under the lock.
ghost use Rattle.std.specs.Prelude.{◌≡◌, ◌↔◌, ◌⊎◌, IsTrue, OnOk, OnErr};
ghost use Rattle.search_core.specs.Ceilings.{IsAboveCeiling, IsCeilingOf};
ghost use Rattle.search_core.specs.Events.{Cuts, IsBeaten};
ghost use Rattle.search_core.specs.States.{HasInHand, HasNoOpen, IsDone};
ghost use Rattle.hunt_board.specs.Settlings.{IsByRun};
ghost use Rattle.hunt_board.specs.Internal.Events.{IsLawfulThere, IsEventOfSettling};

use crate::Settling;
use gap_sets::Region;
use search_core::{Ceiling, Reason, SearchTree, Verdict};
use std::alloc::AllocError;

/// Whether no node is open, and some is held.
pub(crate) fn is_waiting(tree: &SearchTree) -> bool
    ensures { IsTrue result ↔ (HasNoOpen tree.now × (¬ IsDone tree.now)) }
{
    tree.has_no_open() && !tree.is_done()
}

/// The node that the seat has in hand is settled: a lawful settling is its event.
pub(crate) fn settle_node(
    tree: &mut SearchTree,
    seat: u8,
    node: &Region,
    how: Settling,
) -> Result<(), AllocError>
    requires in_hand { HasInHand tree.old seat node.now }
    requires lawful { IsLawfulThere tree.old.question tree.old.costs node.now how }
    ensures event { OnOk result (IsEventOfSettling tree.old tree.new seat node.now how) }
    ensures unchanged { OnErr result (tree.new ≡ tree.old) }
    ensures memory { OnErr result (IsByRun how) }
{
    match how {
        Settling::Asked(Verdict::Foreign(run)) => tree.split_held(seat, &run),
        Settling::Asked(Verdict::Serves(served)) => {
            tree.confirm_held(seat, served);
            Ok(())
        }
        Settling::Cut(ceiling) => {
            cut_node(tree, seat, node, ceiling);
            Ok(())
        }
        Settling::Best => {
            cut_by_best(tree, seat, node);
            Ok(())
        }
    }
}

/// The node that the seat has in hand is cut, where what its sets must have costs more than the ceiling.
fn cut_node(tree: &mut SearchTree, seat: u8, node: &Region, ceiling: Ceiling)
    requires in_hand { HasInHand tree.old seat node.now }
    requires of_search { IsCeilingOf tree.old.question tree.old.costs ceiling }
    requires too_dear { IsAboveCeiling tree.old.costs node.now.must ceiling }
    ensures { Cuts tree.old tree.new seat }
{
    match tree.cut(seat, Reason::Ceiling(ceiling)) {
        Ok(()) => {}
        Err(_) => unreachable!(),
    }
}

/// The node that the seat has in hand is cut, where there is a best set that what its sets must have isn't
/// better than.
fn cut_by_best(tree: &mut SearchTree, seat: u8, node: &Region)
    requires { HasInHand tree.old seat node.now }
    ensures { Cuts tree.old tree.new seat ⊎ ((¬ IsBeaten tree.old node.now) × (tree.new ≡ tree.old)) }
{
    let _ = tree.cut(seat, Reason::Best);
}
