//! Gap trees, read from words.

ghost use Rattle.std.specs.Prelude.{[], IfOk, IfErr};
ghost use Rattle.cert_trees.specs.GapNodes.{spell_gap};
ghost use Rattle.cert_trees.specs.declared.rule.Rule.TheVariants.{Early};
ghost use Rattle.cert_forest.specs.Internal.Pushing.{PushesTree, PushesTrees, run_nodes};
ghost use Rattle.text_tokens.specs.Steps.{Fails, Gives, GivesUnless};
ghost use Rattle.cert_words.specs.Words.{repeat_at, stops_for_memory};
ghost use Rattle.cert_forest.specs.Internal.Reading.{split_at, run_number_at, bound_at, gap_at, gap_line_at};

use crate::cover_tree::too_deep;
use cert_trees::{GapNode, GapTree, MAX_GAP_DEPTH, Rule};
use cert_words::{Stop, WordRefusal, Wrong, count, end, letter, name, number, refused_word};
use std::alloc::Global;

/// The run of a split, and how many children it has.
#[tactic(auto, unfolding(crate::specs::Internal::Reading::split_at))]
fn split(bytes: &[u8]) -> Result<(u64, u32, &[u8]), WordRefusal>
    ensures { Gives (λ x. ((x.0, x.1), x.2.now)) result (split_at bytes.now) }
{
    let (run, rest) = number(u64::MAX, bytes)?;
    let (count, rest) = count(rest)?;
    Ok((run, count as u32, rest))
}

/// So many runs of a bound, whose nodes are put after the others.
fn bound_runs<'t>(count: u64, bytes: &'t [u8], nodes: &mut Vec<GapNode>) -> Result<&'t [u8], Stop>
    ensures pushes { IfOk result (λ rest. PushesTrees run_nodes nodes.old.items nodes.new.items (repeat_at run_number_at count [] bytes.now) rest.now) }
    ensures stops { IfErr result (λ stop. Fails stops_for_memory stop (repeat_at run_number_at count [] bytes.now)) }
{
    let mut rest = bytes;
    for _ in 0..count {
        let (run, after) = number(u64::MAX, rest)?;
        nodes.push(GapNode::By { run })?;
        rest = after;
    }
    Ok(rest)
}

/// A bound that says which runs it rests on, put after the other nodes.
fn bound_by_runs<'t>(bytes: &'t [u8], nodes: &mut Vec<GapNode>) -> Result<&'t [u8], Stop>
    ensures pushes { IfOk result (λ rest. PushesTree spell_gap nodes.old.items nodes.new.items (bound_at Early bytes.now) rest.now) }
    ensures stops { IfErr result (λ stop. Fails stops_for_memory stop (bound_at Early bytes.now)) }
{
    let (count, rest) = count(bytes)?;
    let rest = bound_runs(count, rest, nodes)?;
    nodes.push(GapNode::Bound)?;
    Ok(rest)
}

/// What follows a bound's letter, put after the other nodes.
fn bound<'t>(rule: Rule, bytes: &'t [u8], nodes: &mut Vec<GapNode>) -> Result<&'t [u8], Stop>
    ensures pushes { IfOk result (λ rest. PushesTree spell_gap nodes.old.items nodes.new.items (bound_at rule bytes.now) rest.now) }
    ensures stops { IfErr result (λ stop. Fails stops_for_memory stop (bound_at rule bytes.now)) }
{
    match rule {
        Rule::Whole => {
            nodes.push(GapNode::Bound)?;
            Ok(bytes)
        }
        Rule::Early => bound_by_runs(bytes, nodes),
    }
}

/// A tree of at most this depth, whose nodes are put after the others. It recurses so deep and no deeper.
#[cycle(gap)]
fn gap<'t>(
    rule: Rule,
    depth: u16,
    bytes: &'t [u8],
    nodes: &mut Vec<GapNode>,
) -> Result<&'t [u8], Stop>
    ensures pushes { IfOk result (λ rest. PushesTree spell_gap nodes.old.items nodes.new.items (gap_at rule depth bytes.now) rest.now) }
    ensures stops { IfErr result (λ stop. Fails stops_for_memory stop (gap_at rule depth bytes.now)) }
{
    if depth == 0 {
        return Err(Stop::Refused(too_deep(bytes)));
    }
    let (letter, rest) = letter(bytes)?;
    if letter == b'P' {
        let (run, count, rest) = split(rest)?;
        nodes.push(GapNode::Split { count, run })?;
        gaps(rule, depth - 1, count, rest, nodes)
    } else if letter == b'B' {
        bound(rule, rest, nodes)
    } else {
        Err(Stop::Refused(refused_word(Wrong::Token, bytes)))
    }
}

/// So many trees of at most this depth.
#[cycle(gap)]
fn gaps<'t>(
    rule: Rule,
    depth: u16,
    count: u32,
    bytes: &'t [u8],
    nodes: &mut Vec<GapNode>,
) -> Result<&'t [u8], Stop>
    ensures pushes { IfOk result (λ rest. PushesTrees spell_gap nodes.old.items nodes.new.items (repeat_at (gap_at rule depth) count [] bytes.now) rest.now) }
    ensures stops { IfErr result (λ stop. Fails stops_for_memory stop (repeat_at (gap_at rule depth) count [] bytes.now)) }
{
    let mut rest = bytes;
    for _ in 0..count {
        rest = gap(rule, depth, rest, nodes)?;
    }
    Ok(rest)
}

/// The line of the gap tree.
#[tactic(auto, unfolding(crate::specs::Internal::Reading::gap_line_at))]
pub(crate) fn gap_line(alloc: Global, rule: Rule, bytes: &[u8]) -> Result<(GapTree, &[u8]), Stop>
    ensures { GivesUnless stops_for_memory (λ x. (x.0, x.1.now)) result (gap_line_at rule bytes.now) }
{
    let rest = name(b"gaps", bytes)?;
    let mut nodes = Vec::new(alloc);
    let rest = gap(rule, MAX_GAP_DEPTH, rest, &mut nodes)?;
    let rest = end(rest)?;
    Ok((GapTree::of_nodes(alloc, nodes)?, rest))
}
