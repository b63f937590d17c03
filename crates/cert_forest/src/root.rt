//! Roots of cover trees: what a node says before its children come.

ghost use Rattle.std.specs.Prelude.{◌≡◌, ◌≤◌, [], IfOk, IfErr, IfSome};
ghost use Rattle.text_tokens.specs.Steps.{Fails, Gives};
ghost use Rattle.cert_words.specs.Words.{repeat_at, stops_for_memory};
ghost use Rattle.cert_forest.specs.Internal.Pushing.{PushesCycle, PushesRoot};
ghost use Rattle.cert_forest.specs.Internal.Reading.{ValueHead, SourceHead, OrderHead, access_at, kind_of, kind_at, three_at, value_head_at, source_head_at, order_head_at, cycle_at, known_at, head_at};

use crate::access::access;
use cert_trees::{AccessId, Kind, Node, push_known};
use cert_words::{
    Stop, WordRefusal, Wrong, count, digit_within, ends_word, letter, number, refused_word,
};

fn kind_of(letter: u8) -> Option<Kind>
    ensures { result ≡ kind_of letter }
{
    if letter == b's' {
        Some(Kind::Sequential)
    } else if letter == b'l' {
        Some(Kind::Location)
    } else if letter == b'g' {
        Some(Kind::Global)
    } else {
        None
    }
}

#[tactic(auto, unfolding(crate::specs::Internal::Reading::kind_at))]
fn kind(bytes: &[u8]) -> Result<(Kind, &[u8]), WordRefusal>
    ensures { Gives (λ x. (x.0, x.1.now)) result (kind_at bytes.now) }
{
    let (letter, rest) = letter(bytes)?;
    match kind_of(letter) {
        Some(kind) => Ok((kind, rest)),
        None => Err(refused_word(Wrong::Token, bytes)),
    }
}

/// A thread, and the number of its next read's values.
#[tactic(auto, unfolding(crate::specs::Internal::Reading::value_head_at))]
fn value_words(bytes: &[u8]) -> Result<(u64, u64, &[u8]), WordRefusal>
    ensures { Gives (λ x. (ValueHead x.0 x.1, x.2.now)) result (value_head_at bytes.now) }
{
    let (thread, rest) = number(255, bytes)?;
    let (count, rest) = count(rest)?;
    Ok((thread, count, rest))
}

/// A read, and the number of its sources.
#[tactic(auto, unfolding(crate::specs::Internal::Reading::source_head_at))]
fn source_words(bytes: &[u8]) -> Result<(AccessId, u64, &[u8]), WordRefusal>
    ensures { Gives (λ x. (SourceHead x.0 x.1, x.2.now)) result (source_head_at bytes.now) }
{
    let (read, rest) = access(bytes)?;
    let (count, rest) = count(rest)?;
    Ok((read, count, rest))
}

/// Two writes.
#[tactic(auto, unfolding(crate::specs::Internal::Reading::order_head_at))]
fn order_words(bytes: &[u8]) -> Result<(AccessId, AccessId, &[u8]), WordRefusal>
    ensures { Gives (λ x. (OrderHead x.0 x.1, x.2.now)) result (order_head_at bytes.now) }
{
    let (first, rest) = access(bytes)?;
    let (second, rest) = access(rest)?;
    Ok((first, second, rest))
}

/// The root of a tree of values, put after the other nodes, and how many children follow.
fn value_root<'t>(bytes: &'t [u8], nodes: &mut Vec<Node>) -> Result<(u64, &'t [u8]), Stop>
    ensures pushes { IfOk result (λ x. PushesRoot nodes.old.items nodes.new.items (value_head_at bytes.now) x.0 x.1.now) }
    ensures stops { IfErr result (λ stop. Fails stops_for_memory stop (value_head_at bytes.now)) }
{
    let (thread, count, rest) = value_words(bytes)?;
    nodes.push(Node::Value {
        thread: thread as u8,
        count: count as u32,
    })?;
    Ok((count, rest))
}

/// The root of a tree of sources, put after the other nodes, and how many children follow.
fn source_root<'t>(bytes: &'t [u8], nodes: &mut Vec<Node>) -> Result<(u64, &'t [u8]), Stop>
    ensures pushes { IfOk result (λ x. PushesRoot nodes.old.items nodes.new.items (source_head_at bytes.now) x.0 x.1.now) }
    ensures stops { IfErr result (λ stop. Fails stops_for_memory stop (source_head_at bytes.now)) }
{
    let (read, count, rest) = source_words(bytes)?;
    nodes.push(Node::Source {
        read,
        count: count as u32,
    })?;
    Ok((count, rest))
}

/// The root of two trees, one for each order of two writes, put after the other nodes.
fn order_root<'t>(bytes: &'t [u8], nodes: &mut Vec<Node>) -> Result<(u64, &'t [u8]), Stop>
    ensures pushes { IfOk result (λ x. PushesRoot nodes.old.items nodes.new.items (order_head_at bytes.now) x.0 x.1.now) }
    ensures stops { IfErr result (λ stop. Fails stops_for_memory stop (order_head_at bytes.now)) }
{
    let (first, second, rest) = order_words(bytes)?;
    nodes.push(Node::Order { first, second })?;
    Ok((2, rest))
}

/// The last accesses of a cycle, put after the other nodes.
fn last_events<'t>(
    kind: Kind,
    count: u64,
    bytes: &'t [u8],
    nodes: &mut Vec<Node>,
) -> Result<&'t [u8], Stop>
    requires { count ≤ 3 }
    ensures pushes { IfOk result (λ rest. PushesCycle kind nodes.old.items nodes.new.items (repeat_at access_at count [] bytes.now) rest.now) }
    ensures stops { IfErr result (λ stop. Fails stops_for_memory stop (repeat_at access_at count [] bytes.now)) }
{
    if count == 0 {
        nodes.push(Node::EmptyCycle { kind })?;
        return Ok(bytes);
    }
    let (first, rest) = access(bytes)?;
    if count == 1 {
        nodes.push(Node::LastOne { kind, first })?;
        return Ok(rest);
    }
    let (second, rest) = access(rest)?;
    if count == 2 {
        nodes.push(Node::LastTwo {
            kind,
            first,
            second,
        })?;
        return Ok(rest);
    }
    let (third, rest) = access(rest)?;
    nodes.push(Node::LastThree {
        kind,
        first,
        second,
        third,
    })?;
    Ok(rest)
}

/// Three accesses.
#[tactic(auto, unfolding(crate::specs::Internal::Reading::three_at))]
fn three(bytes: &[u8]) -> Result<(AccessId, AccessId, AccessId, &[u8]), WordRefusal>
    ensures { Gives (λ x. ((x.0, x.1, x.2), x.3.now)) result (three_at bytes.now) }
{
    let (first, rest) = access(bytes)?;
    let (second, rest) = access(rest)?;
    let (third, rest) = access(rest)?;
    Ok((first, second, third, rest))
}

/// So many accesses of a cycle, put after the other nodes.
fn events<'t>(
    kind: Kind,
    count: u64,
    bytes: &'t [u8],
    nodes: &mut Vec<Node>,
) -> Result<&'t [u8], Stop>
    ensures pushes { IfOk result (λ rest. PushesCycle kind nodes.old.items nodes.new.items (repeat_at access_at count [] bytes.now) rest.now) }
    ensures stops { IfErr result (λ stop. Fails stops_for_memory stop (repeat_at access_at count [] bytes.now)) }
{
    let mut left = count;
    let mut rest = bytes;
    while left > 3 {
        let (first, second, third, after) = three(rest)?;
        nodes.push(Node::Earlier(first, second, third))?;
        rest = after;
        left -= 3;
    }
    last_events(kind, left, rest, nodes)
}

/// A cycle, put after the other nodes. No children follow.
#[tactic(auto, unfolding(crate::specs::Internal::Reading::cycle_at))]
fn cycle_root<'t>(bytes: &'t [u8], nodes: &mut Vec<Node>) -> Result<(u64, &'t [u8]), Stop>
    ensures pushes { IfOk result (λ x. PushesRoot nodes.old.items nodes.new.items (cycle_at bytes.now) x.0 x.1.now) }
    ensures stops { IfErr result (λ stop. Fails stops_for_memory stop (cycle_at bytes.now)) }
{
    let (kind, rest) = kind(bytes)?;
    let (count, rest) = count(rest)?;
    let rest = events(kind, count, rest, nodes)?;
    Ok((0, rest))
}

/// The number of a run, put after the other nodes. No children follow.
#[tactic(auto, unfolding(crate::specs::Internal::Reading::known_at))]
fn known_root<'t>(bytes: &'t [u8], nodes: &mut Vec<Node>) -> Result<(u64, &'t [u8]), Stop>
    ensures pushes { IfOk result (λ x. PushesRoot nodes.old.items nodes.new.items (known_at bytes.now) x.0 x.1.now) }
    ensures stops { IfErr result (λ stop. Fails stops_for_memory stop (known_at bytes.now)) }
{
    let (run, rest) = number(u64::MAX, bytes)?;
    push_known(nodes, run)?;
    Ok((0, rest))
}

/// A read without a source whose numbers have one digit each, and the bytes after it: most leaves are such reads.
pub(crate) fn unsourced_read(bytes: &[u8]) -> Option<(AccessId, &[u8])>
    ensures { IfSome result (λ x. head_at bytes.now ≡ Some (SourceHead x.0 0, x.1.now)) }
{
    match bytes {
        [
            before,
            letter,
            space,
            thread,
            stop,
            read,
            last,
            count,
            rest @ ..,
        ] => {
            if *before != b' ' || *letter != b'S' || *space != b' ' || *stop != b'.' {
                return None;
            }
            if *last != b' ' || !ends_word(rest) {
                return None;
            }
            digit_within(0, *count)?;
            let thread = digit_within(255, *thread)? as u8;
            let access = digit_within(255, *read)? as u8;
            Some((AccessId { thread, access }, rest))
        }
        _ => None,
    }
}

/// The next read of a thread and how many values it takes, where both numbers have one digit, and the bytes after them:
/// most nodes with children are such.
fn short_value(bytes: &[u8]) -> Option<(u8, u8, &[u8])>
    ensures { IfSome result (λ x. head_at bytes.now ≡ Some (ValueHead x.0 x.1, x.2.now)) }
{
    match bytes {
        [before, letter, space, thread, between, count, rest @ ..] => {
            if *before != b' ' || *letter != b'V' || *space != b' ' {
                return None;
            }
            if *between != b' ' || !ends_word(rest) {
                return None;
            }
            let thread = digit_within(255, *thread)? as u8;
            let count = digit_within(255, *count)? as u8;
            Some((thread, count, rest))
        }
        _ => None,
    }
}

/// A root, put after the other nodes, and how many children follow.
pub(crate) fn root<'t>(bytes: &'t [u8], nodes: &mut Vec<Node>) -> Result<(u64, &'t [u8]), Stop>
    ensures pushes { IfOk result (λ x. PushesRoot nodes.old.items nodes.new.items (head_at bytes.now) x.0 x.1.now) }
    ensures stops { IfErr result (λ stop. Fails stops_for_memory stop (head_at bytes.now)) }
{
    match short_value(bytes) {
        Some((thread, count, rest)) => {
            nodes.push(Node::Value {
                thread,
                count: u32::from(count),
            })?;
            Ok((u64::from(count), rest))
        }
        None => root_of_letter(bytes, nodes),
    }
}

/// The root that a letter begins, put after the other nodes, and how many children follow.
#[tactic(auto, unfolding(crate::specs::Internal::Reading::head_at))]
fn root_of_letter<'t>(bytes: &'t [u8], nodes: &mut Vec<Node>) -> Result<(u64, &'t [u8]), Stop>
    ensures pushes { IfOk result (λ x. PushesRoot nodes.old.items nodes.new.items (head_at bytes.now) x.0 x.1.now) }
    ensures stops { IfErr result (λ stop. Fails stops_for_memory stop (head_at bytes.now)) }
{
    let (letter, rest) = letter(bytes)?;
    if letter == b'V' {
        value_root(rest, nodes)
    } else if letter == b'S' {
        source_root(rest, nodes)
    } else if letter == b'O' {
        order_root(rest, nodes)
    } else if letter == b'C' {
        cycle_root(rest, nodes)
    } else if letter == b'K' {
        known_root(rest, nodes)
    } else {
        Err(Stop::Refused(refused_word(Wrong::Token, bytes)))
    }
}
