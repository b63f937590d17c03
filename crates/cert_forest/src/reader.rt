//! Certificates, read from their text.

ghost use Rattle.std.specs.Prelude.{◌≡◌, ℕ, ◌<◌, ◌-◌, ◌⊎◌, [], length, IfOk, IfErr, IsErrAnd};
ghost use Rattle.gap_sets.specs.declared.gap_set.TheConstants.{MAX_GAPS};
ghost use Rattle.std.specs.FinSet as set;
ghost use Rattle.cert_forest.specs.Certificates as specs;
ghost use Rattle.cert_forest.specs.Limits.{IsCertificate};
ghost use Rattle.cert_forest.specs.Exact.{GivesExactly, HasMore};
ghost use Rattle.cert_forest.specs.declared.fault.CertFault.TheVariants.{Trailing, OutOfMemory};
ghost use Rattle.text_tokens.specs.Steps.{Gives, GivesUnless};
ghost use Rattle.cert_words.specs.Words.{stops_for_memory};
ghost use Rattle.cert_words.specs.Completions.{CanBecome};
ghost use Rattle.cert_forest.specs.Internal.Reading.{gap_number_at, ascending_at, set_at, cost_at, after_set_at, certificate_at};

use crate::Shows;
use crate::certificate::Certificate;
use crate::cover_tree::cover_line;
use crate::fault::{CertFault, fault_of};
use crate::gap_tree::gap_line;
use crate::runs::runs;
use crate::shown::head;
use cert_trees::Rule;
use cert_words::{
    Stop, WordRefusal, Wrong, begins_word, can_become, end, name, number, refused,
    refused_unless_cut,
};
use gap_sets::{GapSet, MAX_GAPS};
use std::alloc::Global;
use std::sync::Arc;

/// The greatest number of a gap.
const LAST_GAP: u64 = MAX_GAPS as u64 - 1;

/// What is wrong with a gap that is below the least which may stand there. Where nothing follows it and more digits
/// can make it one that may, the bytes have ended.
fn below_least(gap: u8, least: u8, bytes: &[u8], rest: &[u8]) -> WordRefusal
    ensures ended { rest.now ≡ [] → CanBecome gap least (MAX_GAPS - 1) → result ≡ record { wrong = Wrong.Ended; left = 0 } }
    ensures token { ((rest.now ≡ []) × CanBecome gap least (MAX_GAPS - 1) → ⊥) → result ≡ record { wrong = Wrong.Token; left = length bytes.now - 1 } }
{
    let could_go_on = can_become(u64::from(gap), u64::from(least), LAST_GAP);
    refused_unless_cut(Wrong::Token, could_go_on, bytes, rest)
}

/// A gap's number.
fn gap_number(bytes: &[u8]) -> Result<(u8, &[u8]), WordRefusal>
    ensures gives { Gives (λ x. (x.0, x.1.now)) result (gap_number_at bytes.now) }
    ensures below { IfOk result (λ x. x.0 < MAX_GAPS) }
{
    let (gap, rest) = number(LAST_GAP, bytes)?;
    Ok((gap as u8, rest))
}

/// A gap's number, where the least that may stand there is this one. Where none may, and the bytes end after the
/// space, the space can't stand there.
fn next_gap(least: u8, bytes: &[u8]) -> Result<(u8, &[u8]), WordRefusal>
    ensures gives { Gives (λ x. (x.0, x.1.now)) result (gap_number_at bytes.now) }
    ensures below { IfOk result (λ x. x.0 < MAX_GAPS) }
{
    match gap_number(bytes) {
        Ok(gap) => Ok(gap),
        Err(refusal) => Err(if least == MAX_GAPS && bytes.len() == 1 {
            refused(Wrong::Token, bytes.len())
        } else {
            refusal
        }),
    }
}

/// What is wrong with a word after `MAX_GAPS` gaps.
fn after_all(bytes: &[u8]) -> WordRefusal {
    match next_gap(MAX_GAPS, bytes) {
        Ok((gap, rest)) => below_least(gap, MAX_GAPS, bytes, rest),
        Err(refusal) => refusal,
    }
}

/// The gaps of the set, ascending, as long as words follow.
fn gaps(bytes: &[u8]) -> Result<(GapSet, &[u8]), WordRefusal>
    ensures { Gives (λ x. (x.0, x.1.now)) result (ascending_at gap_number_at MAX_GAPS 0 set.empty bytes.now) }
{
    let mut found = GapSet::empty();
    let mut least: u8 = 0;
    let mut rest = bytes;
    for _ in 0..MAX_GAPS {
        if !begins_word(rest) {
            return Ok((found, rest));
        }
        let (gap, after) = next_gap(least, rest)?;
        if gap < least {
            return Err(below_least(gap, least, rest, after));
        }
        found = found.with(gap);
        least = gap + 1;
        rest = after;
    }
    if begins_word(rest) {
        return Err(after_all(rest));
    }
    Ok((found, rest))
}

#[tactic(auto, unfolding(crate::specs::Internal::Reading::set_at))]
fn set_line(bytes: &[u8]) -> Result<(GapSet, &[u8]), WordRefusal>
    ensures { Gives (λ x. (x.0, x.1.now)) result (set_at bytes.now) }
{
    let rest = name(b"set", bytes)?;
    match gaps(rest) {
        Ok((gaps, rest)) => {
            let rest = end(rest)?;
            Ok((gaps, rest))
        }
        Err(refusal) => Err(refusal),
    }
}

#[tactic(auto, unfolding(crate::specs::Internal::Reading::cost_at))]
fn cost(bytes: &[u8]) -> Result<(u64, &[u8]), WordRefusal>
    ensures { Gives (λ x. (x.0, x.1.now)) result (cost_at bytes.now) }
{
    let rest = name(b"cost", bytes)?;
    let (cost, rest) = number(u64::MAX, rest)?;
    let rest = end(rest)?;
    Ok((cost, rest))
}

/// A certificate at the front of the bytes, and the bytes after its last line.
#[tactic(auto, unfolding(crate::specs::Internal::Reading::certificate_at))]
fn first_certificate(alloc: Global, bytes: &[u8]) -> Result<(Certificate, &[u8]), Stop>
    ensures { GivesUnless stops_for_memory (λ x. (x.0, x.1.now)) result (certificate_at bytes.now) }
{
    match head(bytes) {
        Ok((rule, shown, rest)) => match set_line(rest) {
            Ok((set, rest)) => after_set(alloc, rule, shown, set, rest),
            Err(refusal) => Err(Stop::Refused(refusal)),
        },
        Err(refusal) => Err(Stop::Refused(refusal)),
    }
}

/// The certificate, from the line of the cost on.
#[tactic(auto, unfolding(crate::specs::Internal::Reading::after_set_at))]
fn after_set(
    alloc: Global,
    rule: Rule,
    shown: Shows,
    set: GapSet,
    bytes: &[u8],
) -> Result<(Certificate, &[u8]), Stop>
    ensures { GivesUnless stops_for_memory (λ x. (x.0, x.1.now)) result (after_set_at rule shown set bytes.now) }
{
    let (cost, rest) = cost(bytes)?;
    let (seq_runs, rest) = runs(alloc, b"seq", rest)?;
    let (seq_tree, rest) = cover_line(alloc, b"tree", rest)?;
    let (runs, rest) = runs(alloc, b"runs", rest)?;
    let (fenced_tree, rest) = cover_line(alloc, b"fenced", rest)?;
    let (gap_tree, rest) = gap_line(alloc, rule, rest)?;
    let certificate = Certificate {
        rule,
        shown,
        set,
        cost,
        seq_runs: Arc::new(alloc, seq_runs)?,
        seq_tree,
        runs,
        fenced_tree,
        gap_tree,
    };
    Ok((certificate, rest))
}

/// The certificate that the bytes are the text of. It reserves no memory by a count that it has read. The first fault
/// from left to right is answered, and `OutOfMemory` wherever a growth was refused.
pub fn read_cert(alloc: Global, bytes: &[u8]) -> Result<Certificate, CertFault>
    ensures found { IfOk result (IsCertificate bytes.now) }
    ensures only { (c : specs.Certificate) → IsCertificate bytes.now c → GivesExactly result c }
    ensures trailing { IfErr result (λ fault. (place : ℕ) → fault ≡ Trailing place → HasMore bytes.now place) }
    ensures more { (place : ℕ) → HasMore bytes.now place → IsErrAnd result (λ fault. (fault ≡ Trailing place) ⊎ (fault ≡ OutOfMemory)) }
{
    match first_certificate(alloc, bytes) {
        Ok((certificate, rest)) => {
            if !rest.is_empty() {
                return Err(CertFault::Trailing(bytes.len().saturating_sub(rest.len())));
            }
            Ok(certificate)
        }
        Err(Stop::Refused(refusal)) => Err(fault_of(refusal, bytes.len())),
        Err(Stop::OutOfMemory) => Err(CertFault::OutOfMemory),
    }
}
