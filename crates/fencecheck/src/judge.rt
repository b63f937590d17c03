//! The verdict on the texts of a program, a certificate and costs.

ghost use Rattle.std.specs.Prelude.{◌≡◌, ℕ, List, IfOk, IfErr, OnOk, option_map};
ghost use Rattle.gap_sets.specs.Order.{total};
ghost use Rattle.gap_sets.specs.Ties.{names_in};
ghost use Rattle.tso_program.specs.Shown.{asked_with};
ghost use Rattle.litmus_reader.specs.Texts.{IsLitmus};
ghost use Rattle.cert_check.specs.Certificates.{IsValidCertificate};
ghost use Rattle.cert_check.specs.Faults.{CheckFaultIs};
ghost use Rattle.cert_check.specs.Headlines.{HeadlineOfAllowed};
ghost use Rattle.report.specs.Answers.{accepted_line};
ghost use Rattle.report.specs.Outcomes.{Headline};
ghost use Rattle.fencecheck.specs.Verdicts.{handed_in, IsAccepted, IsRefused, refusal_line, Spell};

use cert_check::{CheckFault, check};
use cert_forest::{CertFault, Certificate, Shows, read_cert};
use cost_text::{CostTextFault, given_costs};
use gap_sets::TiedCosts;
use litmus_reader::{Litmus, ReadFault, read_litmus};
use report::{accepted_line, certificate_line, check_line, costs_line, litmus_line};
use std::alloc::{AllocError, Global};
use tso_program::{Program, Shown, ShownKind};

/// Why a certificate isn't accepted.
#[derive(Drop)]
pub enum Rejection {
    /// The first text isn't a litmus text.
    Litmus(ReadFault),
    /// The second isn't a certificate's.
    Certificate(CertFault),
    /// The third isn't one of costs for the program.
    Costs(CostTextFault),
    /// The certificate doesn't show what it claims.
    Check(CheckFault),
}

/// The line of a refusal.
pub fn refusal_line(alloc: Global, refusal: &Rejection) -> Result<Vec<u8>, AllocError>
    ensures { IfOk result (λ line. line.items ≡ refusal_line refusal.now) }
{
    match refusal {
        Rejection::Litmus(fault) => litmus_line(alloc, *fault),
        Rejection::Certificate(fault) => certificate_line(alloc, *fault),
        Rejection::Costs(fault) => costs_line(alloc, *fault),
        Rejection::Check(fault) => check_line(alloc, fault),
    }
}

/// What is shown of outcomes, as the certificate asks: all, what the litmus text names, or whether its condition's
/// formula is true.
fn handed_in(litmus: &Litmus<Program>, claimed: &Shows) -> Result<Shown, AllocError>
    ensures { IfOk result (λ shown. shown ≡ handed_in litmus.now claimed.now) }
{
    match claimed {
        Shows::All => Ok(Shown::All),
        Shows::Only(_) => Ok(litmus.shown()),
        Shows::Condition => litmus.shown_as(ShownKind::Condition),
    }
}

/// The line of a certificate that the checker accepts, or why it doesn't.
fn checked_line(
    alloc: Global,
    program: &Program,
    shown: &Shown,
    costs: &TiedCosts,
    certificate: &Certificate,
) -> Result<Vec<u8>, CheckFault>
    ensures headline { OnOk result (Headline (asked_with costs.now.ties program.now shown.now) costs.now.costs (names_in costs.now.ties certificate.now.gaps)) }
    ensures fenced { OnOk result (HeadlineOfAllowed (asked_with costs.now.ties program.now shown.now) costs.now.costs certificate.now.gaps) }
    ensures valid { OnOk result (IsValidCertificate (asked_with costs.now.ties program.now shown.now) costs.now.costs certificate.now) }
    ensures line { IfOk result (λ line. line.items ≡ accepted_line program.now shown.now certificate.now.gaps (total costs.now.costs (names_in costs.now.ties certificate.now.gaps))) }
    ensures refused { IfErr result (CheckFaultIs (asked_with costs.now.ties program.now shown.now) costs.now.costs certificate.now) }
{
    let accepted = check(alloc, program, shown, costs, certificate)?;
    match accepted_line(alloc, program, shown, accepted.set, accepted.cost) {
        Ok(line) => Ok(line),
        Err(_) => Err(CheckFault::OutOfMemory),
    }
}

/// Judges a certificate for a program: the line that accepts it, or why it isn't accepted. The costs are judged first, then
/// what the certificate shows.
fn judge_certificate(
    alloc: Global,
    litmus: &Litmus<Program>,
    certificate: &Certificate,
    costs: Option<&[u8]>,
) -> Result<Vec<u8>, Rejection>
    ensures accepted { (source claim : List ℕ) → Spell source claim litmus.now certificate.now → IfOk result (λ line. IsAccepted source claim (option_map (λ text. text.now) costs.entry) line.items) }
    ensures refused { (source claim : List ℕ) → Spell source claim litmus.now certificate.now → IfErr result (IsRefused source claim (option_map (λ text. text.now) costs.entry)) }
{
    let costs = match given_costs(alloc, costs, &litmus.program) {
        Ok(costs) => costs,
        Err(fault) => return Err(Rejection::Costs(fault)),
    };
    let shown = match handed_in(litmus, &certificate.shown) {
        Ok(shown) => shown,
        Err(_) => return Err(Rejection::Certificate(CertFault::OutOfMemory)),
    };
    match checked_line(alloc, &litmus.program, &shown, &costs, certificate) {
        Ok(line) => Ok(line),
        Err(fault) => Err(Rejection::Check(fault)),
    }
}

/// Judges the text of a certificate for a litmus text that is read. The certificate's text is judged first.
fn judge_read(
    alloc: Global,
    litmus: &Litmus<Program>,
    certificate: &[u8],
    costs: Option<&[u8]>,
) -> Result<Vec<u8>, Rejection>
    ensures accepted { (source : List ℕ) → IsLitmus source litmus.now → IfOk result (λ line. IsAccepted source certificate.now (option_map (λ text. text.now) costs.entry) line.items) }
    ensures refused { (source : List ℕ) → IsLitmus source litmus.now → IfErr result (IsRefused source certificate.now (option_map (λ text. text.now) costs.entry)) }
{
    match read_cert(alloc, certificate) {
        Ok(claimed) => judge_certificate(alloc, litmus, &claimed, costs),
        Err(fault) => Err(Rejection::Certificate(fault)),
    }
}

/// Judges a certificate for the program of a litmus text: the line that accepts it, or why it isn't accepted. The litmus
/// text is judged first, then the certificate's text, the costs, and what the certificate shows.
pub fn judge(
    alloc: Global,
    litmus: &[u8],
    certificate: &[u8],
    costs: Option<&[u8]>,
) -> Result<Vec<u8>, Rejection>
    ensures accepted { IfOk result (λ line. IsAccepted litmus.now certificate.now (option_map (λ text. text.now) costs.entry) line.items) }
    ensures refused { IfErr result (IsRefused litmus.now certificate.now (option_map (λ text. text.now) costs.entry)) }
{
    match read_litmus(alloc, litmus) {
        Ok(litmus) => judge_read(alloc, &litmus, certificate, costs),
        Err(fault) => Err(Rejection::Litmus(fault)),
    }
}
