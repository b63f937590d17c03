//! Calls of `cert_forest` and `cert_check`.

use crate::input::push_bytes;
use crate::refusal::TextRefusal;
use crate::sets::{costs_at, push_gaps};
use cert_check::{Accepted, CheckFault, check};
use cert_forest::{Certificate, read_cert};
use cert_pages::write_cert;
use gap_sets::TiedCosts;
use litmus_text::read_litmus;
use std::alloc::{AllocError, Global};
use tso_program::{Program, Shown};

fn copy_trees(certificate: &mut Certificate) -> Result<(), AllocError> {
    certificate.seq_tree = certificate.seq_tree.copy()?;
    certificate.fenced_tree = certificate.fenced_tree.copy()?;
    certificate.gap_tree = certificate.gap_tree.copy()?;
    Ok(())
}

fn push_written(
    alloc: Global,
    mut certificate: Certificate,
    printed: &mut String,
) -> Result<(), AllocError> {
    copy_trees(&mut certificate)?;
    push_bytes(printed, &write_cert(alloc, certificate)?)
}

/// The text of a certificate whose trees are copies.
pub fn push_certificate(
    alloc: Global,
    text: &[u8],
    printed: &mut String,
) -> Result<(), TextRefusal> {
    let certificate = read_cert(alloc, text)?;
    Ok(push_written(alloc, certificate, printed)?)
}

/// The litmus text and the certificate of a text; the first word `FENCECERT` begins the latter.
fn split_texts(text: &[u8]) -> (&[u8], &[u8]) {
    let head: &[u8] = b"FENCECERT ";
    let start = text.windows(10).position(|part| part == head);
    text.split_at(start.unwrap_or(0))
}

fn push_acceptance(
    alloc: Global,
    accepted: &Accepted,
    printed: &mut String,
) -> Result<(), AllocError> {
    write!(printed, "accepted cost {} set ", accepted.cost)?;
    push_gaps(alloc, &accepted.set, printed)
}

fn push_judgment(
    alloc: Global,
    judged: Result<Accepted, CheckFault>,
    printed: &mut String,
) -> Result<(), AllocError> {
    match judged {
        Ok(accepted) => push_acceptance(alloc, &accepted, printed),
        Err(fault) => write!(printed, "refused check {fault:?}\n"),
    }
}

fn push_judged(
    alloc: Global,
    program: &Program,
    costs: &TiedCosts,
    text: &[u8],
    printed: &mut String,
) -> Result<(), TextRefusal> {
    let certificate = read_cert(alloc, text)?;
    let judged = check(alloc, program, &Shown::All, costs, &certificate);
    drop(certificate);
    Ok(push_judgment(alloc, judged, printed)?)
}

/// What the checker says of a certificate, for a test of which everything is shown, and the costs that are given.
pub fn push_checked(
    alloc: Global,
    words: &[&[u8]],
    text: &[u8],
    printed: &mut String,
) -> Result<(), TextRefusal> {
    let (litmus, certificate) = split_texts(text);
    let costs = TiedCosts::single(alloc, costs_at(alloc, words, 0)?)?;
    let litmus = read_litmus(alloc, litmus)?;
    let pushed = push_judged(alloc, &litmus.program, &costs, certificate, printed);
    drop(litmus);
    pushed
}
