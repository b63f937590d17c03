//! Certificates that somebody proposes, read and judged as the checker does with any file.
ghost use Rattle.std.specs.Prelude.{◌≡◌, ◌↔◌, IfOk, IfSome, IsTrue, Some};
ghost use Rattle.tso_program.specs.Shown.{asked_with};
ghost use Rattle.cert_forest.specs.Certificates as specs;
ghost use Rattle.cert_forest.specs.Limits.{IsCertificate};
ghost use Rattle.tree_laws.specs.Certificates.{IsValidCertificate};
ghost use Rattle.fence_place.specs.Placements.{IsPlacement};
ghost use Rattle.fence_place.specs.Recorded.{AreDistinct};

use cert_check::{CheckFault, certificate_proves_answer, check};
use cert_forest::{CertFault, Certificate, Runs, read_cert};
use gap_sets::TiedCosts;
use std::alloc::{AllocError, Global};
use tso_program::{Program, Shown};

/// The certificate that a text is of, where it proves the answer and has each run once: it is then as good as one of
/// [`crate::place`]. `None` for any other text. Who wrote the text does not matter.
pub fn accepted_proposal(
    alloc: Global,
    program: &Program,
    shown: &Shown,
    costs: &TiedCosts,
    text: &[u8],
) -> Result<Option<Certificate>, AllocError>
    ensures placed { IfOk result (λ found. IfSome found (IsPlacement (asked_with costs.now.ties program.now shown.now) costs.now.costs)) }
    ensures exact { (c : specs.Certificate) → IsCertificate text.now c → IsValidCertificate (asked_with costs.now.ties program.now shown.now) costs.now.costs c → AreDistinct c.runs
        → IfOk result (λ found. found ≡ Some c) }
{
    let certificate = match read_cert(alloc, text) {
        Ok(certificate) => certificate,
        Err(CertFault::OutOfMemory) => return Err(AllocError),
        Err(_) => return Ok(None),
    };
    match check(alloc, program, shown, costs, &certificate) {
        Ok(_) => {}
        Err(CheckFault::OutOfMemory) => return Err(AllocError),
        Err(_) => return Ok(None),
    }
    // For the proof alone: the certificate is valid, so its set is the answer.
    certificate_proves_answer(program, &costs.costs);
    if are_distinct(alloc, &certificate.runs)? {
        Ok(Some(certificate))
    } else {
        Ok(None)
    }
}

/// Whether no two of the runs are equal.
fn are_distinct(alloc: Global, runs: &Runs) -> Result<bool, AllocError>
    ensures { IfOk result (λ distinct. IsTrue distinct ↔ AreDistinct runs.now) }
{
    let mut seen = Runs::new(alloc);
    for labels in runs.iter() {
        match seen.position(labels) {
            Some(_) => return Ok(false),
            None => seen.push(labels)?,
        }
    }
    Ok(true)
}
