//! The lines of why bytes are no certificate's text.

ghost use Rattle.std.specs.Prelude.{◌≡◌, IfOk};
ghost use Rattle.report.specs.CertificateLines.{certificate_line};

use crate::faults::refused_at;
use cert_forest::CertFault;
use std::alloc::{AllocError, Global};

/// Why bytes are no certificate's text, with the byte's offset.
pub fn certificate_line(alloc: Global, fault: CertFault) -> Result<Vec<u8>, AllocError>
    ensures { IfOk result (λ line. line.items ≡ certificate_line fault) }
{
    match fault {
        CertFault::Header => Vec::from_slice(alloc, b"refused certificate 1 Header\n"),
        CertFault::Token(place) => refused_at(alloc, "certificate 2 Token", place as u64),
        CertFault::Number(place) => refused_at(alloc, "certificate 3 Number", place as u64),
        CertFault::TooDeep(place) => refused_at(alloc, "certificate 4 TooDeep", place as u64),
        CertFault::TooMany(place) => refused_at(alloc, "certificate 5 TooMany", place as u64),
        CertFault::Ended => Vec::from_slice(alloc, b"refused certificate 6 Ended\n"),
        CertFault::Trailing(place) => refused_at(alloc, "certificate 7 Trailing", place as u64),
        CertFault::OutOfMemory => Vec::from_slice(alloc, b"refused certificate 8 OutOfMemory\n"),
    }
}
