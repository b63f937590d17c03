//! The laws: each function's contract is a theorem, and calling it does nothing.
ghost use Rattle.cert_check.specs.Laws.{TheFirstCheckFaultIsUnique, ValidCertificatesHaveNoFault};

/// No fault but `OutOfMemory` fits a valid certificate.
pub fn valid_certificates_have_no_fault()
    ensures { ValidCertificatesHaveNoFault }
{}

/// Two faults that both fit a certificate are the same, or one of them is `OutOfMemory`, and then what is
/// shown, the set and the cost are right: a checker that refuses it has one answer, memory aside.
pub fn the_first_fault_is_unique()
    ensures { TheFirstCheckFaultIsUnique }
{}
