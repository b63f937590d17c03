//! The rules by which a certificate's trees are judged.

/// By which rule a certificate's trees are judged: when, in a cover tree, a read may take its source and two
/// writes their order, and whether bounds of its gap tree name runs.
#[derive(Clone, Copy)]
pub enum Rule {
    /// Whole trees, which versions 1 and 2 of certificates have: sources and orders once each read has its value.
    Whole,
    /// Early trees with bounds by runs, which version 4 has: a read takes its source once no other thread may still
    /// write the value that it has read, and two writes their order as soon as they are there.
    Early,
}
