//! What is said about a word that can't stand in what follows the rows of a litmus text.

use crate::rule::{ANY, Rule};

/// The list of locations, and the condition.
pub(crate) const CONDITION: &[Rule] = &[
    Rule {
        after: &["<first_tilde>"],
        words: ANY,
        said: "cannot stand here; `exists` comes after this `~`: a condition is `exists`, `~exists` or `forall`, and a formula",
    },
    Rule {
        after: ANY,
        words: &["filter"],
        said: "is not read; join its formula to that of the condition",
    },
    Rule {
        after: &["="],
        words: &[">"],
        said: "cannot stand here; `a => b` is not read, write `not a \\/ b`",
    },
    Rule {
        after: ANY,
        words: &["=>"],
        said: "cannot stand here; `a => b` is not read, write `not a \\/ b`",
    },
    Rule {
        after: &["="],
        words: &["="],
        said: "cannot stand here; `==` is written `=`",
    },
    Rule {
        after: ANY,
        words: &["!=", "!", "<>", "<", "<=", ">", ">=", "==", "="],
        said: "cannot stand here; values are compared by `=` alone, write `not x=1` for `x!=1`",
    },
    Rule {
        after: ANY,
        words: &["|", "&", "&&", ",", "and", "or"],
        said: "cannot stand here; `/\\` is and, `\\/` is or",
    },
    Rule {
        after: &["P0", "P1", "P2", "P3", "P4", "P5", "P6", "P7"],
        words: &[":"],
        said: "cannot stand here; a register is written with its thread's number, as `0:EAX`",
    },
    Rule {
        after: &["="],
        words: ANY,
        said: "is no number; a register or location on both sides (`0:EBX=x`) is not read",
    },
    Rule {
        after: &[":"],
        words: ANY,
        said: "is no register; these are EAX, EBX, ECX, EDX, ESI and EDI",
    },
    Rule {
        after: ANY,
        words: &[":"],
        said: "cannot stand here; a register is written with its thread's number, as `0:EAX`, and a value is a number alone",
    },
    Rule {
        after: &["(", "[", ";", "/\\", "\\/", "~", "not", "exists", "forall"],
        words: &["<number>"],
        said: "is no thread of the header row",
    },
    Rule {
        after: &["(", "/\\", "\\/", "~", "not", "exists", "forall"],
        words: ANY,
        said: "cannot stand here; `0:EAX=1`, `x=1`, `[x]=1`, `true`, `false`, `not` or `(` does",
    },
    Rule {
        after: &["locations"],
        words: ANY,
        said: "cannot stand here; the list of locations begins with `[`",
    },
    Rule {
        after: &["]"],
        words: &["<word>"],
        said: "cannot stand here; a condition is `exists`, `~exists` or `forall`, and a formula",
    },
    Rule {
        after: ANY,
        words: ANY,
        said: "cannot stand here; a formula goes on with `=`, `/\\`, `\\/` or `)`, or ends",
    },
];
