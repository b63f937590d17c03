//! What is said about a word that can't stand where it does: a table of rules for each part of a litmus text. The first
//! rule that is of the word counts.

use crate::cell_rules::{INSTRUCTION, OPERAND};
use crate::condition_rules::CONDITION;
use crate::rule::{ANY, JUMPS, REGISTERS, RESERVED, Rule, first_said};
use crate::tokens::Spot;
use litmus_syntax::Part;

/// What is said of a sign with which other languages begin comments.
pub const COMMENT: &str = "begins no comment; comments stand in `(* *)`";

/// What is said of a comment that does not end.
pub const OPEN_COMMENT: &str = "begins a comment that does not end: `*)` is missing";

/// What the tables say of a token.
pub fn said_of(spot: &Spot<'_>) -> &'static str {
    if spot.kind == b"<comment>".as_slice() {
        return COMMENT;
    }
    first_said(rules_of(spot.part), spot).unwrap_or("cannot stand here")
}

fn rules_of(part: Part) -> &'static [Rule] {
    match part {
        Part::Header => HEADER,
        Part::Initial => INITIAL,
        Part::Row => &[],
        Part::Instruction => INSTRUCTION,
        Part::Operand => OPERAND,
        Part::Label => LABEL,
        Part::Condition => CONDITION,
        Part::Number => NUMBER,
        Part::Ended => ENDED,
    }
}

/// The header row.
const HEADER: &[Rule] = &[
    Rule {
        after: &["}"],
        words: &["P1", "P2", "P3", "P4", "P5", "P6", "P7"],
        said: "cannot stand here; the first thread is P0, the next is P1",
    },
    Rule {
        after: &["}", "|"],
        words: ANY,
        said: "cannot stand here; threads are named `P0`, `P1` and so on, with `|` between them",
    },
    Rule {
        after: ANY,
        words: ANY,
        said: "cannot stand here; after a thread's name `|` or `;` does",
    },
];

/// Initial values.
const INITIAL: &[Rule] = &[
    Rule {
        after: &["="],
        words: ANY,
        said: "is no number; addresses and registers as values (`0:EBX=x`) are not read",
    },
    Rule {
        after: &[":"],
        words: ANY,
        said: "is no register; these are EAX, EBX, ECX, EDX, ESI and EDI",
    },
    Rule {
        after: &["{", ";"],
        words: REGISTERS,
        said: "is a register; its value is given with its thread, as `0:EAX=1`",
    },
    Rule {
        after: &["{", ";"],
        words: &["<number>"],
        said: "begins a register that is given twice, or whose thread is not in the header row",
    },
    Rule {
        after: &["{", ";"],
        words: &["<word>", "["],
        said: "begins a location that is given twice, or that cannot have this name",
    },
    Rule {
        after: &[
            "int", "long", "char", "unsigned", "int32_t", "int64_t", "uint32_t", "uint64_t",
            "volatile",
        ],
        words: ANY,
        said: "cannot stand here; typed initial values (`int x=1`) are not read, write `x=1`",
    },
    Rule {
        after: ANY,
        words: ANY,
        said: "cannot stand here; an initial value is `x=1`, `[x]=1` or `0:EAX=1`, with `;` between two",
    },
];

/// Labels, and the names to which jumps lead.
const LABEL: &[Rule] = &[
    Rule {
        after: ANY,
        words: RESERVED,
        said: "cannot be the name of a label",
    },
    Rule {
        after: JUMPS,
        words: ANY,
        said: "is no label of this thread; it stands in the thread's own column as `NAME:`, before an instruction or at the end",
    },
    Rule {
        after: ANY,
        words: ANY,
        said: "is a label of this thread already",
    },
];

/// What is no number where one may stand.
const NUMBER: &[Rule] = &[
    Rule {
        after: ANY,
        words: &["<hexadecimal>"],
        said: "is hexadecimal; numbers are decimal",
    },
    Rule {
        after: ANY,
        words: &["<negative>"],
        said: "is negative; numbers are from 0 to 4294967295",
    },
    Rule {
        after: ANY,
        words: &["<large>"],
        said: "is too large; numbers are from 0 to 4294967295",
    },
    Rule {
        after: ANY,
        words: ANY,
        said: "is no number; these are decimal digits alone",
    },
];

/// The end of the text. Its kind says in what it is.
const ENDED: &[Rule] = &[
    Rule {
        after: ANY,
        words: &["("],
        said: OPEN_COMMENT,
    },
    Rule {
        after: ANY,
        words: &["<unfinished>"],
        said: "begins what does not end: `/\\` or `\\/`",
    },
    Rule {
        after: ANY,
        words: &["<in_values>"],
        said: "ends in its initial values: `}` is missing",
    },
    Rule {
        after: &["="],
        words: ANY,
        said: "ends after `=`: a number is missing",
    },
    Rule {
        after: &["<first_tilde>"],
        words: ANY,
        said: "ends after `~`: `exists` and a formula are missing",
    },
    Rule {
        after: &["exists", "forall", "not", "~", "(", "/\\", "\\/"],
        words: ANY,
        said: "ends in its condition: a formula is missing, as `0:EAX=1`",
    },
    Rule {
        after: ANY,
        words: &["<in_parentheses>"],
        said: "ends in its condition: `)` is missing",
    },
    Rule {
        after: ANY,
        words: &["<in_condition>"],
        said: "ends in its condition: `=` and a number are missing",
    },
    Rule {
        after: &["}"],
        words: ANY,
        said: "ends before its threads: a row as `P0 | P1 ;` is missing",
    },
    Rule {
        after: &[";"],
        words: ANY,
        said: "ends without a condition: `exists`, `~exists` or `forall`, and a formula",
    },
    Rule {
        after: ANY,
        words: &["<in_rows>"],
        said: "ends in a row: `;` is missing",
    },
    Rule {
        after: ANY,
        words: ANY,
        said: "ends here, and more is needed",
    },
];
