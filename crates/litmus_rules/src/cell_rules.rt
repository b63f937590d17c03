//! What is said about a word that can't stand in a cell of a litmus text.

use crate::rule::{ANY, JUMPS, REGISTERS, RESERVED, Rule};

/// What stands before an instruction or a label: the start of a cell, or a label.
const CELL: &[&str] = &["|", ";", ":"];

/// The words with which instructions begin.
pub(crate) const MNEMONICS: &[&str] = &["MOV", "XCHG", "MFENCE", "CMP", "JE", "JNE", "JMP"];

/// What stands in a cell, but operands.
pub(crate) const INSTRUCTION: &[Rule] = &[
    Rule {
        after: &[";"],
        words: &[
            "<not_exists>",
            "EXIST",
            "EXISTS",
            "EXSTS",
            "EXITS",
            "FORALL",
            "FORBID",
            "FORBIDDEN",
            "ALLOWED",
            "REQUIRED",
            "NEVER",
            "ALWAYS",
            "SOMETIMES",
            "ASSERT",
        ],
        said: "is not read; a condition is `exists`, `~exists` or `forall`, and a formula",
    },
    Rule {
        after: &[";"],
        words: &["(", "[", "<formula>"],
        said: "begins no instruction; these are MOV, XCHG, MFENCE, CMP, JE, JNE and JMP, and a condition begins with `exists`, `~exists` or `forall`",
    },
    Rule {
        after: CELL,
        words: &["<zero_test>"],
        said: "is not read; write `CMP EAX,$0` to compare a register with 0",
    },
    Rule {
        after: CELL,
        words: &["<zeroing>"],
        said: "is not read; write `MOV EAX,$0` to make a register 0",
    },
    Rule {
        after: CELL,
        words: &[
            "INC", "DEC", "ADD", "SUB", "AND", "OR", "XOR", "NEG", "NOT", "MUL", "IMUL", "DIV",
            "SHL", "SHR", "SAL", "SAR", "LEA", "TEST",
        ],
        said: "is arithmetic, which is not read; write a branch for each value (docs/guide.md)",
    },
    Rule {
        after: CELL,
        words: &["<idle_lock>"],
        said: "is not read; with 0 it changes no value, and an MFENCE does the same",
    },
    Rule {
        after: CELL,
        words: &["LOCK", "CMPXCHG", "XADD"],
        said: "is not read; the one locked instruction is XCHG, without LOCK; docs/guide.md, *Compare-and-swap*, has a recipe for others",
    },
    Rule {
        after: CELL,
        words: &["SFENCE", "LFENCE"],
        said: "is not read; it orders nothing that this machine leaves unordered, so leave it out",
    },
    Rule {
        after: CELL,
        words: &["PAUSE", "NOP"],
        said: "is not read; it changes no value and orders nothing, so leave it out",
    },
    Rule {
        after: CELL,
        words: &["JZ"],
        said: "is not read; write JE",
    },
    Rule {
        after: CELL,
        words: &["JNZ"],
        said: "is not read; write JNE",
    },
    Rule {
        after: CELL,
        words: &[
            "JL", "JLE", "JNL", "JNLE", "JG", "JGE", "JNG", "JNGE", "JB", "JBE", "JNB", "JNBE",
            "JA", "JAE", "JNA", "JNAE", "JC", "JNC", "JS", "JNS", "JO", "JNO", "JP", "JNP",
        ],
        said: "is not read; compare with each value, and jump by JE or JNE",
    },
    Rule {
        after: CELL,
        words: &[
            "WHILE", "FOR", "DO", "LOOP", "GOTO", "IF", "ELSE", "REPEAT", "UNTIL",
        ],
        said: "is no instruction; loops are not read, write a fixed number of tries (docs/guide.md)",
    },
    Rule {
        after: CELL,
        words: &["MOVB", "MOVW", "MOVL", "MOVQ", "MOVD", "MOVNTI"],
        said: "is not read; write MOV, which moves 32 bits",
    },
    Rule {
        after: CELL,
        words: &["<word>"],
        said: "is no instruction that is read; these are MOV, XCHG, MFENCE, CMP, JE, JNE and JMP, and a label ends with `:`",
    },
    Rule {
        after: &["|", ";"],
        words: ANY,
        said: "cannot stand here; a cell is empty, or has labels `NAME:` and an instruction",
    },
    Rule {
        after: &[":"],
        words: ANY,
        said: "cannot stand here; after a label an instruction, `|` or `;` does, at the end of a row `;`",
    },
    Rule {
        after: ANY,
        words: MNEMONICS,
        said: "begins a second instruction in a cell; it stands in the next row, in the column of its thread",
    },
    Rule {
        after: ANY,
        words: ANY,
        said: "cannot stand here; after an instruction `|` or `;` does, at the end of a row `;`",
    },
];

/// Operands.
pub(crate) const OPERAND: &[Rule] = &[
    Rule {
        after: ANY,
        words: &[
            "RAX", "RBX", "RCX", "RDX", "RSI", "RDI", "RBP", "RSP", "AX", "BX", "CX", "DX", "AL",
            "BL", "CL", "DL", "EBP", "ESP",
        ],
        said: "is not read; registers are EAX, EBX, ECX, EDX, ESI and EDI",
    },
    Rule {
        after: ANY,
        words: &["BYTE", "WORD", "DWORD", "QWORD", "PTR"],
        said: "is not read; write `[x]`, of which 32 bits are read and written",
    },
    Rule {
        after: &["["],
        words: RESERVED,
        said: "is a word of the format, and cannot be the name of a location",
    },
    Rule {
        after: &["["],
        words: ANY,
        said: "is no location's name; an address is a location's name alone: write a branch for each value of the pointer or index (docs/guide.md)",
    },
    Rule {
        after: &["$"],
        words: ANY,
        said: "is no number",
    },
    Rule {
        after: JUMPS,
        words: ANY,
        said: "cannot stand here; a jump names a label of its thread",
    },
    Rule {
        after: &["CMP"],
        words: &["["],
        said: "cannot stand here; CMP compares registers and numbers, so load the location first, as `MOV EAX,[x]`",
    },
    Rule {
        after: &["CMP"],
        words: ANY,
        said: "is no register; CMP compares a register with a register or a number",
    },
    Rule {
        after: &[","],
        words: &["["],
        said: "cannot stand here; load the location into a register first, as `MOV EAX,[x]`",
    },
    Rule {
        after: &[","],
        words: &["$", "<number>"],
        said: "cannot stand here; XCHG takes a register: `MOV EAX,$1` before it, then `XCHG [x],EAX`",
    },
    Rule {
        after: &[","],
        words: REGISTERS,
        said: "cannot stand here; XCHG is `[x],REG` or `REG,[x]`",
    },
    Rule {
        after: &["MOV", "XCHG", ","],
        words: &["<word>"],
        said: "is no register; these are EAX, EBX, ECX, EDX, ESI and EDI, and a location is written `[x]`",
    },
    Rule {
        after: &["MOV", "XCHG"],
        words: ANY,
        said: "cannot stand here; the first operand is a register or a location `[x]`",
    },
    Rule {
        after: &[","],
        words: ANY,
        said: "cannot stand here; MOV is `REG,$1`, `REG,REG`, `REG,[x]`, `[x],$1` or `[x],REG`, XCHG `[x],REG` or `REG,[x]`, CMP `REG,$1` or `REG,REG`",
    },
    Rule {
        after: &["EAX", "EBX", "ECX", "EDX", "ESI", "EDI", "]"],
        words: &["+", "*", "<negative>"],
        said: "cannot stand here; after an operand `,` does, and no arithmetic is read",
    },
    Rule {
        after: ANY,
        words: &["+", "*", "<negative>"],
        said: "cannot stand here; an address is a location's name alone: write a branch for each value of the pointer or index (docs/guide.md)",
    },
    Rule {
        after: ANY,
        words: ANY,
        said: "cannot stand here; after an operand `,` does, and after a location's name `]`",
    },
];
