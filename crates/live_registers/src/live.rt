//! Which registers are live before each instruction of a thread.
ghost use Rattle.std.specs.Prelude.{◌≡◌, ◌<◌, ◌≤◌, ◌+◌, ℕ, IfOk, Some, [], length, slice_index_or};
ghost use Rattle.tso_program.specs.Instructions.{target_of};
ghost use Rattle.tso_program.specs.Listings.{code_of};
ghost use Rattle.tso_program.specs.declared.instruction.TheConstants.{REGISTERS};
ghost use Rattle.tso_program.specs.declared.limits.TheConstants.{MAX_THREADS};
ghost use Rattle.live_registers.specs.LiveRows.{is_used, is_set, falls, in_row, live_bit, shown_names, AreShown, AreLive, AreLiveTables};

use std::alloc::{AllocError, Global};
use tso_program::{Instr, Items, Names, Program, REGISTERS, Shown};

/// Whether an instruction takes the value of the register of this number.
fn is_used(instr: Instr, i: usize) -> bool
    ensures { result ≡ is_used instr i }
{
    match instr {
        Instr::Copy(_, r) => r.index() == i,
        Instr::Store(_, r) => r.index() == i,
        Instr::Xchg(_, r) => r.index() == i,
        Instr::CmpImm(r, _) => r.index() == i,
        Instr::CmpReg(r, from) => r.index() == i || from.index() == i,
        _ => false,
    }
}

/// Whether an instruction puts a value into it.
fn is_set(instr: Instr, i: usize) -> bool
    ensures { result ≡ is_set instr i }
{
    match instr {
        Instr::LoadImm(r, _) => r.index() == i,
        Instr::Copy(r, _) => r.index() == i,
        Instr::Load(r, _) => r.index() == i,
        Instr::Xchg(_, r) => r.index() == i,
        _ => false,
    }
}

/// Whether the next instruction may follow.
fn falls(instr: Instr) -> bool
    ensures { result ≡ falls instr }
{
    !matches!(instr, Instr::Jmp(_))
}

/// Whether the register is live before an instruction, from whether it is at the next one and where it jumps to.
fn live_bit(instr: Instr, i: usize, next: bool, target: bool) -> bool
    ensures { result ≡ live_bit instr i next target }
{
    let after = (falls(instr) && next) || (instr.target().is_some() && target);
    is_used(instr, i) || (!is_set(instr, i) && after)
}

/// Whether each of the six registers is live before an instruction.
fn row_before(instr: Instr, next: [bool; REGISTERS], target: [bool; REGISTERS]) -> [bool; REGISTERS]
    ensures { (i : ℕ) → i < REGISTERS → in_row result i ≡ live_bit instr i (in_row next i) (in_row target i) }
{
    let mut row = [false; REGISTERS];
    for i in 0..6 {
        row[i] = live_bit(instr, i, next[i], target[i]);
    }
    row
}

/// The row of the place that an instruction jumps to; of one that doesn't jump, this one.
fn target_row(
    instr: Instr,
    rows: &[[bool; REGISTERS]],
    next: [bool; REGISTERS],
) -> [bool; REGISTERS]
    requires { (j : ℕ) → target_of instr ≡ Some j → j < length rows.now }
    ensures { (j : ℕ) → target_of instr ≡ Some j → result ≡ slice_index_or rows.now j [] }
{
    match instr.target() {
        Some(j) => rows[j as usize],
        None => next,
    }
}

/// The instructions of a thread.
fn code_in(program: &Program, t: usize) -> &[Instr]
    requires { t < length program.now.threads }
    ensures { result.now ≡ code_of program.now.threads t }
{
    program.threads()[t].code.as_slice()
}

/// So many equal rows.
fn equal_rows(
    alloc: Global,
    row: [bool; REGISTERS],
    count: usize,
) -> Result<Vec<[bool; REGISTERS]>, AllocError>
    ensures long { IfOk result (λ rows. length rows.items ≡ count) }
    ensures each { IfOk result (λ rows. (j : ℕ) → j < count → slice_index_or rows.items j [] ≡ row) }
{
    let mut rows = Vec::new(alloc);
    for _i in 0..count {
        rows.push(row)?;
    }
    Ok(rows)
}

/// What is shown, with the registers that a formula names in the place of its truth.
fn shown_names(shown: &Shown) -> Shown
    ensures { result ≡ shown_names shown.now }
{
    match shown {
        Shown::All => Shown::All,
        Shown::Only(names) => Shown::Only(*names),
        Shown::Truth(formula) => Shown::Only(formula.with_named(Names::none())),
    }
}

/// The registers of a thread on which what is shown may depend.
pub fn shown_row(shown: &Shown, t: usize) -> [bool; REGISTERS]
    requires { t < MAX_THREADS }
    ensures { AreShown shown.now t result }
{
    let names = shown_names(shown);
    let mut row = [false; REGISTERS];
    for i in 0..6 {
        row[i] = names.shows_register(t, i);
    }
    row
}

/// What is live at each place of a thread, where these registers count at its end.
pub fn live_rows(
    alloc: Global,
    program: &Program,
    shown: &Shown,
    t: usize,
    at_end: [bool; REGISTERS],
) -> Result<Vec<[bool; REGISTERS]>, AllocError>
    requires there { t < length program.now.threads }
    requires shown { AreShown shown.now t at_end }
    ensures long { IfOk result (λ rows. length rows.items ≡ length (code_of program.now.threads t) + 1) }
    ensures exact { IfOk result (λ rows. AreLive program.now shown.now t rows.items) }
{
    let _ = shown;
    program.recall_facts();
    let code = code_in(program, t);
    let mut rows = equal_rows(alloc, at_end, code.len() + 1)?;
    for done in 0..code.len() {
        let k = code.len() - 1 - done;
        let instr = code[k];
        let target = target_row(instr, rows.as_slice(), rows[k + 1]);
        let row = row_before(instr, rows[k + 1], target);
        rows[k] = row;
    }
    Ok(rows)
}

/// A table of rows for each thread, with what is live at each of its places.
pub(crate) fn live_tables(
    alloc: Global,
    program: &Program,
    shown: &Shown,
) -> Result<Vec<Items<[bool; REGISTERS]>>, AllocError>
    ensures { IfOk result (λ tables. AreLiveTables program.now shown.now tables.items) }
{
    program.recall_facts();
    let mut tables = Vec::new(alloc);
    for t in 0..program.threads().len() {
        let at_end = shown_row(shown, t);
        let rows = live_rows(alloc, program, shown, t, at_end)?;
        tables.push(Items::of(rows))?;
    }
    Ok(tables)
}
