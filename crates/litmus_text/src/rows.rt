//! The header row and the rows of instructions.
ghost use Rattle.std.specs.Prelude.{◌≡◌, ◌<◌, ◌≤◌, ◌+◌, ◌++◌, [], OnOk, codes, length, if◌then◌else◌, nat_lt};
ghost use Rattle.std.specs.List.{flat_map};
ghost use Rattle.text_tokens.specs.Pieces.{text_of};
ghost use Rattle.tso_program.specs.Listings.{instr_at};
ghost use Rattle.tso_program.specs.Fences.{gaps_in};
ghost use Rattle.litmus_text.specs.Spelling.{bar, cell_pieces, row_pieces, header_pieces, column_pieces};
ghost use Rattle.litmus_text.specs.Canonical.{own_labels, moved_labels, cell_of, row_of, rows_of, cell_count, most_cells};
ghost use Rattle.tso_program.specs.declared.limits.TheConstants.{MAX_FENCED_INSTRUCTIONS};

use crate::code::push_code;
use crate::labels::{has_label, push_labels};
use crate::words::{push_gap, push_number};
use gap_sets::GapSet;
use litmus_reader::Litmus;
use std::alloc::AllocError;
use tso_program::{FencedProgram, Instr, Program, Thread};

/// ` | `, if a column stands before this one.
fn push_bar(out: &mut Vec<u8>, column: usize) -> Result<(), AllocError>
    ensures { OnOk result (out.new.items ≡ out.old.items ++ (if nat_lt 0 column then text_of bar else [])) }
{
    if column > 0 {
        out.extend_from_slice(b" | ")?;
    }
    Ok(())
}

/// `Pt`
fn push_column(out: &mut Vec<u8>, t: u32) -> Result<(), AllocError>
    ensures { OnOk result (out.new.items ≡ out.old.items ++ text_of (column_pieces t)) }
{
    out.push(b'P')?;
    push_number(out, t)
}

/// `P0 | P1 | .. ;`
pub fn push_header(out: &mut Vec<u8>, threads: usize) -> Result<(), AllocError>
    requires { threads ≤ 255 }
    ensures { OnOk result (out.new.items ≡ out.old.items ++ text_of (header_pieces threads)) }
{
    for t in 0..threads {
        push_bar(out, t)?;
        push_column(out, t as u32)?;
    }
    out.extend_from_slice(b" ;\n")?;
    Ok(())
}

/// Instruction k of thread t, if there is one.
fn instr_at(threads: &[Thread], t: usize, k: usize) -> Option<Instr>
    ensures { result ≡ instr_at threads.now t k }
{
    match threads.get(t) {
        Some(thread) => thread.code.as_slice().get(k).copied(),
        None => None,
    }
}

/// The cell of thread t in row k: the labels at its place, and its instruction.
fn push_cell(
    out: &mut Vec<u8>,
    litmus: &Litmus<Program>,
    gaps: &GapSet,
    threads: &[Thread],
    k: usize,
    t: usize,
) -> Result<(), AllocError>
    requires small { k ≤ 255 }
    requires few { length threads.now ≤ 255 }
    requires thread { t < length threads.now }
    ensures { OnOk result (out.new.items ≡ out.old.items ++ text_of (cell_pieces (cell_of litmus.now.names.locations
        (moved_labels (gaps_in litmus.now.program gaps.now) 0 litmus.now.labels) threads.now k t))) }
{
    let labels = push_labels(out, litmus, gaps, t as u8, k as u8)?;
    match instr_at(threads, t, k) {
        Some(code) => {
            push_gap(out, labels)?;
            push_code(out, litmus, gaps, t as u8, code)
        }
        None => Ok(()),
    }
}

fn push_row(
    out: &mut Vec<u8>,
    litmus: &Litmus<Program>,
    gaps: &GapSet,
    threads: &[Thread],
    k: usize,
) -> Result<(), AllocError>
    requires small { k ≤ 255 }
    requires few { length threads.now ≤ 255 }
    ensures { OnOk result (out.new.items ≡ out.old.items ++ text_of (row_pieces (row_of litmus.now.names.locations
        (moved_labels (gaps_in litmus.now.program gaps.now) 0 litmus.now.labels) threads.now k))) }
{
    for t in 0..threads.len() {
        push_bar(out, t)?;
        push_cell(out, litmus, gaps, threads, k, t)?;
    }
    out.extend_from_slice(b" ;\n")?;
    Ok(())
}

/// How many cells thread t has.
fn cell_count(litmus: &Litmus<Program>, gaps: &GapSet, thread: &Thread, t: u8) -> usize
    requires { length thread.now.code ≤ MAX_FENCED_INSTRUCTIONS }
    ensures value { result ≡ cell_count (own_labels (moved_labels (gaps_in litmus.now.program gaps.now) 0 litmus.now.labels) t) thread.now }
    ensures few { result ≤ MAX_FENCED_INSTRUCTIONS + 1 }
{
    let len = thread.code.len();
    if has_label(litmus, gaps, t, len as u8) {
        len + 1
    } else {
        len
    }
}

/// How many cells the thread with most of them has.
fn most_cells(litmus: &Litmus<Program>, gaps: &GapSet, fenced: &FencedProgram) -> usize
    ensures value { result ≡ most_cells (moved_labels (gaps_in litmus.now.program gaps.now) 0 litmus.now.labels) 0 fenced.now.threads }
    ensures few { result ≤ MAX_FENCED_INSTRUCTIONS + 1 }
{
    let mut most = 0;
    for (t, thread) in fenced.threads().iter().enumerate() {
        most = most.max(cell_count(litmus, gaps, thread, t as u8));
    }
    most
}

pub fn push_rows(
    out: &mut Vec<u8>,
    litmus: &Litmus<Program>,
    gaps: &GapSet,
    fenced: &FencedProgram,
) -> Result<(), AllocError>
    ensures { OnOk result (out.new.items ≡ out.old.items ++ text_of (flat_map row_pieces (rows_of litmus.now.names.locations
        (moved_labels (gaps_in litmus.now.program gaps.now) 0 litmus.now.labels) fenced.now.threads))) }
{
    let threads = fenced.threads();
    for k in 0..most_cells(litmus, gaps, fenced) {
        push_row(out, litmus, gaps, threads, k)?;
    }
    Ok(())
}
