//! Which names a text has.
ghost use Rattle.std.specs.Prelude.{◌≡◌, OnOk, IfOk, map, fold};
ghost use Rattle.std.specs.List.{flat_map};
ghost use Rattle.litmus_syntax.specs.Views.{place_view, ending_view, entry_view, code_view, cell_view, row_view, body_view, sign_view, sign_at_view};
ghost use Rattle.litmus_reader.specs.Internal.Filling.{no_names, noted};
ghost use Rattle.litmus_reader.specs.Places.{names_of, entry_place, code_places, cell_places, row_places, sign_places};

use crate::names::NameTable;
use litmus_syntax::{Body, Cell, Code, Ending, Entry, Place, Sign, SignAt};
use std::alloc::{AllocError, Global};

fn note_entries(
    alloc: Global,
    names: &mut NameTable,
    entries: &[Entry<'_>],
) -> Result<(), AllocError>
    ensures { OnOk result (names.new ≡ fold noted names.old (map entry_place (map entry_view entries.now))) }
{
    for entry in entries {
        names.note(alloc, entry.place)?;
    }
    Ok(())
}

/// What an instruction of a thread names.
fn note_code(
    alloc: Global,
    names: &mut NameTable,
    thread: usize,
    code: Code<'_>,
) -> Result<(), AllocError>
    ensures { OnOk result (names.new ≡ fold noted names.old (code_places thread (code_view code.entry))) }
{
    match code {
        Code::LoadImm(register, _) => names.note_register(thread, register),
        Code::Copy(register, from) => {
            names.note_register(thread, register);
            names.note_register(thread, from);
        }
        Code::Load(register, name) => {
            names.note_register(thread, register);
            names.note_location(alloc, name)?;
        }
        Code::StoreImm(name, _) => names.note_location(alloc, name)?,
        Code::Store(name, register) | Code::Xchg(name, register) => {
            names.note_location(alloc, name)?;
            names.note_register(thread, register);
        }
        Code::CmpImm(register, _) => names.note_register(thread, register),
        Code::CmpReg(register, other) => {
            names.note_register(thread, register);
            names.note_register(thread, other);
        }
        Code::Fence | Code::Je(_) | Code::Jne(_) | Code::Jmp(_) => {}
    }
    Ok(())
}

fn note_cell(
    alloc: Global,
    names: &mut NameTable,
    thread: usize,
    cell: &Cell<'_>,
) -> Result<(), AllocError>
    ensures { OnOk result (names.new ≡ fold noted names.old (cell_places thread (cell_view cell.now))) }
{
    match cell.code {
        Some(code) => note_code(alloc, names, thread, code),
        None => Ok(()),
    }
}

/// What the cells of a row name.
fn note_row(alloc: Global, names: &mut NameTable, row: &[Cell<'_>]) -> Result<(), AllocError>
    ensures { OnOk result (names.new ≡ fold noted names.old (row_places (map cell_view row.now))) }
{
    for (thread, cell) in row.iter().enumerate() {
        note_cell(alloc, names, thread, cell)?;
    }
    Ok(())
}

fn note_rows(alloc: Global, names: &mut NameTable, rows: &[Vec<Cell<'_>>]) -> Result<(), AllocError>
    ensures { OnOk result (names.new ≡ fold noted names.old (flat_map row_places (map row_view rows.now))) }
{
    for row in rows {
        note_row(alloc, names, row.as_slice())?;
    }
    Ok(())
}

/// What a sign of the condition names.
fn note_sign(alloc: Global, names: &mut NameTable, sign: Sign<'_>) -> Result<(), AllocError>
    ensures { OnOk result (names.new ≡ fold noted names.old (sign_places (sign_view sign.entry))) }
{
    match sign {
        Sign::Atom(place, _) => names.note(alloc, place),
        _ => Ok(()),
    }
}

fn note_signs(alloc: Global, names: &mut NameTable, signs: &[SignAt<'_>]) -> Result<(), AllocError>
    ensures { OnOk result (names.new ≡ fold noted names.old (flat_map sign_places (map sign_at_view signs.now))) }
{
    for sign in signs {
        note_sign(alloc, names, sign.sign)?;
    }
    Ok(())
}

/// The places that are to be shown.
fn note_places(alloc: Global, names: &mut NameTable, places: &[Place<'_>]) -> Result<(), AllocError>
    ensures { OnOk result (names.new ≡ fold noted names.old (map place_view places.now)) }
{
    for place in places {
        names.note(alloc, *place)?;
    }
    Ok(())
}

/// Each name of a text is named.
fn note_all(
    alloc: Global,
    names: &mut NameTable,
    body: &Body<'_>,
    ending: &Ending<'_>,
) -> Result<(), AllocError>
    requires { names.old ≡ no_names body.now.threads }
    ensures { OnOk result (names.new ≡ names_of (body_view body.now) (ending_view ending.now)) }
{
    note_entries(alloc, names, body.entries.as_slice())?;
    note_rows(alloc, names, body.rows.as_slice())?;
    note_places(alloc, names, ending.observed.as_slice())?;
    note_signs(alloc, names, ending.signs.signs.as_slice())?;
    Ok(())
}

/// The names of a text: of its initial values, of its rows, behind `locations`, of its condition.
pub fn names_of(
    alloc: Global,
    body: &Body<'_>,
    ending: &Ending<'_>,
) -> Result<NameTable, AllocError>
    ensures { IfOk result (λ names. names ≡ names_of (body_view body.now) (ending_view ending.now)) }
{
    let mut names = NameTable::new(alloc, body.threads)?;
    note_all(alloc, &mut names, body, ending)?;
    Ok(names)
}
