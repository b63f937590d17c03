//! The initial values.
ghost use Rattle.std.specs.Prelude.{◌≡◌, ◌<◌, ◌≤◌, ◌++◌, OnOk, length};
ghost use Rattle.std.specs.List.{flat_map};
ghost use Rattle.text_tokens.specs.Pieces.{text_of};
ghost use Rattle.litmus_text.specs.Spelling.{entry_pieces, initial_pieces};
ghost use Rattle.litmus_text.specs.Canonical.{location_entry, location_entries, named_entry, thread_entries, register_entries, entries_of};

use crate::words::{push_location_value, push_register_value};
use litmus_reader::{NameTable, location_name};
use std::alloc::AllocError;
use tso_program::{REGISTERS, Reg, Thread};

/// ` x=n;`
fn push_location(
    out: &mut Vec<u8>,
    names: &NameTable,
    memory: &[u32],
    location: usize,
) -> Result<(), AllocError>
    requires { location < length memory.now }
    ensures { OnOk result (out.new.items ≡ out.old.items ++ text_of (entry_pieces (location_entry names.now.locations memory.now location))) }
{
    out.push(b' ')?;
    push_location_value(out, location_name(names, location), memory[location])?;
    out.push(b';')?;
    Ok(())
}

fn push_locations(out: &mut Vec<u8>, names: &NameTable, memory: &[u32]) -> Result<(), AllocError>
    ensures { OnOk result (out.new.items ≡ out.old.items ++ text_of (flat_map entry_pieces (location_entries names.now.locations memory.now))) }
{
    for location in 0..memory.len() {
        push_location(out, names, memory, location)?;
    }
    Ok(())
}

/// ` t:REG=n;`, if the register is named.
fn push_named(
    out: &mut Vec<u8>,
    names: &NameTable,
    thread: usize,
    values: [u32; REGISTERS],
    register: Reg,
) -> Result<(), AllocError>
    requires { thread ≤ 255 }
    ensures { OnOk result (out.new.items ≡ out.old.items ++ text_of (flat_map entry_pieces (named_entry names.now thread values register))) }
{
    if names.is_named(thread, register) {
        let value = values[register.index()];
        out.push(b' ')?;
        push_register_value(out, thread as u32, register, value)?;
        out.push(b';')?;
    }
    Ok(())
}

/// The named registers of a thread.
fn push_thread(
    out: &mut Vec<u8>,
    names: &NameTable,
    thread: usize,
    values: [u32; REGISTERS],
) -> Result<(), AllocError>
    requires { thread ≤ 255 }
    ensures { OnOk result (out.new.items ≡ out.old.items ++ text_of (flat_map entry_pieces (thread_entries names.now thread values))) }
{
    for register in Reg::ALL {
        push_named(out, names, thread, values, register)?;
    }
    Ok(())
}

fn push_registers(
    out: &mut Vec<u8>,
    names: &NameTable,
    threads: &[Thread],
) -> Result<(), AllocError>
    requires { length threads.now ≤ 255 }
    ensures { OnOk result (out.new.items ≡ out.old.items ++ text_of (flat_map entry_pieces (register_entries names.now 0 threads.now))) }
{
    for (t, thread) in threads.iter().enumerate() {
        push_thread(out, names, t, thread.registers)?;
    }
    Ok(())
}

/// The initial values of all locations, and of the registers that the text names.
pub fn push_initial(
    out: &mut Vec<u8>,
    names: &NameTable,
    threads: &[Thread],
    memory: &[u32],
) -> Result<(), AllocError>
    requires { length threads.now ≤ 255 }
    ensures { OnOk result (out.new.items ≡ out.old.items ++ text_of (initial_pieces (entries_of names.now (record { threads = threads.now; memory = memory.now })))) }
{
    out.push(b'{')?;
    push_locations(out, names, memory)?;
    push_registers(out, names, threads)?;
    out.extend_from_slice(b" }\n")?;
    Ok(())
}
