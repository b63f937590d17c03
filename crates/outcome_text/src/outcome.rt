//! How an outcome is written.
ghost use Rattle.std.specs.Prelude.{◌≡◌, ◌++◌, IfOk, OnOk, length};
ghost use Rattle.std.specs.List.{join_with_byte};
ghost use Rattle.litmus_reader.specs.Internal.Filling.{texts};
ghost use Rattle.outcome_text.specs.Outcomes.{register_item, location_item, named_item, thread_items, register_items, shown_item, location_items, outcome_text};

use litmus_reader::{NameTable, location_name, register_name};
use std::alloc::{AllocError, Global};
use tso_program::{Outcome, Reg, Shown};

/// `t:REG=n;`
fn register_item(
    alloc: Global,
    thread: usize,
    register: Reg,
    value: u32,
) -> Result<Vec<u8>, AllocError>
    ensures { IfOk result (λ item. item.items ≡ register_item thread register value) }
{
    let name = register_name(register);
    let text = format!(in alloc; "{thread}:{name}={value};")?;
    Ok(text.into_bytes())
}

/// `x=n;`
fn location_item(alloc: Global, name: &[u8], value: u32) -> Result<Vec<u8>, AllocError>
    ensures { IfOk result (λ item. item.items ≡ location_item name.now value) }
{
    let mut item = Vec::from_slice(alloc, name)?;
    let text = format!(in alloc; "={value};")?;
    item.extend_from_slice(text.as_bytes())?;
    Ok(item)
}

/// What outcomes are printed by: the names, and what is shown.
#[derive(Clone, Copy)]
struct Legend<'a> {
    alloc: Global,
    names: &'a NameTable,
    shown: &'a Shown,
}

impl Legend<'_> {
    /// The register with its value, if it is shown and named.
    fn push_named(
        &self,
        items: &mut Vec<Vec<u8>>,
        thread: usize,
        values: [u32; 6],
        register: Reg,
    ) -> Result<(), AllocError>
        ensures { OnOk result (texts items.new.items ≡ texts items.old.items ++ named_item self.now.names.now self.now.shown.now thread values register) }
    {
        if self.shown.shows_register(thread, register.index())
            && self.names.is_named(thread, register)
        {
            let value = values[register.index()];
            items.push(register_item(self.alloc, thread, register, value)?)?;
        }
        Ok(())
    }

    /// The thread's named registers with their values.
    fn push_thread(
        &self,
        items: &mut Vec<Vec<u8>>,
        thread: usize,
        values: [u32; 6],
    ) -> Result<(), AllocError>
        ensures { OnOk result (texts items.new.items ≡ texts items.old.items ++ thread_items self.now.names.now self.now.shown.now thread values) }
    {
        for register in Reg::ALL {
            self.push_named(items, thread, values, register)?;
        }
        Ok(())
    }

    fn push_threads(
        &self,
        items: &mut Vec<Vec<u8>>,
        registers: &[[u32; 6]],
    ) -> Result<(), AllocError>
        ensures { OnOk result (texts items.new.items ≡ texts items.old.items ++ register_items self.now.names.now self.now.shown.now registers.now (length registers.now)) }
    {
        for (thread, values) in registers.iter().enumerate() {
            self.push_thread(items, thread, *values)?;
        }
        Ok(())
    }

    /// The location with its value, if it is shown.
    fn push_location(
        &self,
        items: &mut Vec<Vec<u8>>,
        location: usize,
        value: u32,
    ) -> Result<(), AllocError>
        ensures { OnOk result (texts items.new.items ≡ texts items.old.items ++ shown_item self.now.names.now self.now.shown.now location value) }
    {
        if self.shown.shows_location(location) {
            items.push(location_item(self.alloc, location_name(self.names, location), value)?)?;
        }
        Ok(())
    }

    fn push_locations(&self, items: &mut Vec<Vec<u8>>, memory: &[u32]) -> Result<(), AllocError>
        ensures { OnOk result (texts items.new.items ≡ texts items.old.items ++ location_items self.now.names.now self.now.shown.now memory.now (length memory.now)) }
    {
        for (location, value) in memory.iter().enumerate() {
            self.push_location(items, location, *value)?;
        }
        Ok(())
    }
}

/// The items with one space between two of them.
fn join(alloc: Global, items: &[Vec<u8>]) -> Result<Vec<u8>, AllocError>
    ensures { IfOk result (λ text. text.items ≡ join_with_byte 32 (texts items.now)) }
{
    let mut text = Vec::new(alloc);
    for (index, item) in items.iter().enumerate() {
        if index > 0 {
            text.push(b' ')?;
        }
        text.extend_from_slice(item.as_slice())?;
    }
    Ok(text)
}

/// An outcome as it is printed, as far as it is shown: `t:REG=n;` for each named register by thread and register order, then `x=n;` for each
/// location by number, with one space between two of them.
pub fn write_outcome(
    alloc: Global,
    names: &NameTable,
    shown: &Shown,
    outcome: &Outcome,
) -> Result<Vec<u8>, AllocError>
    ensures { IfOk result (λ text. text.items ≡ outcome_text names.now shown.now outcome.now) }
{
    let legend = Legend {
        alloc,
        names,
        shown,
    };
    let mut items = Vec::new(alloc);
    legend.push_threads(&mut items, outcome.registers.as_slice())?;
    legend.push_locations(&mut items, outcome.memory.as_slice())?;
    join(alloc, items.as_slice())
}
