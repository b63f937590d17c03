//! Outcomes.
ghost use Rattle.std.specs.Prelude.{◌≡◌, ◌++◌, IfOk, OnOk, length};
ghost use Rattle.json_values.specs.Outcomes.{named_value, register_name_at, register_value, thread_values, register_values, location_value, location_values, outcome_array, outcomes_array};

use json_text::{JsonArray, JsonObject, JsonText};
use litmus_text::{NameTable, location_name, register_name};
use std::alloc::{AllocError, Global};
use tso_program::{Outcome, Reg, Shown};

/// What a register or a location holds at the end.
fn named_value(alloc: Global, name: &[u8], value: u32) -> Result<JsonText, AllocError>
    ensures { IfOk result (λ json. json ≡ named_value name.now value) }
{
    let mut object = JsonObject::new(alloc);
    object.add("name", JsonText::string(alloc, name)?)?;
    object.add("value", JsonText::number(alloc, u64::from(value))?)?;
    object.into_json()
}

/// `t:REG`
fn register_name_at(alloc: Global, thread: usize, register: Reg) -> Result<Vec<u8>, AllocError>
    ensures { IfOk result (λ name. name.items ≡ register_name_at thread register) }
{
    let name = register_name(register);
    Ok(format!(in alloc; "{thread}:{name}")?.into_bytes())
}

/// What outcomes are written by: the names, and what is shown.
#[derive(Clone, Copy)]
struct Legend<'a> {
    alloc: Global,
    names: &'a NameTable,
    shown: &'a Shown,
}

impl Legend<'_> {
    /// The register with its value, if it is shown and named.
    fn add_register(
        &self,
        array: &mut JsonArray,
        thread: usize,
        values: [u32; 6],
        register: Reg,
    ) -> Result<(), AllocError>
        ensures { OnOk result (array.new ≡ array.old ++ register_value self.now.names.now self.now.shown.now thread values register) }
    {
        if self.shown.shows_register(thread, register.index())
            && self.names.is_named(thread, register)
        {
            let name = register_name_at(self.alloc, thread, register)?;
            array.add(named_value(self.alloc, &name, values[register.index()])?)?;
        }
        Ok(())
    }

    /// The thread's named registers with their values.
    fn add_thread(
        &self,
        array: &mut JsonArray,
        thread: usize,
        values: [u32; 6],
    ) -> Result<(), AllocError>
        ensures { OnOk result (array.new ≡ array.old ++ thread_values self.now.names.now self.now.shown.now thread values) }
    {
        for register in Reg::ALL {
            self.add_register(array, thread, values, register)?;
        }
        Ok(())
    }

    fn add_threads(&self, array: &mut JsonArray, registers: &[[u32; 6]]) -> Result<(), AllocError>
        ensures { OnOk result (array.new ≡ array.old ++ register_values self.now.names.now self.now.shown.now registers.now (length registers.now)) }
    {
        for (thread, values) in registers.iter().enumerate() {
            self.add_thread(array, thread, *values)?;
        }
        Ok(())
    }

    /// The location with its value, if it is shown.
    fn add_location(
        &self,
        array: &mut JsonArray,
        location: usize,
        value: u32,
    ) -> Result<(), AllocError>
        ensures { OnOk result (array.new ≡ array.old ++ location_value self.now.names.now self.now.shown.now location value) }
    {
        if self.shown.shows_location(location) {
            array.add(named_value(self.alloc, location_name(self.names, location), value)?)?;
        }
        Ok(())
    }

    fn add_locations(&self, array: &mut JsonArray, memory: &[u32]) -> Result<(), AllocError>
        ensures { OnOk result (array.new ≡ array.old ++ location_values self.now.names.now self.now.shown.now memory.now (length memory.now)) }
    {
        for (location, value) in memory.iter().enumerate() {
            self.add_location(array, location, *value)?;
        }
        Ok(())
    }
}

/// What is shown of an outcome: each named register by thread and register order, then each location by number.
pub fn outcome_array(
    alloc: Global,
    names: &NameTable,
    shown: &Shown,
    outcome: &Outcome,
) -> Result<JsonText, AllocError>
    ensures { IfOk result (λ json. json ≡ outcome_array names.now shown.now outcome.now) }
{
    let legend = Legend {
        alloc,
        names,
        shown,
    };
    let mut array = JsonArray::new(alloc);
    legend.add_threads(&mut array, outcome.registers.as_slice())?;
    legend.add_locations(&mut array, outcome.memory.as_slice())?;
    array.into_json()
}

/// What is shown of outcomes.
pub fn outcomes_array(
    alloc: Global,
    names: &NameTable,
    shown: &Shown,
    outcomes: &[Outcome],
) -> Result<JsonText, AllocError>
    ensures { IfOk result (λ json. json ≡ outcomes_array names.now shown.now outcomes.now) }
{
    let mut array = JsonArray::new(alloc);
    for outcome in outcomes {
        array.add(outcome_array(alloc, names, shown, outcome)?)?;
    }
    array.into_json()
}
