//! The names of a text.
ghost use Rattle.std.specs.Prelude.{◌≡◌, [], true, IfOk, OnOk, option_map, slice_get, slice_index_or, length};
ghost use Rattle.tso_program.specs.Instructions.{number};
ghost use Rattle.litmus_syntax.specs.Views.{place_view};
ghost use Rattle.litmus_reader.specs.Names.{with_name, is_named, register_name};
ghost use Rattle.litmus_reader.specs.Internal.Filling.{no_names, noted, with_put, byte_in};

use indexmap::IndexSet;
use litmus_syntax::Place;
use std::alloc::{AllocError, Global};
use std::marker::Model;
use tso_program::{REGISTERS, Reg};

/// The names of a text: its locations by number, and which registers of each thread it names.
#[derive(Drop)]
pub struct NameTable {
    locations: IndexSet<Vec<u8>>,
    registers: Vec<[bool; REGISTERS]>,
}

impl Model for NameTable {
    ghost use Rattle.litmus_reader.specs.Names.{TextNames};
    ghost use Rattle.litmus_reader.specs.Internal.Filling.{texts};

    ghost Value = { TextNames };

    ghost view = { λ t. record { locations = texts t.locations.keys; registers = t.registers.items } };
}

impl NameTable {
    /// The table of a text of so many threads that names nothing.
    pub(crate) fn new(alloc: Global, threads: usize) -> Result<NameTable, AllocError>
        ensures { IfOk result (λ names. names ≡ no_names threads) }
    {
        Ok(NameTable {
            locations: IndexSet::new(alloc),
            registers: vec![in alloc; [false; REGISTERS]; threads]?,
        })
    }

    /// A location is named.
    pub(crate) fn note_location(&mut self, alloc: Global, name: &[u8]) -> Result<(), AllocError>
        ensures { OnOk result (self.new ≡ record self.old { locations = with_name self.old.locations name.now }) }
    {
        if !self.locations.contains(name) {
            let own = Vec::from_slice(alloc, name)?;
            self.locations.insert(own)?;
        }
        Ok(())
    }

    /// A thread's register is named. A thread that isn't there has none.
    pub(crate) fn note_register(&mut self, thread: usize, register: Reg)
        ensures { self.new ≡ record self.old { registers = with_put self.old.registers thread (number register) true } }
    {
        if let Some(named) = self.registers.get_mut(thread) {
            named[register.index()] = true;
        }
    }

    /// A place is named.
    pub(crate) fn note(&mut self, alloc: Global, place: Place<'_>) -> Result<(), AllocError>
        ensures { OnOk result (self.new ≡ noted self.old (place_view place.entry)) }
    {
        match place {
            Place::Location(name) => self.note_location(alloc, name),
            Place::Register(thread, register) => {
                self.note_register(thread as usize, register);
                Ok(())
            }
        }
    }

    /// The number of a location that the text names; 255 from the 256th on.
    pub(crate) fn number(&self, name: &[u8]) -> u8
        ensures { result ≡ byte_in self.now.locations name.now }
    {
        let number = self.locations.get_index_of(name).unwrap_or(0);
        u8::try_from(number).unwrap_or(u8::MAX)
    }

    /// How many locations the text names.
    pub fn locations(&self) -> usize
        ensures { result ≡ length self.now.locations }
    {
        self.locations.len()
    }

    /// The name of the location with this number.
    pub fn location(&self, number: usize) -> Option<&[u8]>
        ensures { option_map (λ name. name.now) result ≡ slice_get self.now.locations number }
    {
        let name = self.locations.get_index(number)?;
        Some(name.as_slice())
    }

    /// Whether the text names the thread's register. It names none of a thread that isn't there.
    pub fn is_named(&self, thread: usize, register: Reg) -> bool
        ensures { result ≡ is_named self.now thread register }
    {
        match self.registers.get(thread) {
            Some(named) => named[register.index()],
            None => false,
        }
    }
}

/// The register's name, in capitals.
pub fn register_name(register: Reg) -> &'static str
    ensures { result.now ≡ register_name register }
{
    match register {
        Reg::Eax => "EAX",
        Reg::Ebx => "EBX",
        Reg::Ecx => "ECX",
        Reg::Edx => "EDX",
        Reg::Esi => "ESI",
        Reg::Edi => "EDI",
    }
}

/// The name of the location with this number; no bytes where the text has no such location.
pub fn location_name(names: &NameTable, number: usize) -> &[u8]
    ensures { result.now ≡ slice_index_or names.now.locations number [] }
{
    match names.location(number) {
        Some(name) => name,
        None => b"",
    }
}
