//! Whether two texts that are read stand for the same test.

ghost use Rattle.std.specs.Prelude.{◌≡◌, [], IsTrue, slice_index_or};
ghost use Rattle.inserted_text.specs.Internal.SameTests.{HaveSameParts, NameSameRegisters, named_registers};

use litmus_reader::{CodeLabel, Litmus, NameTable, Observed, location_name};
use tso_program::{FencedProgram, Items, REGISTERS, Reg};

fn is_same_place(one: Observed, other: Observed) -> bool
    ensures { IsTrue result → one ≡ other }
{
    match (one, other) {
        (Observed::Location(one), Observed::Location(other)) => one == other,
        (Observed::Register(one, register), Observed::Register(other, second)) => {
            one == other && register == second
        }
        _ => false,
    }
}

fn are_same_places(one: &[Observed], other: &[Observed]) -> bool
    ensures { IsTrue result → one.now ≡ other.now }
{
    if one.len() != other.len() {
        return false;
    }
    for place in 0..one.len() {
        if !is_same_place(one[place], other[place]) {
            return false;
        }
    }
    true
}

fn is_same_label(one: &CodeLabel, other: &CodeLabel) -> bool
    ensures { IsTrue result → one.now ≡ other.now }
{
    one.position == other.position && one.name == other.name
}

fn are_same_labels(one: &[CodeLabel], other: &[CodeLabel]) -> bool
    ensures { IsTrue result → one.now ≡ other.now }
{
    if one.len() != other.len() {
        return false;
    }
    for place in 0..one.len() {
        if !is_same_label(&one[place], &other[place]) {
            return false;
        }
    }
    true
}

/// Whether each thread has the same labels.
fn have_same_labels(one: &[Items<CodeLabel>], other: &[Items<CodeLabel>]) -> bool
    ensures { IsTrue result → one.now ≡ other.now }
{
    if one.len() != other.len() {
        return false;
    }
    for thread in 0..one.len() {
        if !are_same_labels(one[thread].as_slice(), other[thread].as_slice()) {
            return false;
        }
    }
    true
}

/// Whether both give the location with this number the same name.
fn name_same_location(one: &NameTable, other: &NameTable, number: usize) -> bool
    ensures { IsTrue result → slice_index_or one.now.locations number [] ≡ slice_index_or other.now.locations number [] }
{
    location_name(one, number) == location_name(other, number)
}

/// Whether both name the same locations.
fn name_same_locations(one: &NameTable, other: &NameTable) -> bool
    ensures { IsTrue result → one.now.locations ≡ other.now.locations }
{
    if one.locations() != other.locations() {
        return false;
    }
    for number in 0..one.locations() {
        if !name_same_location(one, other, number) {
            return false;
        }
    }
    true
}

/// Which registers of a thread are named.
fn named_registers(names: &NameTable, thread: usize) -> [bool; REGISTERS]
    ensures { result ≡ named_registers names.now thread }
{
    [
        names.is_named(thread, Reg::Eax),
        names.is_named(thread, Reg::Ebx),
        names.is_named(thread, Reg::Ecx),
        names.is_named(thread, Reg::Edx),
        names.is_named(thread, Reg::Esi),
        names.is_named(thread, Reg::Edi),
    ]
}

fn is_same_row(one: [bool; REGISTERS], other: [bool; REGISTERS]) -> bool
    ensures { IsTrue result → one ≡ other }
{
    one == other
}

/// Whether both name the same registers of so many threads.
fn name_same_registers(one: &NameTable, other: &NameTable, threads: usize) -> bool
    ensures { IsTrue result → NameSameRegisters threads one.now other.now }
{
    for thread in 0..threads {
        if !is_same_row(named_registers(one, thread), named_registers(other, thread)) {
            return false;
        }
    }
    true
}

/// Whether both programs have the same threads and the same initial values.
fn is_same_program(one: &FencedProgram, other: &FencedProgram) -> bool
    ensures { IsTrue result → one.now ≡ other.now }
{
    one.memory() == other.memory() && one.threads() == other.threads()
}

/// Whether both are the same test, labels and names included.
pub(crate) fn is_same_test(one: &Litmus<FencedProgram>, other: &Litmus<FencedProgram>) -> bool
    ensures { IsTrue result → HaveSameParts one.now other.now }
{
    one.name == other.name
        && is_same_program(&one.program, &other.program)
        && one.condition.same(&other.condition)
        && are_same_places(one.observed.as_slice(), other.observed.as_slice())
        && have_same_labels(one.labels.as_slice(), other.labels.as_slice())
        && name_same_locations(&one.names, &other.names)
        && name_same_registers(&one.names, &other.names, one.program.threads().len())
}
