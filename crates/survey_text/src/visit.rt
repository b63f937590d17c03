//! Which instructions the sequential runs of a program execute.

ghost use Rattle.std.specs.Prelude.{◌≡◌, ◌++◌, ℕ, List, IfOk, IfSome, OnOk, length};
ghost use Rattle.tso_program.specs.Listings.{code_of};
ghost use Rattle.survey_text.specs.Visits.{first_places, instruction_places, unexecuted, unexecuted_places, AreUnexecuted, AreVisits};

use sequential_states::SequentialStates;
use std::alloc::{AllocError, Global};
use tso_machine::Label;
use tso_program::{Items, Program};

/// An instruction of a thread, with a sequential run that executes it, unless none does.
#[derive(Drop)]
pub(crate) struct Visit {
    pub(crate) thread: u8,
    pub(crate) instruction: u8,
    pub(crate) run: Option<Items<Label>>,
}

/// How many instructions thread t has.
fn code_len(program: &Program, t: u8) -> u8
    ensures { result ≡ length (code_of program.now.threads t) }
{
    match program.threads().get(t as usize) {
        Some(thread) => thread.code.len() as u8,
        None => 0,
    }
}

/// Adds the first instructions of thread t, so many.
fn push_visits(
    alloc: Global,
    visits: &mut Vec<Visit>,
    states: &SequentialStates,
    t: u8,
    count: u8,
) -> Result<(), AllocError>
    ensures { (before : List (ℕ × ℕ)) → AreVisits states.now before visits.old.items → OnOk result (AreVisits states.now (before ++ first_places t count) visits.new.items) }
{
    for k in 0..count {
        let found = states.run_through(alloc, t, k)?;
        visits.push(Visit {
            thread: t,
            instruction: k,
            run: found,
        })?;
    }
    Ok(())
}

/// Each instruction of a program, by its thread and its number, where these are the program's states.
fn visits_among(
    alloc: Global,
    program: &Program,
    states: &SequentialStates,
) -> Result<Vec<Visit>, AllocError>
    requires { states.now ≡ program.now }
    ensures { IfOk result (λ visits. AreVisits program.now (instruction_places program.now.threads) visits.items) }
{
    let mut visits = Vec::new(alloc);
    let threads = program.threads().len() as u8;
    for t in 0..threads {
        push_visits(alloc, &mut visits, states, t, code_len(program, t))?;
    }
    Ok(visits)
}

/// Each instruction of a program, by its thread and its number.
pub(crate) fn visits_of(alloc: Global, program: &Program) -> Result<Vec<Visit>, AllocError>
    ensures { IfOk result (λ visits. AreVisits program.now (instruction_places program.now.threads) visits.items) }
{
    let states = SequentialStates::of(alloc, program)?;
    visits_among(alloc, program, &states)
}

/// The instructions that no sequential run executes, each by its thread and its number.
pub(crate) fn unexecuted_places(
    alloc: Global,
    visits: &[Visit],
) -> Result<Vec<(u8, u8)>, AllocError>
    ensures { IfOk result (λ places. places.items ≡ unexecuted_places visits.now) }
{
    let mut places = Vec::new(alloc);
    for visit in visits {
        if visit.run.is_none() {
            places.push((visit.thread, visit.instruction))?;
        }
    }
    Ok(places)
}

/// How many of the instructions no sequential run executes.
pub(crate) fn unexecuted(visits: &[Visit]) -> usize
    ensures { result ≡ unexecuted visits.now }
{
    visits.iter().filter(|visit| visit.run.is_none()).count()
}

/// The instructions that no sequential run executes, where these are the program's states.
fn unexecuted_among(
    alloc: Global,
    program: &Program,
    states: &SequentialStates,
) -> Result<Vec<(u8, u8)>, AllocError>
    requires { states.now ≡ program.now }
    ensures { IfOk result (λ places. AreUnexecuted program.now places.items) }
{
    let visits = visits_among(alloc, program, states)?;
    unexecuted_places(alloc, &visits)
}

/// The instructions that no sequential run executes, each by its thread and its number; nothing where steps from more than so
/// many states have to be followed.
pub fn unexecuted_within(
    alloc: Global,
    program: &Program,
    most: usize,
) -> Result<Option<Vec<(u8, u8)>>, AllocError>
    ensures { IfOk result (λ found. IfSome found (λ places. AreUnexecuted program.now places.items)) }
{
    match SequentialStates::within(alloc, program, most)? {
        Some(states) => Ok(Some(unexecuted_among(alloc, program, &states)?)),
        None => Ok(None),
    }
}
