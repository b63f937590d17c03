//! Calls of `exec_axioms` and `run_maker`: what a sketch answers at each step of a script.
//!
//! A step is a call's name and its arguments, with `:` between them. `1` is the initial write of location 1 and `0.1` is
//! access 1 of thread 0. Each step prints a line.

use crate::made_runs::push_run;
use crate::refusal::SolverRefusal;
use exec_axioms::{Event, Kind, Mode, Sketch};
use std::alloc::{AllocError, Global};
use text_calls::{
    TextRefusal, byte_at, byte_of, gap_set_of, named, number_of, outcome_of, parts_of,
    split_at_byte, word_at,
};
use tso_program::{Outcome, Program, Shown};

/// A call of a sketch, by its name.
#[derive(Clone, Copy)]
enum SketchStep {
    New,
    Memory,
    Mode,
    Whole,
    Copy,
    FindCycle,
    Run,
    Give,
    MustEnd,
    OfNumber(Number),
    OfEvent(One),
    OfEvents(Two),
    IsEdge,
    IsCycle,
}

/// A call with a thread or a location.
#[derive(Clone, Copy)]
enum Number {
    Next,
    Values,
    Given,
    Accesses,
}

/// A call with an event.
#[derive(Clone, Copy)]
enum One {
    Access,
    Sources,
    Source,
}

/// A call with two events.
#[derive(Clone, Copy)]
enum Two {
    Choose,
    Order,
    Before,
}

const STEPS: [(&[u8], SketchStep); 21] = [
    (b"new", SketchStep::New),
    (b"memory", SketchStep::Memory),
    (b"mode", SketchStep::Mode),
    (b"whole", SketchStep::Whole),
    (b"copy", SketchStep::Copy),
    (b"find-cycle", SketchStep::FindCycle),
    (b"run", SketchStep::Run),
    (b"give", SketchStep::Give),
    (b"must-end", SketchStep::MustEnd),
    (b"next", SketchStep::OfNumber(Number::Next)),
    (b"values", SketchStep::OfNumber(Number::Values)),
    (b"given", SketchStep::OfNumber(Number::Given)),
    (b"accesses", SketchStep::OfNumber(Number::Accesses)),
    (b"access", SketchStep::OfEvent(One::Access)),
    (b"sources", SketchStep::OfEvent(One::Sources)),
    (b"source", SketchStep::OfEvent(One::Source)),
    (b"choose", SketchStep::OfEvents(Two::Choose)),
    (b"order", SketchStep::OfEvents(Two::Order)),
    (b"before", SketchStep::OfEvents(Two::Before)),
    (b"is-edge", SketchStep::IsEdge),
    (b"is-cycle", SketchStep::IsCycle),
];

/// The unions of relations, by their letters in certificates.
const KINDS: [(&[u8], Kind); 3] = [
    (b"s", Kind::Sequential),
    (b"l", Kind::Location),
    (b"g", Kind::Global),
];

/// `sequential`, or the gaps that are fenced.
fn machine_of_model(alloc: Global, word: &[u8]) -> Result<Mode, TextRefusal> {
    if word == b"sequential".as_slice() {
        return Ok(Mode::Sequential);
    }
    Ok(Mode::Fenced(gap_set_of(alloc, word)?))
}

fn event_of(word: &[u8]) -> Result<Event, TextRefusal> {
    let (first, second) = split_at_byte(word, b'.');
    let number = byte_of(first)?;
    if second.is_empty() {
        return Ok(Event::Initial(number));
    }
    Ok(Event::Access(number, byte_of(second)?))
}

fn event_at(words: &[&[u8]], index: usize) -> Result<Event, TextRefusal> {
    event_of(word_at(words, index)?)
}

/// Gives a value where the thread waits for one of that location's.
fn give(sketch: &mut Sketch, t: u8, value: u32) -> Result<bool, SolverRefusal> {
    let Some(location) = sketch.next_read(t) else {
        return Ok(false);
    };
    let values = sketch.values_for(location)?;
    if !values.as_slice().contains(&value) {
        return Ok(false);
    }
    sketch.give_value(t, value)?;
    Ok(true)
}

fn push_give(
    sketch: &mut Sketch,
    words: &[&[u8]],
    printed: &mut String,
) -> Result<(), SolverRefusal> {
    let t = byte_at(words, 0)?;
    let value = number_of(word_at(words, 1)?)?;
    match give(sketch, t, value) {
        Ok(is_given) => Ok(write!(printed, "{is_given}")?),
        Err(refusal) => Ok(write!(printed, "refused {refusal}")?),
    }
}

fn push_values(sketch: &Sketch, location: u8, printed: &mut String) -> Result<(), AllocError> {
    if usize::from(location) >= sketch.program().memory().len() {
        return Ok(());
    }
    let values = sketch.values_for(location)?;
    write!(printed, "{values:?}")
}

/// The union that has a cycle, and whether the events that are found are one.
fn push_cycle(sketch: &Sketch, printed: &mut String) -> Result<(), AllocError> {
    let Some((kind, events)) = sketch.find_cycle()? else {
        return printed.push_str("none");
    };
    let is_cycle = sketch.is_cycle(kind, events.as_slice());
    write!(printed, "{kind:?} {is_cycle}")
}

/// A copy takes the sketch's place.
fn replace(sketch: &mut Sketch) -> Result<(), AllocError> {
    *sketch = sketch.copy()?;
    Ok(())
}

/// A sketch of the same program in the same mode, in which nothing is chosen, takes the sketch's place.
fn begin_anew(alloc: Global, sketch: &mut Sketch) -> Result<(), AllocError> {
    *sketch = Sketch::new(alloc, sketch.program(), sketch.mode())?;
    Ok(())
}

/// A step with a thread or a location.
fn push_of_number(
    sketch: &Sketch,
    step: Number,
    number: u8,
    printed: &mut String,
) -> Result<(), AllocError> {
    match step {
        Number::Next => write!(printed, "{:?}", sketch.next_read(number)),
        Number::Values => push_values(sketch, number, printed),
        Number::Given => write!(printed, "{:?}", sketch.given(number)),
        Number::Accesses => write!(printed, "{}", sketch.accesses(number)),
    }
}

/// A step with an event.
fn push_of_event(
    sketch: &Sketch,
    step: One,
    event: Event,
    printed: &mut String,
) -> Result<(), AllocError> {
    match step {
        One::Access => write!(printed, "{:?}", sketch.access(event)),
        One::Sources => write!(printed, "{:?}", sketch.sources_of(event)),
        One::Source => write!(printed, "{:?}", sketch.source(event)),
    }
}

/// A step with two events.
fn push_of_events(
    sketch: &mut Sketch,
    step: Two,
    first: Event,
    second: Event,
    printed: &mut String,
) -> Result<(), AllocError> {
    match step {
        Two::Choose => write!(printed, "{:?}", sketch.choose_source(first, second)),
        Two::Order => write!(printed, "{:?}", sketch.choose_order(first, second)),
        Two::Before => write!(printed, "{}", sketch.before(first, second)),
    }
}

/// The events of the words from the second on.
fn events_of(alloc: Global, words: &[&[u8]]) -> Result<Vec<Event>, TextRefusal> {
    let mut events = Vec::new(alloc);
    for word in words.iter().skip(1) {
        events.push(event_of(word)?)?;
    }
    Ok(events)
}

/// Whether two events are an edge of a union.
fn push_is_edge(
    sketch: &Sketch,
    words: &[&[u8]],
    printed: &mut String,
) -> Result<(), SolverRefusal> {
    let kind = named(&KINDS, word_at(words, 0)?)?;
    let (from, to) = (event_at(words, 1)?, event_at(words, 2)?);
    Ok(write!(printed, "{}", sketch.is_edge(kind, from, to))?)
}

/// Whether events are a cycle of a union.
fn push_is_cycle(
    alloc: Global,
    sketch: &Sketch,
    words: &[&[u8]],
    printed: &mut String,
) -> Result<(), SolverRefusal> {
    let kind = named(&KINDS, word_at(words, 0)?)?;
    let events = events_of(alloc, words)?;
    Ok(write!(printed, "{}", sketch.is_cycle(kind, events.as_slice()))?)
}

fn push_ends(sketch: &Sketch, outcome: &Outcome, printed: &mut String) -> Result<(), AllocError> {
    let rowless = sketch.rowless()?;
    let must_end = rowless.must_end_as(&Shown::All, outcome);
    drop(rowless);
    write!(printed, "{}", must_end?)
}

/// Whether each completion ends with an outcome: a word for each thread, and one for memory.
fn push_must_end(
    alloc: Global,
    sketch: &Sketch,
    words: &[&[u8]],
    printed: &mut String,
) -> Result<(), SolverRefusal> {
    let outcome = outcome_of(alloc, words)?;
    Ok(push_ends(sketch, &outcome, printed)?)
}

fn push_step(
    alloc: Global,
    sketch: &mut Sketch,
    step: SketchStep,
    words: &[&[u8]],
    printed: &mut String,
) -> Result<(), SolverRefusal> {
    match step {
        SketchStep::New => Ok(begin_anew(alloc, sketch)?),
        SketchStep::Memory => Ok(write!(printed, "{:?}", sketch.program().memory())?),
        SketchStep::Mode => Ok(write!(printed, "{:?}", sketch.mode())?),
        SketchStep::Whole => Ok(write!(printed, "{}", sketch.is_whole())?),
        SketchStep::Copy => Ok(replace(sketch)?),
        SketchStep::FindCycle => Ok(push_cycle(sketch, printed)?),
        SketchStep::Run => push_run(alloc, sketch, printed),
        SketchStep::Give => push_give(sketch, words, printed),
        SketchStep::MustEnd => push_must_end(alloc, sketch, words, printed),
        SketchStep::OfNumber(step) => Ok(push_of_number(
            sketch,
            step,
            byte_at(words, 0)?,
            printed,
        )?),
        SketchStep::OfEvent(step) => Ok(push_of_event(sketch, step, event_at(words, 0)?, printed)?),
        SketchStep::OfEvents(step) => push_of_two(sketch, step, words, printed),
        SketchStep::IsEdge => push_is_edge(sketch, words, printed),
        SketchStep::IsCycle => push_is_cycle(alloc, sketch, words, printed),
    }
}

fn push_of_two(
    sketch: &mut Sketch,
    step: Two,
    words: &[&[u8]],
    printed: &mut String,
) -> Result<(), SolverRefusal> {
    let first = event_at(words, 0)?;
    let second = event_at(words, 1)?;
    Ok(push_of_events(sketch, step, first, second, printed)?)
}

fn push_answer(
    alloc: Global,
    sketch: &mut Sketch,
    parts: &[&[u8]],
    printed: &mut String,
) -> Result<(), SolverRefusal> {
    let Some((name, words)) = parts.split_first() else {
        return Err(TextRefusal::Call.into());
    };
    push_step(alloc, sketch, named(&STEPS, name)?, words, printed)?;
    Ok(printed.push('\n')?)
}

/// What a sketch answers at the step of a word.
fn push_of_word(
    alloc: Global,
    sketch: &mut Sketch,
    word: &[u8],
    printed: &mut String,
) -> Result<(), SolverRefusal> {
    let parts = parts_of(alloc, word, b':')?;
    push_answer(alloc, sketch, parts.as_slice(), printed)
}

/// What a sketch answers at each step, a word from the second on.
fn push_answers(
    alloc: Global,
    sketch: &mut Sketch,
    words: &[&[u8]],
    printed: &mut String,
) -> Result<(), SolverRefusal> {
    for word in words.iter().skip(1) {
        push_of_word(alloc, sketch, word, printed)?;
    }
    Ok(())
}

/// What a sketch of a program in a mode answers at each step of a script.
pub fn push_sketch(
    alloc: Global,
    words: &[&[u8]],
    program: &Program,
    printed: &mut String,
) -> Result<(), SolverRefusal> {
    let mode = machine_of_model(alloc, word_at(words, 0)?)?;
    let mut sketch = Sketch::new(alloc, program, mode)?;
    push_answers(alloc, &mut sketch, words, printed)
}
