//! Which gaps likely are one line of a source. No clause rests on it: who reads the answer may change it.
ghost use Rattle.std.specs.Prelude.{◌≡◌, IfOk, length};
ghost use Rattle.tso_program.specs.Listings.{gap_count};

use crate::alignment::{Pair, aligned, are_wholly_alike};
use crate::tries::tries_in;
use gap_sets::{Costs, TiedCosts, Ties};
use std::alloc::{AllocError, Global};
use tso_program::{Instr, Program};

/// Which threads run the same code, and whether parts of one thread may be tries of one part.
#[derive(Clone, Copy)]
pub struct SharedCode<'a> {
    /// The threads that run the same code, by their numbers. Without them those do that are wholly alike.
    pub same: Option<&'a [u8]>,
    pub tries: bool,
}

/// The name of each gap's tie so far.
#[derive(Drop)]
struct GapNames {
    names: Vec<u8>,
}

impl GapNames {
    fn new(alloc: Global, program: &Program) -> Result<GapNames, AllocError> {
        Ok(GapNames {
            names: (0..program.gaps()).collect(alloc)?,
        })
    }

    /// Two gaps go together, and with them what goes with each.
    fn join(&mut self, first: u8, second: u8) {
        let (Some(name), Some(other)) = (self.name(first), self.name(second)) else {
            return;
        };
        let (least, greatest) = if name < other {
            (name, other)
        } else {
            (other, name)
        };
        for own in &mut self.names {
            if *own == greatest {
                *own = least;
            }
        }
    }

    fn name(&self, gap: u8) -> Option<u8> {
        self.names.get(gap as usize).copied()
    }

    /// The gaps before two instructions go together, where both have one.
    fn join_places(&mut self, program: &Program, first: (u8, usize), second: (u8, usize)) {
        if let (Some(gap), Some(other)) = (gap_at(program, first), gap_at(program, second)) {
            self.join(gap, other);
        }
    }

    /// What the gaps go together by, where each of these pairs is one line.
    fn join_pairs(&mut self, program: &Program, first: u8, second: u8, pairs: &[Pair]) {
        for pair in pairs {
            self.join_places(program, (first, pair.first), (second, pair.second));
        }
    }
}

fn gap_at(program: &Program, place: (u8, usize)) -> Option<u8> {
    if place.1 > 255 {
        return None;
    }
    program.gap_number(place.0, place.1 as u8)
}

/// The instructions of a thread.
fn code_of(program: &Program, thread: u8) -> &[Instr] {
    match program.threads().get(thread as usize) {
        Some(thread) => thread.code.as_slice(),
        None => &[],
    }
}

/// The lines that these threads share go together.
fn join_same(
    alloc: Global,
    names: &mut GapNames,
    program: &Program,
    same: &[u8],
) -> Result<(), AllocError> {
    let Some(first) = same.first() else {
        return Ok(());
    };
    for second in same {
        if second != first {
            let pairs = aligned(alloc, code_of(program, *first), code_of(program, *second))?;
            names.join_pairs(program, *first, *second, &pairs);
        }
    }
    Ok(())
}

/// The lines of a thread go together with those of the first thread that is wholly alike.
fn join_like(
    alloc: Global,
    names: &mut GapNames,
    program: &Program,
    thread: u8,
) -> Result<(), AllocError> {
    for first in 0..thread {
        if are_wholly_alike(code_of(program, first), code_of(program, thread)) {
            let pairs = aligned(alloc, code_of(program, first), code_of(program, thread))?;
            names.join_pairs(program, first, thread, &pairs);
            return Ok(());
        }
    }
    Ok(())
}

/// The lines of threads that are wholly alike go together.
fn join_alike(alloc: Global, names: &mut GapNames, program: &Program) -> Result<(), AllocError> {
    for thread in 0..program.threads().len() {
        join_like(alloc, names, program, thread as u8)?;
    }
    Ok(())
}

/// The lines of tries go together, in each thread.
fn join_tries(alloc: Global, names: &mut GapNames, program: &Program) -> Result<(), AllocError> {
    for thread in 0..program.threads().len() {
        let thread = thread as u8;
        let pairs = tries_in(alloc, code_of(program, thread))?;
        names.join_pairs(program, thread, thread, &pairs);
    }
    Ok(())
}

/// What each of so many gaps costs where those of one name go together: as much as the dearest of them.
fn costs_of(alloc: Global, gaps: u8, names: &[u8], costs: &Costs) -> Result<Vec<u32>, AllocError>
    ensures { IfOk result (λ list. length list.items ≡ gaps) }
{
    (0..gaps)
        .map(|gap| dearest(names, gap, costs))
        .collect(alloc)
}

/// The most that a gap of the same name costs.
fn dearest(names: &[u8], gap: u8, costs: &Costs) -> u32 {
    let mut most = 1;
    for (other, name) in names.iter().enumerate() {
        let cost = costs.as_slice().get(other).copied().unwrap_or(1);
        if names.get(gap as usize) == Some(name) && cost > most {
            most = cost;
        }
    }
    most
}

/// The ties of these names, where they are names that gaps may have.
fn ties_of(alloc: Global, names: &[u8]) -> Result<Ties, AllocError> {
    if Ties::are_names(names) {
        Ties::new(alloc, names)
    } else {
        Ties::single(alloc)
    }
}

/// The gaps of a program that likely are one line of its source go together, each tie at the most that a gap of it costs.
pub fn likely_ties(
    alloc: Global,
    program: &Program,
    costs: &Costs,
    shared: SharedCode<'_>,
) -> Result<TiedCosts, AllocError>
    ensures one_each { IfOk result (λ tied. length tied.costs ≡ gap_count program.now.threads) }
{
    let mut names = GapNames::new(alloc, program)?;
    match shared.same {
        Some(same) => join_same(alloc, &mut names, program, same)?,
        None => join_alike(alloc, &mut names, program)?,
    }
    if shared.tries {
        join_tries(alloc, &mut names, program)?;
    }
    let list = costs_of(alloc, program.gaps(), &names.names, costs)?;
    let ties = ties_of(alloc, &names.names)?;
    match Costs::new(alloc, &list) {
        Ok(costs) => Ok(TiedCosts { costs, ties }),
        Err(_) => Err(AllocError),
    }
}
