//! What is shown of an outcome.
ghost use Rattle.std.specs.Prelude.{◌≡◌, ◌↔◌, ◌<◌, IsTrue, MatchResult, length};
ghost use Rattle.std.specs.FinSet as set;
ghost use Rattle.tso_program.specs.Instructions.{number};
ghost use Rattle.gap_sets.specs.Gaps.{numbers_of_set};
ghost use Rattle.tso_program.specs.Names.{register_place, location_place, ArePlaces};
ghost use Rattle.tso_program.specs.declared.instruction.TheConstants.{REGISTERS};
ghost use Rattle.tso_program.specs.declared.limits.TheConstants.{MAX_THREADS, MAX_LOCATIONS};
ghost use Rattle.tso_program.specs.declared.shown.TheConstants.{PLACES};
ghost use Rattle.tso_program.specs.Shown.{shows_register, shows_location, value_if, shown_registers, shown_value, ShowsValues};

use crate::{Formula, MAX_LOCATIONS, MAX_THREADS, REGISTERS, Reg};
use gap_sets::{GapSet, Gaps};
use std::alloc::AllocError;
use std::marker::Model;

/// How many places of registers there are.
pub const REGISTER_PLACES: usize = REGISTERS * MAX_THREADS;
/// How many places of registers and of locations there are.
pub const PLACES: usize = REGISTER_PLACES + MAX_LOCATIONS;

/// A set of registers, each of a thread, and of locations. No call of it takes memory.
#[derive(Clone, Copy)]
pub struct Names {
    /// By their places, of which there are `PLACES`: those of registers by thread and number, then those of
    /// locations.
    places: GapSet,
}

impl Model for Names {
    ghost use Rattle.std.specs.FinSet as set;
    ghost use Rattle.std.specs.Ordering.{nat_cmp};
    ghost use Rattle.std.specs.Coded.{coded_ℕ};
    ghost use Rattle.tso_program.specs.Names.{ArePlaces};

    ghost Value = { set.FinSet nat_cmp };

    ghost coded = { set.code coded_ℕ };

    ghost view = { λ names. names.places };

    ghost invariant = { λ names. ArePlaces names.places };

    ghost inverse = { λ places. record { places = places } };
}

/// What is shown of an outcome.
#[derive(Drop)]
pub enum Shown {
    /// Each register and each location.
    All,
    /// These alone.
    Only(Names),
    /// Whether this formula is true.
    Truth(Formula),
}

/// The kinds of what is shown.
#[derive(Clone, Copy)]
pub enum ShownKind {
    /// Whole outcomes.
    Whole,
    /// The values that a test names.
    Observed,
    /// Whether a test's formula is true.
    Condition,
}

fn register_place(t: usize, register: usize) -> usize
    requires thread { t < MAX_THREADS }
    requires register { register < REGISTERS }
    ensures { result ≡ register_place t register }
{
    REGISTERS * t + register
}

fn location_place(location: usize) -> usize
    requires { location < MAX_LOCATIONS }
    ensures { result ≡ location_place location }
{
    REGISTER_PLACES + location
}

impl Names {
    /// No register and no location.
    pub fn none() -> Names
        ensures { result ≡ set.empty }
    {
        Names {
            places: GapSet::empty(),
        }
    }

    /// These and register r of thread t.
    pub fn with_register(self, t: u8, r: Reg) -> Names
        requires { t < MAX_THREADS }
        ensures { result ≡ set.insert self (register_place t (number r)) }
    {
        let place = register_place(t as usize, r.index());
        Names {
            places: self.places.with(place as u8),
        }
    }

    /// These and location l.
    pub fn with_location(self, l: u8) -> Names
        requires { l < MAX_LOCATIONS }
        ensures { result ≡ set.insert self (location_place l) }
    {
        let place = location_place(l as usize);
        Names {
            places: self.places.with(place as u8),
        }
    }

    /// Whether register r of thread t is among them.
    pub fn has_register(&self, t: u8, r: Reg) -> bool
        requires { t < MAX_THREADS }
        ensures { result ≡ set.contains self.now (register_place t (number r)) }
    {
        let place = register_place(t as usize, r.index());
        self.places.has(place as u8)
    }

    /// Whether location l is among them.
    pub fn has_location(&self, l: u8) -> bool
        requires { l < MAX_LOCATIONS }
        ensures { result ≡ set.contains self.now (location_place l) }
    {
        let place = location_place(l as usize);
        self.places.has(place as u8)
    }

    /// These and the register or location at a place: register r of thread t is at `REGISTERS * t + r`, location l
    /// at `REGISTER_PLACES + l`.
    pub fn with_place(self, place: u8) -> Names
        requires { place < PLACES }
        ensures { result ≡ set.insert self place }
    {
        Names {
            places: self.places.with(place),
        }
    }

    /// Their places, ascending.
    pub fn places(&self) -> Gaps
        ensures value { result ≡ numbers_of_set self.now }
        ensures below { ArePlaces self.now }
    {
        self.places.iter()
    }

    /// Whether they are the same.
    pub fn same(&self, other: &Names) -> bool
        ensures { IsTrue result ↔ (self.now ≡ other.now) }
    {
        self.places.same(&other.places)
    }
}

impl Shown {
    /// Whether both show the same.
    pub fn same(&self, other: &Shown) -> bool
        ensures { IsTrue result ↔ (self.now ≡ other.now) }
    {
        match (self, other) {
            (Shown::All, Shown::All) => true,
            (Shown::Only(names), Shown::Only(others)) => names.same(others),
            (Shown::Truth(formula), Shown::Truth(other)) => formula.same(other),
            _ => false,
        }
    }

    /// A copy of what is shown. A formula is shared, and refused where the count of its copies is full; nothing else is
    /// refused.
    pub fn copy(&self) -> Result<Shown, AllocError>
        ensures { MatchResult result (λ other. other ≡ self.now) (λ _. ¬ ShowsValues self.now) }
    {
        match self {
            Shown::All => Ok(Shown::All),
            Shown::Only(names) => Ok(Shown::Only(*names)),
            Shown::Truth(formula) => Ok(Shown::Truth(formula.copy()?)),
        }
    }

    /// Whether the register of this number of thread t is shown.
    pub fn shows_register(&self, t: usize, register: usize) -> bool
        requires { register < REGISTERS }
        ensures { result ≡ shows_register self.now t register }
    {
        match self {
            Shown::All => true,
            Shown::Only(names) => {
                t < MAX_THREADS && names.places.has(register_place(t, register) as u8)
            }
            Shown::Truth(_) => false,
        }
    }

    /// Whether the location is shown.
    pub fn shows_location(&self, location: usize) -> bool
        ensures { result ≡ shows_location self.now location }
    {
        match self {
            Shown::All => true,
            Shown::Only(names) => {
                location < MAX_LOCATIONS && names.places.has(location_place(location) as u8)
            }
            Shown::Truth(_) => false,
        }
    }

    /// What is shown of the registers of thread t: 0 in place of each other one.
    pub fn registers(&self, t: usize, held: [u32; REGISTERS]) -> [u32; REGISTERS]
        ensures { result ≡ shown_registers self.now t held }
    {
        let mut left = held;
        for r in 0..6 {
            left[r] = value_if(self.shows_register(t, r), held[r]);
        }
        left
    }

    /// What is shown of a location's value: 0 where it isn't shown.
    pub fn value(&self, location: usize, held: u32) -> u32
        ensures { result ≡ shown_value self.now location held }
    {
        value_if(self.shows_location(location), held)
    }
}

fn value_if(shows: bool, value: u32) -> u32
    ensures { result ≡ value_if shows value }
{
    if shows { value } else { 0 }
}
