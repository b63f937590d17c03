//! What a litmus text asks to be shown.
ghost use Rattle.std.specs.Prelude.{◌≡◌, ◌≢◌, MatchResult};
ghost use Rattle.tso_program.specs.declared.shown.Shown.TheVariants.{All};
ghost use Rattle.tso_program.specs.declared.shown.ShownKind.TheVariants.{Condition};
ghost use Rattle.litmus_reader.specs.Shown.{with_place, with_places, shown_as, shown_by, ShowsNamedRegisters, ShowsNamedLocations};

use crate::litmus::Litmus;
use crate::observed::Observed;
use conditions::{Formula, with_location, with_register};
use std::alloc::AllocError;
use tso_program::{Names, Shown, ShownKind};

fn with_place(names: Names, place: Observed) -> Names
    ensures { result ≡ with_place names place }
{
    match place {
        Observed::Location(location) => with_location(names, location),
        Observed::Register(thread, register) => with_register(names, thread, register),
    }
}

fn with_places(names: Names, places: &[Observed]) -> Names
    ensures { result ≡ with_places names places.now }
{
    let mut all = names;
    for place in places {
        all = with_place(all, *place);
    }
    all
}

/// What a formula and observed places name.
fn shown_by(formula: &Formula, observed: &[Observed]) -> Shown
    ensures { result ≡ shown_by formula.now observed.now }
{
    let names = formula.with_named(Names::none());
    Shown::Only(with_places(names, observed))
}

impl<P> Litmus<P> {
    /// The registers and locations that the condition and `locations` name. Takes no memory.
    pub fn shown(&self) -> Shown
        ensures value { result ≡ shown_by self.now.condition.formula self.now.observed }
        ensures only { result ≢ All }
        ensures registers { ShowsNamedRegisters self.now.condition.formula self.now.observed result }
        ensures locations { ShowsNamedLocations self.now.condition.formula self.now.observed result }
    {
        shown_by(&self.condition.formula, self.observed.as_slice())
    }

    /// What is shown of outcomes: all of them, what [`Litmus::shown`] gives, or whether the condition's formula is
    /// true. The formula is shared, and refused where the count of its copies is full; nothing else is refused.
    pub fn shown_as(&self, kind: ShownKind) -> Result<Shown, AllocError>
        ensures { MatchResult result (λ shown. shown ≡ shown_as self.now kind) (λ _. kind ≡ Condition) }
    {
        match kind {
            ShownKind::Whole => Ok(Shown::All),
            ShownKind::Observed => Ok(self.shown()),
            ShownKind::Condition => Ok(Shown::Truth(self.condition.formula.copy()?)),
        }
    }
}
