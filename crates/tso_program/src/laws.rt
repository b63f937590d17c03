//! The laws of names and of what is shown: each function's contract is a theorem, and calling it does
//! nothing.
ghost use Rattle.tso_program.specs.Laws.{RegisterPlacesAreDistinct, LocationPlacesAreDistinct, RegistersLieApartFromLocations, EachPlaceIsNamed, WhatIsShownIsAlike, ShownRegistersAreKept, ShownLocationsAreKept, OtherRegistersAreZero, OtherLocationsAreZero, EachIsPartOfAll, EachIsReadOffAll, ATruthIsReadOffItsAtoms, TruthsAreTold, APartIsShownOfTheWhole, ShowingTwiceIsShowingOnce, EverythingShownIsTheOutcome};

/// No two registers or locations have one place, and each place below `PLACES` is a register's or a location's.
pub fn places_are_distinct()
    ensures registers { RegisterPlacesAreDistinct }
    ensures locations { LocationPlacesAreDistinct }
    ensures apart { RegistersLieApartFromLocations }
    ensures all { EachPlaceIsNamed }
{}

/// What is shown of an outcome keeps the registers and locations that are shown, and has 0 in place of
/// each other one.
pub fn what_is_shown_is_kept()
    ensures alike { WhatIsShownIsAlike }
    ensures registers { ShownRegistersAreKept }
    ensures locations { ShownLocationsAreKept }
    ensures other_registers { OtherRegistersAreZero }
    ensures other_locations { OtherLocationsAreZero }
{}

/// What is shown of an outcome can be read off what more shows of it.
pub fn a_part_is_shown_of_the_whole()
    ensures part { APartIsShownOfTheWhole }
    ensures of_all { EachIsPartOfAll }
    ensures off_all { EachIsReadOffAll }
    ensures twice { ShowingTwiceIsShowingOnce }
    ensures all { EverythingShownIsTheOutcome }
{}

/// A formula's truth can be read off what shows all that the formula speaks of, and is shown alike of two
/// outcomes exactly where it is the same.
pub fn a_truth_is_read_off()
    ensures off { ATruthIsReadOffItsAtoms }
    ensures told { TruthsAreTold }
{}
