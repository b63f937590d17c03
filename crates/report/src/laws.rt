//! Laws of what is printed: each function's contract is a law, and calling it does nothing.
ghost use Rattle.report.specs.Laws.{ObservationsAreTold};
ghost use Rattle.report.specs.Places.{PrintedPlacesAreTheGaps};

/// What each observation and each condition says, outcome by outcome, and what they say of no outcomes.
pub fn observations_are_told()
    ensures { ObservationsAreTold }
{}

/// The place that is printed for a gap is the place of its number.
pub fn printed_places_are_the_gaps()
    ensures { PrintedPlacesAreTheGaps }
{}
