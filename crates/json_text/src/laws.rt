//! The laws: each function's contract is a theorem, and calling it does nothing.
ghost use Rattle.json_text.specs.Examples.{TheExampleIsWritten};
ghost use Rattle.json_text.specs.Laws.{NoObjectClosesEarly};

/// The text of an object is that of one list of members, and no such text begins another: no object closes early.
pub fn no_object_closes_early()
    ensures { NoObjectClosesEarly }
{}

/// The definitions at an example, which has a value of each kind.
pub fn the_example_is_written()
    ensures { TheExampleIsWritten }
{}
