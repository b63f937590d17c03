//! Laws of what litmus texts stand for.
ghost use Rattle.litmus_reader.specs.Example.{StoreBuffering, NamesStoreBuffering};
ghost use Rattle.litmus_reader.specs.Laws.{NamesFewLocations};

/// A text that stands for a program names at most `MAX_LOCATIONS` locations, so that their numbers are bytes.
pub fn texts_name_few_locations()
    ensures { NamesFewLocations }
{}

/// Store buffering, as tokens, stands for two threads that store to one location and load the other.
pub fn store_buffering_is_read()
    ensures tokens { StoreBuffering }
    ensures first_line { NamesStoreBuffering }
{}
