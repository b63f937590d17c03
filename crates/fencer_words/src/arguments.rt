//! The values of parameters, as `clap` has read them.

ghost use Rattle.std.specs.Prelude.{◌≡◌, false, IfOk, codes, map, option_map, string_bytes, unwrap_or};
ghost use Rattle.clap.specs.Words.{all_of, first_of, found_of, rows_of};
ghost use Rattle.fencer_words.specs.CommandLines.{has_value, is_flagged, kind_in, model_in, text_in, trees_in, AreWorkers};

use cert_trees::Rule;
use clap::ArgMatches;
use std::alloc::{AllocError, Global};
use tso_machine::Model;
use tso_program::{MAX_WORKERS, ShownKind};

/// The first value of an argument.
pub fn value_of<'a>(matches: &ArgMatches<'a>, id: &str) -> Option<&'a str>
    ensures { option_map (λ value. value.now) result ≡ first_of id.now (rows_of (found_of matches.now)) }
{
    matches.get_str(id)
}

/// All values of an argument.
pub fn values_of<'m, 'a>(matches: &'m ArgMatches<'a>, id: &str) -> Option<&'m [&'a str]>
    ensures { option_map (λ values. map (λ value. value.now) values.now) result ≡ all_of id.now (rows_of (found_of matches.now)) }
{
    matches.get_strs(id)
}

/// The value of an argument that has one.
pub fn value_in<'a>(matches: &ArgMatches<'a>, id: &str) -> &'a str
    ensures { result.now ≡ text_in id.now (rows_of (found_of matches.now)) }
{
    value_of(matches, id).unwrap_or("")
}

/// The value of an argument that must be given.
pub fn text_in(alloc: Global, matches: &ArgMatches<'_>, id: &str) -> Result<String, AllocError>
    ensures { IfOk result (λ text. string_bytes text ≡ text_in id.now (rows_of (found_of matches.now))) }
{
    String::from_str(alloc, value_in(matches, id))
}

/// The value of an argument that may be given.
pub fn text_given(
    alloc: Global,
    matches: &ArgMatches<'_>,
    id: &str,
) -> Result<Option<String>, AllocError>
    ensures { IfOk result (λ text. option_map string_bytes text ≡ first_of id.now (rows_of (found_of matches.now))) }
{
    match value_of(matches, id) {
        Some(value) => Ok(Some(String::from_str(alloc, value)?)),
        None => Ok(None),
    }
}

/// Whether an argument has this value.
pub fn has_value(matches: &ArgMatches<'_>, id: &str, wanted: &str) -> bool
    ensures { result ≡ has_value id.now wanted.now (rows_of (found_of matches.now)) }
{
    match value_of(matches, id) {
        Some(value) => value == wanted,
        None => false,
    }
}

/// Whether a flag is given.
pub fn is_flagged(matches: &ArgMatches<'_>, id: &str) -> bool
    ensures { result ≡ is_flagged id.now (rows_of (found_of matches.now)) }
{
    has_value(matches, id, "true")
}

/// What is compared of outcomes.
pub fn kind_in(matches: &ArgMatches<'_>) -> ShownKind
    ensures { result ≡ kind_in (rows_of (found_of matches.now)) }
{
    if is_flagged(matches, "condition") {
        ShownKind::Condition
    } else if is_flagged(matches, "observed") {
        ShownKind::Observed
    } else {
        ShownKind::Whole
    }
}

/// The model that is named.
pub fn model_in(matches: &ArgMatches<'_>) -> Model
    ensures { result ≡ model_in (rows_of (found_of matches.now)) }
{
    if has_value(matches, "model", "sequential") {
        Model::Sequential
    } else {
        Model::Buffered
    }
}

/// The rule of trees that is named, if one is.
pub fn trees_in(matches: &ArgMatches<'_>) -> Option<Rule>
    ensures { result ≡ trees_in (rows_of (found_of matches.now)) }
{
    if has_value(matches, "trees", "whole") {
        Some(Rule::Whole)
    } else if has_value(matches, "trees", "early") {
        Some(Rule::Early)
    } else {
        None
    }
}

/// The number that a text names, among those of workers.
pub fn workers_of(text: &str) -> u8
    ensures { AreWorkers text.now result }
{
    match text.parse::<u8>() {
        Ok(workers) => workers.clamp(1, MAX_WORKERS),
        Err(_) => 1,
    }
}
