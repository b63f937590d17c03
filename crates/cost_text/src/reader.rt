//! Reading a cost file.
ghost use Rattle.std.specs.Prelude.{◌≡◌, ◌<◌, ℕ, List, map, IfOk, IfErr, IfSome, IsTrue, MatchOption, MatchResult};
ghost use Rattle.std.specs.Char.{is_ascii_digit};
ghost use Rattle.std.specs.List.{list_all};
ghost use Rattle.std.specs.Str.Parse.{digits_value};
ghost use Rattle.gap_sets.specs.declared.ties.TiedCosts as tied;
ghost use Rattle.gap_sets.specs.declared.gap_set.TheConstants.{MAX_GAPS};
ghost use Rattle.tso_program.specs.Listings.{gap_number};
ghost use Rattle.cost_text.specs.declared.fault.CostTextFault.TheVariants.{OutOfMemory};
ghost use Rattle.text_tokens.specs.Bytes.{AreLineSpaces};
ghost use Rattle.cost_text.specs.CostTexts.{Entry, lines_of, IsCostText, IsLineFault, AreRefused, RefusesCosts};
ghost use Rattle.cost_text.specs.Internal.LineReading.{AreAllDigits, PlaceDigits, ReadsPlaces, place_of};
ghost use Rattle.cost_text.specs.Internal.TextReading.{digits_of, cost_or_fault, AreGathered, LacksGap, IsCostTable, IsNewEntry, IsTableOfLines};

use crate::entry::{CostEntry, PlacedGaps, costs_in, ties_in};
use crate::fault::CostTextFault;
use crate::line::{PlaceText, cost_line, place_at};
use gap_sets::{CostFault, Costs, MAX_COST, TiedCosts};
use std::alloc::{AllocError, Global};
use text_tokens::{are_line_spaces, value_up_to};
use tso_program::Program;

/// The lines of a text, between which an LF stands.
fn lines_of(alloc: Global, text: &[u8]) -> Result<Vec<&[u8]>, AllocError>
    ensures { IfOk result (λ lines. map (λ line. line.now) lines.items ≡ lines_of text.now) }
{
    text.split(|byte| *byte == b'\n').collect(alloc)
}

/// The number of the gap at a place, if the program has it.
fn gap_at(program: &Program, place: PlaceText<'_>) -> Option<u8>
    requires { AreAllDigits (digits_of place) }
    ensures value { let said = place_of (digits_of place.entry) in result ≡ gap_number program.now.threads said.thread said.instruction }
    ensures below { IfSome result (λ gap. gap < MAX_GAPS) }
{
    let threads = program.threads().len() as u64;
    let thread = value_up_to(threads, place.thread)?;
    let instruction = value_up_to(255, place.instruction)?;
    program.gap_number(thread as u8, instruction as u8)
}

/// The gaps at the places that a text begins with, after these entries; nothing if the program lacks one.
fn gaps_at(program: &Program, entries: &[CostEntry], text: &[u8]) -> Option<PlacedGaps>
    ensures { (places : List PlaceDigits) (end : List ℕ) → ReadsPlaces text.now places end
        → MatchOption result (LacksGap program.now.threads (map place_of places))
        (AreGathered program.now.threads entries.now (map place_of places)) }
{
    let mut placed = PlacedGaps::none();
    let mut rest = text;
    while let Some((place, after)) = place_at(rest) {
        let gap = gap_at(program, place)?;
        placed = placed.with(entries, gap);
        rest = after;
    }
    Some(placed)
}

/// The cost in these digits, or why the gap may not cost that.
fn cost_of(gap: u8, digits: &[u8]) -> Result<u32, CostFault>
    requires { IsTrue (list_all is_ascii_digit digits.now) }
    ensures { result ≡ cost_or_fault gap (digits_value 10 digits.now) }
{
    match value_up_to(u64::from(MAX_COST), digits) {
        Some(0) => Err(CostFault::Zero(gap)),
        Some(cost) => Ok(cost as u32),
        None => Err(CostFault::TooLarge(gap)),
    }
}

/// What a line says that comes after these entries.
fn entry_of(
    program: &Program,
    entries: &[CostEntry],
    line: &[u8],
    number: usize,
) -> Result<CostEntry, CostTextFault>
    requires some { AreLineSpaces line.now → ⊥ }
    ensures entry { IfOk result (λ found. (said : List Entry) → IsCostTable program.now.threads said entries.now → IsNewEntry program.now.threads said line.now found) }
    ensures refused { IfErr result (λ fault. (said : List Entry) → IsCostTable program.now.threads said entries.now → IsLineFault program.now.threads said line.now number fault) }
{
    let Some(said) = cost_line(line) else {
        return Err(CostTextFault::Line(number));
    };
    let Some(placed) = gaps_at(program, entries, said.places) else {
        return Err(CostTextFault::NoSuchGap(number));
    };
    if placed.is_repeated {
        return Err(CostTextFault::Repeated(number));
    }
    match cost_of(placed.name, said.cost) {
        Ok(cost) => Ok(CostEntry {
            gaps: placed.gaps,
            name: placed.name,
            cost,
        }),
        Err(fault) => Err(CostTextFault::Cost(number, fault)),
    }
}

/// What the lines say of the gaps.
fn entries_of(
    alloc: Global,
    program: &Program,
    lines: &[&[u8]],
) -> Result<Vec<CostEntry>, CostTextFault>
    ensures table { IfOk result (λ entries. IsTableOfLines program.now.threads (map (λ line. line.now) lines.now) entries.items) }
    ensures refused { IfErr result (AreRefused (map (λ line. line.now) lines.now) program.now.threads) }
{
    program.recall_facts();
    let mut entries = Vec::new(alloc);
    for (index, line) in lines.iter().enumerate() {
        if !are_line_spaces(line) {
            let entry = entry_of(program, entries.as_slice(), line, index + 1)?;
            entries.push(entry)?;
        }
    }
    Ok(entries)
}

/// What each gap of a program costs by a cost file, and which gaps go together.
///
/// The first line that cannot stand is refused, by its number. A gap without a line costs 1, and is a tie of its own.
pub fn read_costs(
    alloc: Global,
    bytes: &[u8],
    program: &Program,
) -> Result<TiedCosts, CostTextFault>
    ensures found { IfOk result (IsCostText bytes.now program.now.threads) }
    ensures only { (costs : tied.TiedCosts) → IsCostText bytes.now program.now.threads costs
        → MatchResult result (λ read. read ≡ costs) (λ fault. fault ≡ OutOfMemory) }
    ensures refused { IfErr result (RefusesCosts bytes.now program.now.threads) }
{
    let lines = lines_of(alloc, bytes)?;
    let entries = entries_of(alloc, program, lines.as_slice())?;
    let ties = ties_in(alloc, entries.as_slice(), program.gaps())?;
    let costs = costs_in(alloc, entries.as_slice(), program.gaps())?;
    match Costs::new(alloc, costs.as_slice()) {
        Ok(costs) => Ok(TiedCosts { costs, ties }),
        Err(_) => Err(CostTextFault::OutOfMemory),
    }
}
