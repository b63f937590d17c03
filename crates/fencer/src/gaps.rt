//! Gaps: the list of a program's gaps or the cost file of all of them, or why there is none.

ghost use Rattle.std.specs.Prelude.{◌≡◌, false, IfErr, IfOk, length, option_map, string_bytes};
ghost use Rattle.program_streams.specs.Streams.{Prints};
ghost use Rattle.tso_program.specs.Listings.{gap_count};
ghost use Rattle.litmus_text.specs.Texts.{IsLitmus};
ghost use Rattle.litmus_text.specs.CostTexts.{IsCostText};
ghost use Rattle.litmus_text.specs.GivenCosts.{AreGiven};
ghost use Rattle.gap_list.specs.CostFiles.{as_read, cost_file_text};
ghost use Rattle.program_streams.specs.Files.{ReadsOfInput};
ghost use Rattle.fencer.specs.GapTexts.{AreGaps, AreGapsOfTexts, HasNoGaps, IsGapText, Listed, PrintsGaps, TellsGaps, TellsGapsDocument, costs_shown, form_of};

use crate::advice::text_fault_advice;
use crate::place::text_fault_line;
use crate::tied::{tell_same, tell_ties};
use answers::{Texts, read_texts, tell_refusal, unread_advice};
use documents::{LinedLitmus, document_line, gaps_document};
use fencer_words::GapQuery;
use gap_list::{SharedCode, TextLines, cost_file, gap_list, tied_file};
use gap_sets::TiedCosts;
use litmus_text::Litmus;
use placed_text::{TextFault, read_gap_costs, read_program};
use program_streams::{Console, FileStore, TEXT_LIMIT, file_line, print};
use std::alloc::{AllocError, Global};
use std::io::Read;
use tso_program::Program;

/// The costs, where a text of them is given.
fn costs_shown<'a>(text: Option<&[u8]>, costs: &'a TiedCosts) -> Option<&'a TiedCosts>
    ensures { option_map (λ costs. costs.now) result ≡ costs_shown (option_map (λ text. text.now) text.entry) costs.now }
{
    match text {
        Some(_) => Some(costs),
        None => None,
    }
}

/// The list of the gaps, with their costs where a text of them is given.
fn listed_gaps(
    alloc: Global,
    texts: &Texts,
    source: &Litmus<Program>,
    costs: &TiedCosts,
) -> Result<Vec<u8>, AllocError>
    ensures { IfOk result (λ lines. IsGapText Listed source.now (option_map (λ text. text.items) texts.now.costs) costs.now lines.items) }
{
    let lines = TextLines::of_text(alloc, &texts.litmus)?;
    let shown = costs_shown(texts.costs.as_deref(), costs);
    gap_list(alloc, &lines, source, shown)
}

/// The cost file of all gaps, which is read as these costs.
fn template_file(
    alloc: Global,
    source: &Litmus<Program>,
    costs: &TiedCosts,
) -> Result<Vec<u8>, AllocError>
    requires one_each { length costs.now.costs ≡ gap_count source.now.program.threads }
    requires read { as_read (gap_count source.now.program.threads) costs.now ≡ costs.now }
    ensures text { IfOk result (λ lines. lines.items ≡ cost_file_text source.now.program.threads costs.now) }
    ensures read { IfOk result (λ lines. IsCostText lines.items source.now.program.threads costs.now) }
{
    cost_file(alloc, &source.program, costs)
}

/// The list of the gaps, with their costs where a text of them is given, or the cost file of all of them.
fn written_gaps(
    alloc: Global,
    asked: &GapQuery,
    texts: &Texts,
    source: &Litmus<Program>,
    costs: &TiedCosts,
) -> Result<Vec<u8>, AllocError>
    requires { AreGiven source.now.program (option_map (λ text. text.items) texts.now.costs) costs.now }
    ensures { IfOk result (λ lines. IsGapText (form_of asked.now) source.now (option_map (λ text. text.items) texts.now.costs) costs.now lines.items) }
{
    if let Some(ties) = &asked.ties {
        let shared = SharedCode {
            same: ties.same.as_deref(),
            tries: ties.tries,
        };
        tied_file(alloc, &source.program, &costs.costs, shared)
    } else if asked.template {
        template_file(alloc, source, costs)
    } else {
        listed_gaps(alloc, texts, source, costs)
    }
}

/// The document of the gaps.
fn document_of_gaps(
    alloc: Global,
    texts: &Texts,
    litmus: &Litmus<Program>,
    costs: &TiedCosts,
) -> Result<Vec<u8>, AllocError>
    ensures { IfOk result (λ line. TellsGapsDocument litmus.now costs.now line.items) }
{
    let lines = TextLines::of_text(alloc, &texts.litmus)?;
    let source = LinedLitmus {
        litmus,
        lines: &lines,
    };
    let document = gaps_document(alloc, &source, costs)?;
    document_line(alloc, document, &[])
}

/// The document of the gaps, where it is asked for, or else what is printed of them.
fn told_gaps(
    alloc: Global,
    asked: &GapQuery,
    texts: &Texts,
    source: &Litmus<Program>,
    costs: &TiedCosts,
) -> Result<Vec<u8>, AllocError>
    requires { AreGiven source.now.program (option_map (λ text. text.items) texts.now.costs) costs.now }
    ensures { IfOk result (λ lines. TellsGaps asked.now.json (form_of asked.now) source.now (option_map (λ text. text.items) texts.now.costs) costs.now lines.items) }
{
    if asked.json {
        document_of_gaps(alloc, texts, source, costs)
    } else {
        written_gaps(alloc, asked, texts, source, costs)
    }
}

/// What is printed of the gaps of the program that the litmus text spells.
fn lines_of_program(
    alloc: Global,
    asked: &GapQuery,
    texts: &Texts,
    source: &Litmus<Program>,
) -> Result<Vec<u8>, TextFault>
    requires { IsLitmus texts.now.litmus.items source.now }
    ensures lines { IfOk result (λ lines. PrintsGaps asked.now texts.now.litmus.items (option_map (λ text. text.items) texts.now.costs) lines.items) }
    ensures fault { IfErr result (HasNoGaps texts.now.litmus.items (option_map (λ text. text.items) texts.now.costs)) }
{
    let costs = read_gap_costs(alloc, texts.costs.as_deref(), &source.program)?;
    match told_gaps(alloc, asked, texts, source, &costs) {
        Ok(lines) => Ok(lines),
        Err(_) => Err(TextFault::OutOfMemory),
    }
}

/// What is printed of the gaps of the program of a text.
fn gap_lines(alloc: Global, asked: &GapQuery, texts: &Texts) -> Result<Vec<u8>, TextFault>
    ensures lines { IfOk result (λ lines. PrintsGaps asked.now texts.now.litmus.items (option_map (λ text. text.items) texts.now.costs) lines.items) }
    ensures fault { IfErr result (HasNoGaps texts.now.litmus.items (option_map (λ text. text.items) texts.now.costs)) }
{
    let source = read_program(alloc, &texts.litmus)?;
    lines_of_program(alloc, asked, texts, &source)
}

/// Tells in which lines the gaps of a printed cost file stand, where gaps are to go together, and of threads that are missing.
fn tell_asked_ties<W: Console>(
    alloc: Global,
    asked: &GapQuery,
    texts: &Texts,
    file: &[u8],
    output: &mut W,
)
    ensures { W.contents output.new ≡ W.contents output.old }
{
    if let Some(ties) = &asked.ties {
        if let Some(same) = ties.same.as_deref() {
            tell_same(alloc, &texts.litmus, same, output);
        }
        tell_ties(alloc, &texts.litmus, Some(file), None, output);
    }
}

/// Judges texts, prints what is asked of their gaps, and returns the status.
fn gaps_of_texts<W: Console>(alloc: Global, asked: &GapQuery, texts: &Texts, output: &mut W) -> u8
    ensures { Prints (AreGapsOfTexts asked.now texts.now.litmus.items (option_map (λ text. text.items) texts.now.costs)) (W.contents output.old) (W.contents output.new) result }
{
    match gap_lines(alloc, asked, texts) {
        Ok(lines) => {
            tell_asked_ties(alloc, asked, texts, &lines, output);
            print(output, Ok(lines), 0)
        }
        Err(fault) => {
            let named = (asked.litmus.as_str(), asked.costs.as_deref());
            let message = text_fault_advice(alloc, named, texts, fault);
            tell_refusal(
                alloc,
                asked.json,
                text_fault_line(alloc, fault),
                message,
                output,
            )
        }
    }
}

/// Lists the gaps of the program of a litmus file, or prints a cost file of all of them, and returns the status.
pub fn run_gaps<S: FileStore, R: Read, W: Console>(
    alloc: Global,
    files: &S,
    asked: &GapQuery,
    input: &mut R,
    output: &mut W,
) -> u8
    ensures told { Prints (AreGaps asked.now (R.remaining input.old) (S.held files.now)) (W.contents output.old) (W.contents output.new) result }
    ensures read { ReadsOfInput TEXT_LIMIT (string_bytes asked.now.litmus) (R.remaining input.old) (R.remaining input.new) }
{
    let costs = asked.costs.as_deref();
    match read_texts(alloc, files, asked.litmus.as_str(), costs, input) {
        Ok(texts) => gaps_of_texts(alloc, asked, &texts, output),
        Err(file) => {
            let message = unread_advice(alloc, files, file);
            tell_refusal(
                alloc,
                asked.json,
                file_line(alloc, file.fault),
                message,
                output,
            )
        }
    }
}
