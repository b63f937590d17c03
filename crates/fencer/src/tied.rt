//! Gaps that likely go together: the cost file that says so, and what is said of them to people, on standard error.

ghost use Rattle.std.specs.Prelude.{◌≡◌, IfOk, option_map, replicate};
ghost use Rattle.tso_program.specs.Listings.{gap_count};
ghost use Rattle.gap_list.specs.TiedFiles.{IsTiedFile};
ghost use Rattle.fencer.specs.Surveys.{AreTied};

use gap_list::{SharedCode, tie_lines, tied_file};
use gap_sets::GapSet;
use litmus_text::{ReadFault, read_litmus};
use placed_text::{read_gap_costs, read_program};
use program_streams::Console;
use std::alloc::{AllocError, Global};
use tso_program::Program;

/// The cost file of a program's gaps, of which each costs 1, and those go together that likely are one line of threads or of
/// tries.
fn shared_file(alloc: Global, program: &Program) -> Result<Vec<u8>, AllocError>
    ensures { IfOk result (λ file. IsTiedFile program.now (replicate (gap_count program.now.threads) 1) file.items) }
{
    let Ok(costs) = read_gap_costs(alloc, None, program) else {
        return Err(AllocError);
    };
    let shared = SharedCode {
        same: None,
        tries: true,
    };
    tied_file(alloc, program, &costs.costs, shared)
}

/// The cost file by which a text's program is looked at: none, or that of gaps which likely go together, unless the text is
/// refused.
pub(crate) fn tied_costs(
    alloc: Global,
    are_tied: bool,
    text: &[u8],
) -> Result<Option<Vec<u8>>, AllocError>
    ensures { IfOk result (λ costs. AreTied are_tied text.now (option_map (λ file. file.items) costs)) }
{
    if !are_tied {
        return Ok(None);
    }
    match read_litmus(alloc, text) {
        Ok(litmus) => Ok(Some(shared_file(alloc, &litmus.program)?)),
        Err(ReadFault::OutOfMemory) => Err(AllocError),
        Err(_) => Ok(None),
    }
}

/// The number of the last thread of a text's program; none of a text that is not read.
fn last_thread(alloc: Global, litmus: &[u8]) -> Option<usize> {
    match read_program(alloc, litmus) {
        Ok(source) => Some(source.program.threads().len().saturating_sub(1)),
        Err(_) => None,
    }
}

/// What is said of threads that run the same code, if one of them is none of the program's, or there is but one.
fn same_advice(alloc: Global, litmus: &[u8], same: &[u8]) -> Result<Vec<u8>, AllocError> {
    let Some(last) = last_thread(alloc, litmus) else {
        return Ok(Vec::new(alloc));
    };
    for thread in same {
        if *thread as usize > last {
            let line = format!(in alloc;
                "fencer: warning: --same names thread {thread}, and the last thread is P{last}\n"
            )?;
            return Ok(line.into_bytes());
        }
    }
    if same.len() == 1 {
        return Vec::from_slice(
            alloc,
            b"fencer: warning: --same names one thread alone, and no other runs its code\n",
        );
    }
    Ok(Vec::new(alloc))
}

/// Tells where threads that are said to run the same code are none of the program's, or one alone.
pub(crate) fn tell_same<W: Console>(alloc: Global, litmus: &[u8], same: &[u8], output: &mut W)
    ensures { W.contents output.new ≡ W.contents output.old }
{
    output.tell(same_advice(alloc, litmus, same));
}

/// In which lines of a program's text the gaps of ties stand: of the ties of these gaps, or of all.
fn tied_lines(
    alloc: Global,
    litmus: &[u8],
    costs: &[u8],
    program: &Program,
    gaps: Option<&GapSet>,
) -> Result<Vec<Vec<u8>>, AllocError> {
    let Ok(costs) = read_gap_costs(alloc, Some(costs), program) else {
        return Ok(Vec::new(alloc));
    };
    let all = program.all_gaps();
    tie_lines(alloc, litmus, program, &costs.ties, gaps.unwrap_or(&all))
}

/// In which lines of a litmus text the gaps of ties stand: of the ties of these gaps, or of all. Nothing is said where no gaps go
/// together, so without a text of costs.
pub(crate) fn tie_advice(
    alloc: Global,
    litmus: &[u8],
    costs: Option<&[u8]>,
    gaps: Option<&GapSet>,
) -> Result<Vec<u8>, AllocError> {
    let Some(costs) = costs else {
        return Ok(Vec::new(alloc));
    };
    let Ok(source) = read_program(alloc, litmus) else {
        return Ok(Vec::new(alloc));
    };
    let lines = tied_lines(alloc, litmus, costs, &source.program, gaps);
    drop(source);
    let mut told = Vec::new(alloc);
    for line in &lines? {
        told.extend_from_slice(b"fencer: ")?;
        told.extend_from_slice(line)?;
    }
    Ok(told)
}

/// Tells in which lines of a litmus text the gaps of ties stand: of the ties of these gaps, or of all.
pub(crate) fn tell_ties<W: Console>(
    alloc: Global,
    litmus: &[u8],
    costs: Option<&[u8]>,
    gaps: Option<&GapSet>,
    output: &mut W,
)
    ensures { W.contents output.new ≡ W.contents output.old }
{
    output.tell(tie_advice(alloc, litmus, costs, gaps));
}
