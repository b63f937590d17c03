//! Surveys: what one look at the program of each file finds, a block a file.

ghost use Rattle.std.specs.Prelude.{◌≡◌, ◌∷◌, ◌++◌, [], IfOk, OnErr, OnOk, map, string_bytes, true};
ghost use Rattle.program_streams.specs.Streams.{Prints};
ghost use Rattle.program_streams.specs.Files.{ReadsOfInput};
ghost use Rattle.program_streams.specs.FileLines.{file_line};
ghost use Rattle.fencer.specs.Placements.{text_fault_line};
ghost use Rattle.fencer.specs.Surveys.{block_text, row_line, shown_name, survey_status, table_text, worst, AreWritten, IsBlock, IsBlockOfText, IsFound, IsRefused, IsSurvey, ReadsOfSomeFiles, RefusedBlock};

use crate::advice::text_fault_advice;
use crate::place::text_fault_line;
use crate::survey_advice::{file_message, report_extent, unexecuted_advice, verdict_advice};
use crate::tied::{tie_advice, tied_costs};
use answers::{
    NotedText, SlipPlaces, Texts, check_status, noted_line, printed, said_of, slip_advice,
    unread_advice, unread_litmus, written,
};
use documents::{RefusalMessage, refusal_document};
use fencer_words::{SurveyOptions, SurveyQuery};
use messages::Message;
use placed_text::TextFault;
use program_streams::{
    Console, FileFault, FileStore, Progress, TEXT_LIMIT, file_line, grouped, named_bytes, print,
    write_bytes,
};
use search_effort::Effort;
use std::alloc::{AllocError, Global};
use std::io::{self, Read};
use std::rt::Clock;
use std::sync::Wait;
use std::thread::Threads;
use std::time::Instant;
use survey_text::{SurveyText, survey_text};

/// How a file's program is looked at, and where it is reported what lies ahead.
#[derive(Clone, Copy)]
struct Manner {
    options: SurveyOptions,
    progress: Progress,
}

/// The row of a file that is refused.
const REFUSED: &[u8] = b"refused";

/// The first line of the table.
const HEADING: &[u8] = b"table sequential buffered unexecuted condition answer file\n";

/// What is printed of a file, with its status, and what is reported to people.
#[derive(Drop)]
struct Block {
    lines: Vec<u8>,
    row: Vec<u8>,
    status: u8,
    message: Result<Vec<u8>, AllocError>,
}

/// What is left to be said after the blocks of files: a row of each for the table, and the status of them all.
#[derive(Drop)]
struct Summary {
    rows: Vec<u8>,
    status: u8,
}

impl Summary {
    /// Adds one more file.
    fn add(&mut self, block: &Block) -> Result<(), AllocError>
        ensures rows { OnOk result (self.new.rows.items ≡ self.old.rows.items ++ block.now.row.items) }
        ensures status { OnOk result (self.new.status ≡ worst (self.old.status ∷ block.now.status ∷ [])) }
    {
        self.rows.extend_from_slice(&block.row)?;
        self.status = worst(self.status, block.status);
        Ok(())
    }
}

/// That a survey ends before its last block is written: memory is wanting, or a write fails.
#[derive(Clone, Copy)]
struct CutShort;

impl From<AllocError> for CutShort {
    fn from(_error: AllocError) -> CutShort {
        CutShort
    }
}

impl From<FileFault> for CutShort {
    fn from(_fault: FileFault) -> CutShort {
        CutShort
    }
}

/// The row of a file.
fn row_line(alloc: Global, name: &str, row: &[u8]) -> Result<Vec<u8>, AllocError>
    ensures { IfOk result (λ line. line.items ≡ row_line name.now row.now) }
{
    let mut line = Vec::from_slice(alloc, b"row ")?;
    line.extend_from_slice(row)?;
    line.push(b' ')?;
    line.extend_from_slice(name.as_bytes())?;
    line.push(b'\n')?;
    Ok(line)
}

/// A file's name, and after it a text.
fn block_text(alloc: Global, name: &str, text: &[u8]) -> Result<Vec<u8>, AllocError>
    ensures { IfOk result (λ lines. lines.items ≡ block_text name.now text.now) }
{
    let mut lines = format!(in alloc; "file {name}\n")?.into_bytes();
    lines.extend_from_slice(text)?;
    Ok(lines)
}

/// The name of a file as messages have it.
fn shown_name(name: &str) -> &str
    ensures { result.now ≡ shown_name name.now }
{
    if name == "-" { "<stdin>" } else { name }
}

/// The document of a refusal, which names the file also where the message could not be made.
fn named_refusal(
    alloc: Global,
    name: &str,
    line: &[u8],
    message: &Result<Message, AllocError>,
) -> Result<Vec<u8>, AllocError>
    ensures { IfOk result (λ text. RefusedBlock true name.now line.now text.items) }
{
    let said = RefusalMessage {
        file: shown_name(name).as_bytes(),
        ..said_of(message)
    };
    refusal_document(alloc, line, &said)
}

/// The line of a refusal after the name of its file, or the document of the line where that is asked for.
fn refused_text(
    alloc: Global,
    json: bool,
    name: &str,
    line: &[u8],
    message: &Result<Message, AllocError>,
) -> Result<Vec<u8>, AllocError>
    ensures { IfOk result (λ text. RefusedBlock json name.now line.now text.items) }
{
    if json {
        named_refusal(alloc, name, line, message)
    } else {
        block_text(alloc, name, line)
    }
}

/// The block of a file that is refused, for the reason that this line gives.
fn refused_block(
    alloc: Global,
    manner: Manner,
    name: &str,
    line: &[u8],
    message: Result<Message, AllocError>,
) -> Result<Block, AllocError>
    ensures { IfOk result (IsRefused manner.options.json name.now line.now) }
{
    Ok(Block {
        lines: refused_text(alloc, manner.options.json, name, line, &message)?,
        row: row_line(alloc, name, REFUSED)?,
        status: 1,
        message: written(alloc, &message, manner.progress.is_shown()),
    })
}

/// The block of a file that is not read.
fn unread_block<S: FileStore>(
    alloc: Global,
    files: &S,
    manner: Manner,
    name: &str,
    fault: FileFault,
) -> Result<Block, AllocError>
    ensures { IfOk result (IsRefused manner.options.json name.now (file_line fault)) }
{
    let message = unread_advice(alloc, files, unread_litmus(name, fault));
    let line = file_line(alloc, fault)?;
    refused_block(alloc, manner, name, &line, message)
}

/// The block of a file whose text is refused.
fn unfound_block(
    alloc: Global,
    manner: Manner,
    name: &str,
    texts: &Texts,
    fault: TextFault,
) -> Result<Block, AllocError>
    ensures { IfOk result (IsRefused manner.options.json name.now (text_fault_line fault)) }
{
    let message = text_fault_advice(alloc, (name, None), texts, fault);
    let line = text_fault_line(alloc, fault)?;
    refused_block(alloc, manner, name, &line, message)
}

/// The block of a file with this text, of whose program this is found. Beside what is found the document says what is noted of
/// the text.
fn found_block(
    alloc: Global,
    manner: Manner,
    name: &str,
    litmus: &[u8],
    told: SurveyText,
    message: Result<Vec<u8>, AllocError>,
) -> Result<Block, AllocError>
    ensures { IfOk result (IsFound manner.options name.now told) }
{
    let SurveyOptions {
        allow_unexecuted,
        json,
        ..
    } = manner.options;
    let status = survey_status(allow_unexecuted, &told);
    let SurveyText {
        lines,
        row,
        document,
        verdict,
        ..
    } = told;
    let noted = NotedText {
        name,
        text: litmus,
        places: SlipPlaces::WholeText,
    };
    let document = noted_line(alloc, noted, document, verdict)?;
    let text = block_text(alloc, name, &lines)?;
    Ok(Block {
        lines: printed(json, text, document),
        row: row_line(alloc, name, &row)?,
        status,
        message,
    })
}

/// How long a file took, for people: nothing where the clock can't be read.
fn time_message<T: Clock>(
    rt: &T,
    alloc: Global,
    name: &str,
    start: io::Result<Instant>,
) -> Result<Vec<u8>, AllocError> {
    let Ok(start) = start else {
        return Ok(Vec::new(alloc));
    };
    match start.elapsed(rt) {
        Ok(time) => {
            let millis = u64::try_from(time.as_millis()).unwrap_or(u64::MAX);
            let millis = grouped(alloc, millis)?;
            let text = format!(in alloc; "{millis} ms")?;
            file_message(alloc, name, text.as_str())
        }
        Err(_) => Ok(Vec::new(alloc)),
    }
}

/// What is said of a file that is looked at: the first slip that its text may have, in which lines the gaps of ties stand, what
/// sequential runs say of its condition and, where that is not allowed, which instructions no sequential run executes.
fn found_message(
    alloc: Global,
    manner: Manner,
    name: &str,
    bytes: &[u8],
    costs: Option<&[u8]>,
    told: &SurveyText,
) -> Result<Vec<u8>, AllocError> {
    let mut message = slip_advice(alloc, name, bytes, true, manner.progress.is_shown())?;
    message.extend_from_slice(&tie_advice(alloc, bytes, costs, None)?)?;
    message.extend_from_slice(&verdict_advice(alloc, name, told)?)?;
    if !manner.options.allow_unexecuted {
        message.extend_from_slice(&unexecuted_advice(alloc, name, &told.unexecuted)?)?;
    }
    Ok(message)
}

/// A message, and how long its file took.
fn with_time<T: Clock>(
    rt: &T,
    alloc: Global,
    name: &str,
    start: io::Result<Instant>,
    message: Result<Vec<u8>, AllocError>,
) -> Result<Vec<u8>, AllocError> {
    let mut message = message?;
    message.extend_from_slice(&time_message(rt, alloc, name, start)?)?;
    Ok(message)
}

/// The status of what is found: 3 where the condition fails sequentially or, where that is not allowed, an instruction is
/// executed by no sequential run.
fn survey_status(allow_unexecuted: bool, told: &SurveyText) -> u8
    ensures { result ≡ survey_status allow_unexecuted told.now }
{
    check_status(
        true,
        told.fails || (told.has_unexecuted && !allow_unexecuted),
    )
}

/// The block of a file with this text.
fn block_of_text<T: Threads + Wait + Sync + Clock>(
    rt: &T,
    alloc: Global,
    manner: Manner,
    name: &str,
    bytes: Vec<u8>,
) -> Result<Block, AllocError>
    ensures { IfOk result (λ block. IsBlockOfText manner.options name.now bytes.items block.status block.lines.items block.row.items) }
{
    let start = Instant::now(rt);
    let costs = tied_costs(alloc, manner.options.ties, &bytes)?;
    let effort = Effort {
        workers: manner.options.workers,
        trees: None,
        progress: manner.progress,
        warns: false,
    };
    report_extent(alloc, name, &bytes, manner.progress);
    match survey_text(rt, alloc, name, &bytes, costs.as_deref(), effort) {
        Ok(told) => {
            let message = found_message(alloc, manner, name, &bytes, costs.as_deref(), &told);
            let message = with_time(rt, alloc, name, start, message);
            found_block(alloc, manner, name, &bytes, told, message)
        }
        Err(fault) => {
            let texts = Texts {
                litmus: bytes,
                costs,
            };
            unfound_block(alloc, manner, name, &texts, fault)
        }
    }
}

/// The block of the file of a name.
fn block_of<T: Threads + Wait + Sync + Clock, S: FileStore, R: Read>(
    rt: &T,
    alloc: Global,
    files: &S,
    manner: Manner,
    name: &str,
    input: &mut R,
) -> Result<Block, AllocError>
    ensures told { IfOk result (λ block. IsBlock manner.options (S.held files.now) name.now (R.remaining input.old) block.status block.lines.items block.row.items) }
    ensures read { ReadsOfInput TEXT_LIMIT name.now (R.remaining input.old) (R.remaining input.new) }
{
    match named_bytes(alloc, files, name, input, TEXT_LIMIT) {
        Ok(bytes) => block_of_text(rt, alloc, manner, name, bytes),
        Err(fault) => unread_block(alloc, files, manner, name, fault),
    }
}

/// The status of blocks with these two statuses: 1 where a file is refused, otherwise 3 where a fault is found.
fn worst(status: u8, other: u8) -> u8
    ensures { result ≡ worst (status ∷ other ∷ []) }
{
    if status == 1 || other == 1 {
        1
    } else {
        check_status(true, status == 3 || other == 3)
    }
}

/// Prints the block of each file as soon as it is made, and then reports its message.
fn print_blocks<T: Threads + Wait + Sync + Clock, S: FileStore, R: Read, W: Console>(
    rt: &T,
    alloc: Global,
    files: &S,
    asked: &SurveyQuery,
    input: &mut R,
    output: &mut W,
) -> Result<Summary, CutShort>
    ensures told { IfOk result (λ summary. AreWritten asked.now.options (S.held files.now) (R.remaining input.old) (map string_bytes asked.now.files.items) (R.remaining input.new) summary.status summary.rows.items (W.contents output.old) (W.contents output.new)) }
    ensures cut { OnErr result (Prints (IsSurvey asked.now (R.remaining input.old) (S.held files.now)) (W.contents output.old) (W.contents output.new) 1) }
    ensures read { ReadsOfSomeFiles (map string_bytes asked.now.files.items) (R.remaining input.old) (R.remaining input.new) }
{
    let manner = Manner {
        options: asked.options,
        progress: output.progress(),
    };
    let mut summary = Summary {
        rows: Vec::new(alloc),
        status: 0,
    };
    for name in asked.files.as_slice() {
        let block = block_of(rt, alloc, files, manner, name.as_str(), input)?;
        summary.add(&block)?;
        write_bytes(output, &block.lines)?;
        output.tell(block.message);
    }
    Ok(summary)
}

/// The table of several files; of one file there is none, nor after documents.
fn table_text(alloc: Global, json: bool, rows: &[u8], count: usize) -> Result<Vec<u8>, AllocError>
    ensures { IfOk result (λ text. text.items ≡ table_text json count rows.now) }
{
    let mut text = Vec::new(alloc);
    if !json && count > 1 {
        text.extend_from_slice(HEADING)?;
        text.extend_from_slice(rows)?;
    }
    Ok(text)
}

/// Prints what one look at the program of each file finds, a block a file as soon as it is done, and returns the status. A file
/// that is refused has its refusal, and the others go on. Where memory is wanting or a write fails, the survey ends there with
/// status 1.
pub fn run_survey<T: Threads + Wait + Sync + Clock, S: FileStore, R: Read, W: Console>(
    rt: &T,
    alloc: Global,
    files: &S,
    asked: &SurveyQuery,
    input: &mut R,
    output: &mut W,
) -> u8
    ensures told { Prints (IsSurvey asked.now (R.remaining input.old) (S.held files.now)) (W.contents output.old) (W.contents output.new) result }
    ensures read { ReadsOfSomeFiles (map string_bytes asked.now.files.items) (R.remaining input.old) (R.remaining input.new) }
{
    match print_blocks(rt, alloc, files, asked, input, output) {
        Ok(summary) => {
            let json = asked.options.json;
            let table = table_text(alloc, json, &summary.rows, asked.files.len());
            print(output, table, summary.status)
        }
        Err(_) => 1,
    }
}
