//! In which lines of a text the instructions of its threads stand.

ghost use Rattle.std.specs.Prelude.{◌≡◌};
ghost use Rattle.gap_list.specs.Lines.{line_at};

use litmus_lines::PlacedTokens;
use litmus_syntax::{Body, Cell, SyntaxFault, read_body};
use std::alloc::{AllocError, Global};

/// The lines of a litmus text in which its instructions stand.
#[derive(Drop)]
pub struct TextLines {
    /// For each thread that of each of its instructions.
    threads: Vec<Vec<u32>>,
}

/// The lines of a thread's instructions.
fn lines_of_thread(
    alloc: Global,
    tokens: &PlacedTokens<'_>,
    rows: &[Vec<Cell<'_>>],
    thread: usize,
) -> Result<Vec<u32>, AllocError> {
    let mut lines = Vec::new(alloc);
    for row in rows {
        let Some(cell) = row.get(thread) else {
            continue;
        };
        if cell.code.is_some() {
            lines.push(tokens.line(tokens.index(cell.left)))?;
        }
    }
    Ok(lines)
}

/// The lines of the instructions of a body.
fn lines_of_body(
    alloc: Global,
    tokens: &PlacedTokens<'_>,
    body: &Body<'_>,
) -> Result<Vec<Vec<u32>>, AllocError> {
    let mut threads = Vec::new(alloc);
    for thread in 0..body.threads {
        threads.push(lines_of_thread(alloc, tokens, body.rows.as_slice(), thread)?)?;
    }
    Ok(threads)
}

/// The lines of the instructions of a text's tokens; none where they are not read.
fn lines_of_tokens(alloc: Global, tokens: &PlacedTokens<'_>) -> Result<Vec<Vec<u32>>, AllocError> {
    match read_body(alloc, tokens.as_slice()) {
        Ok((body, _)) => lines_of_body(alloc, tokens, &body),
        Err(SyntaxFault::Refused(_)) => Ok(Vec::new(alloc)),
        Err(SyntaxFault::OutOfMemory) => Err(AllocError),
    }
}

impl TextLines {
    /// Those of a litmus text. Another text has none.
    pub fn of_text(alloc: Global, text: &[u8]) -> Result<TextLines, AllocError> {
        let tokens = PlacedTokens::of(alloc, text)?;
        let threads = lines_of_tokens(alloc, &tokens)?;
        Ok(TextLines { threads })
    }

    /// The line of instruction k of thread t; 0 if there is none.
    pub fn line(&self, t: u8, k: usize) -> u32
        ensures { result ≡ line_at self.now t k }
    {
        match self.threads.as_slice().get(t as usize) {
            Some(lines) => lines.as_slice().get(k).copied().unwrap_or(0),
            None => 0,
        }
    }
}
