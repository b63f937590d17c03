//! Messages.

use litmus_lines::PlacedTokens;
use litmus_rules::{Source, push_pointed_line, push_shown_word, word_at};
use std::alloc::{AllocError, Global};

/// The name of standard input.
pub const STDIN: &str = "<stdin>";

/// What is said about a refusal.
#[derive(Drop)]
pub struct Message {
    /// The file's name, or [`STDIN`].
    pub file: String,
    /// The line, from 1, where one is known.
    pub line: Option<usize>,
    /// The column, from 1, where one is known.
    pub column: Option<usize>,
    /// What stands there, in printable ASCII; nothing where no word is meant.
    pub word: String,
    /// What is wrong, and what could stand there.
    pub text: String,
    /// The line of the text with a `^` below the word, as two lines; nothing where no word of a text is meant.
    pub pointed: String,
}

impl Message {
    /// What is said about a file as a whole.
    pub fn of_file(alloc: Global, name: &str, text: &str) -> Result<Message, AllocError> {
        Ok(Message {
            file: String::from_str(alloc, name)?,
            line: None,
            column: None,
            word: String::new(alloc),
            text: String::from_str(alloc, text)?,
            pointed: String::new(alloc),
        })
    }

    /// A message about a word of a file, without what is said of it.
    pub(crate) fn of_word(alloc: Global, name: &str, word: &[u8]) -> Result<Message, AllocError> {
        let mut message = Message::of_file(alloc, name, "")?;
        let written = push_shown_word(&mut message.word, word);
        message.if_written(written)
    }

    /// The message, where its words were written.
    pub(crate) fn if_written(self, written: Result<(), AllocError>) -> Result<Message, AllocError> {
        match written {
            Ok(()) => Ok(self),
            Err(fault) => {
                drop(self);
                Err(fault)
            }
        }
    }

    /// What is said about a line, by its number from 1 in the text.
    pub(crate) fn at_line(
        alloc: Global,
        source: Source<'_>,
        line: usize,
        text: &str,
    ) -> Result<Message, AllocError> {
        let mut message = Message::of_file(alloc, source.name, text)?;
        let above = line.saturating_sub(1);
        message.line = Some(source.first_line.saturating_add(above));
        Ok(message)
    }

    /// What is said about the word at an offset: the sentence begins with the word.
    pub fn at_word(
        alloc: Global,
        source: Source<'_>,
        offset: usize,
        word: &[u8],
        said: &str,
    ) -> Result<Message, AllocError> {
        let position = source.position(offset);
        let mut message = Message::of_word(alloc, source.name, word)?;
        message.line = Some(position.line);
        message.column = Some(position.column);
        let written = message.point(source.text, offset, word, said);
        message.if_written(written)
    }

    /// Says of the word at an offset of a text what is wrong, and shows its line.
    fn point(
        &mut self,
        text: &[u8],
        offset: usize,
        word: &[u8],
        said: &str,
    ) -> Result<(), AllocError> {
        push_sentence(&mut self.text, word, self.word.as_str(), said)?;
        push_pointed_line(&mut self.pointed, text, offset)
    }

    /// What is said about the token of a text where so many of its tokens are left, this one included.
    pub fn at_token(
        alloc: Global,
        source: Source<'_>,
        tokens: &PlacedTokens<'_>,
        left: usize,
        said: &str,
    ) -> Result<Message, AllocError> {
        let index = tokens.index(left);
        let word = word_at(tokens.rest(index));
        Message::at_word(alloc, source, tokens.offset(index), word, said)
    }

    /// `FILE:LINE:COLUMN: TEXT`, without what is not known.
    fn placed_text(&self, alloc: Global) -> Result<String, AllocError> {
        let Message {
            file,
            line,
            column,
            text,
            ..
        } = self;
        match (line, column) {
            (Some(line), Some(column)) => format!(in alloc; "{file}:{line}:{column}: {text}"),
            (Some(line), None) => format!(in alloc; "{file}:{line}: {text}"),
            _ => format!(in alloc; "{file}: {text}"),
        }
    }

    /// The message as one line: `FILE:LINE:COLUMN: TEXT`, without what is not known. A terminal shows the line of the
    /// text after it, with a `^` below the word.
    pub fn written(&self, alloc: Global, on_terminal: bool) -> Result<Vec<u8>, AllocError> {
        let text = self.placed_text(alloc)?;
        let mut lines = String::new(alloc);
        push_line(&mut lines, text.as_str())?;
        if on_terminal {
            lines.push_str(self.pointed.as_str())?;
        }
        Ok(lines.into_bytes())
    }
}

/// Puts a text at the end of others as one line, with `\xHH` for each byte of a control character, so that a file's name
/// cannot end it.
fn push_line(lines: &mut String, text: &str) -> Result<(), AllocError> {
    for character in text.chars() {
        if character.is_control() {
            push_escaped(lines, character)?;
        } else {
            lines.push(character)?;
        }
    }
    lines.push('\n')?;
    Ok(())
}

/// Puts `\xHH` for each byte of a character at the end of a line.
fn push_escaped(line: &mut String, character: char) -> Result<(), AllocError> {
    let mut bytes = [0; 4];
    for byte in character.encode_utf8(&mut bytes).as_bytes() {
        write!(line, "\\x{byte:02x}")?;
    }
    Ok(())
}

/// The name for people of a file, where `-` is standard input.
pub fn file_or_input(name: &str) -> &str {
    if name == "-" { STDIN } else { name }
}

/// Puts a sentence at the end of a text, of which a word is the subject: in backquotes where it is not of letters and
/// digits.
fn push_sentence(
    text: &mut String,
    word: &[u8],
    shown: &str,
    said: &str,
) -> Result<(), AllocError> {
    match word.first() {
        None => write!(text, "the text {said}")?,
        Some(b' ') => write!(text, "a space {said}")?,
        Some(b'\n') => write!(text, "the end of the line {said}")?,
        Some(first) if first.is_ascii_alphanumeric() => write!(text, "{shown} {said}")?,
        Some(_) => write!(text, "`{shown}` {said}")?,
    }
    Ok(())
}
