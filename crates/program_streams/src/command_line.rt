//! The arguments of a program's own command line.

ghost use Rattle.std.specs.Prelude.{◌≡◌, IfErr, OnOk};
ghost use Rattle.program_streams.specs.Streams.{Prints};
ghost use Rattle.program_streams.specs.Words.{IsUtf8Refusal};

use crate::output::refuse_words;
use std::env;
use std::env::Env;
use std::io::{self, Write};

fn words_after_name<R: Env + AllocGlobal>(rt: &R) -> io::Result<Vec<String>> {
    Ok(env::args(rt)?.skip(1).collect(rt.alloc())?)
}

/// The arguments after the program's name. If they are not available, the status: 1 where memory runs out, and then
/// nothing is printed; 2 where a word is not UTF-8, and then a line says so.
pub fn given_words<R: Env + AllocGlobal, W: Write>(
    rt: &R,
    output: &mut W,
) -> Result<Vec<String>, u8>
    ensures silent { OnOk result (W.contents output.new ≡ W.contents output.old) }
    ensures refused { IfErr result (Prints IsUtf8Refusal (W.contents output.old) (W.contents output.new)) }
{
    match words_after_name(rt) {
        Ok(words) => Ok(words),
        Err(error) => match error.kind() {
            io::ErrorKind::OutOfMemory => Err(1),
            _ => Err(refuse_words(rt.alloc(), output)),
        },
    }
}
