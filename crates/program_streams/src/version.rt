//! The version of the programs.

ghost use Rattle.std.specs.Prelude.{◌≡◌, IfOk, map, string_bytes};
ghost use Rattle.program_streams.specs.Versions.{asks_version, version_line};

use std::alloc::{AllocError, Global};

/// The version of the programs.
pub const VERSION: &str = "0.1.0";

/// Whether the one argument of a command line asks for the program's version.
pub fn asks_version(words: &[String]) -> bool
    ensures { result ≡ asks_version (map string_bytes words.now) }
{
    match words {
        [word] => word.as_str() == "--version",
        _ => false,
    }
}

/// The name of a program, and its version.
pub fn version_line(alloc: Global, program: &str) -> Result<Vec<u8>, AllocError>
    ensures { IfOk result (λ line. line.items ≡ version_line program.now) }
{
    Ok(format!(in alloc; "{program} {VERSION}\n")?.into_bytes())
}
