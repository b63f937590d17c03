//! Whole inputs up to a limit, and whole outputs.

ghost use Rattle.std.specs.Prelude.{◌≡◌, ◌+◌, ◌-◌, ◌<◌, ◌≤◌, ◌^◌, true, false, vec_len, IsTrue, IfOk, OnOk, OnErr, IfErr};
ghost use Rattle.std.specs.Io.KnownBytes.{Appends, IsAtEnd};
ghost use Rattle.program_streams.specs.Streams.{HoldsBytes, TakesBytes, TakesUpTo, ReadsOn, AppendsRest, TakesLine, TakesOfLine, IsReadFault, AppendsFront};

use crate::fault::FileFault;
use paged_text::Pages;
use std::alloc::Global;
use std::io::{Read, Write};

/// Reads on after the bytes so far, until there are `most` of them or the reader is at its end, and
/// answers whether it is. `Read` comes where a read fails and where there is no memory for the bytes.
pub fn read_on<R: Read>(input: &mut R, bytes: &mut Vec<u8>, most: usize) -> Result<bool, FileFault>
    requires { vec_len bytes.old ≤ most }
    ensures more { OnOk result (ReadsOn (R.remaining input.old) (R.remaining input.new) bytes.old.items bytes.new.items) }
    ensures end { IfOk result (λ ended. IsTrue ended → IsAtEnd (R.remaining input.new)) }
    ensures full { IfOk result (λ ended. ended ≡ false → vec_len bytes.new ≡ most) }
    ensures within { vec_len bytes.new ≤ most }
    ensures taken { TakesUpTo (R.remaining input.old) (R.remaining input.new) (most - vec_len bytes.old) }
    ensures fault { IfErr result (λ fault. fault ≡ FileFault.Read) }
{
    let mut buffer = [0u8; 4096];
    while bytes.len() < most {
        let part = (most - bytes.len()).min(4096);
        let count = match input.read(&mut buffer[..part]) {
            Ok(count) => count,
            Err(_) => return Err(FileFault::Read),
        };
        if count == 0 {
            return Ok(true);
        }
        if bytes.extend_from_slice(&buffer[..count]).is_err() {
            return Err(FileFault::Read);
        }
    }
    Ok(false)
}

/// Whether the reader is at its end: if not, it gives one more byte.
fn is_at_end<R: Read>(input: &mut R) -> Result<bool, FileFault>
    ensures end { IfOk result (λ ended. IsTrue ended → IsAtEnd (R.remaining input.old)) }
    ensures more { IfOk result (λ ended. ended ≡ false → TakesBytes (R.remaining input.old) (R.remaining input.new) 1) }
    ensures taken { TakesUpTo (R.remaining input.old) (R.remaining input.new) 1 }
    ensures fault { IfErr result (λ fault. fault ≡ FileFault.Read) }
{
    let mut byte = [0u8; 1];
    match input.read(&mut byte) {
        Ok(count) => Ok(count == 0),
        Err(_) => Err(FileFault::Read),
    }
}

/// Reads all that a reader has left, if that and the bytes so far are no longer than the limit. It
/// stops reading at the first byte past the limit. The faults are those of `read_up_to`.
pub fn read_rest_up_to<R: Read>(
    input: &mut R,
    bytes: &mut Vec<u8>,
    limit: usize,
) -> Result<(), FileFault>
    requires { vec_len bytes.old ≤ limit }
    ensures whole { OnOk result (AppendsRest (R.remaining input.old) bytes.old.items bytes.new.items) }
    ensures within { OnOk result (vec_len bytes.new ≤ limit) }
    ensures err { IfErr result (IsReadFault (TakesBytes (R.remaining input.old) (R.remaining input.new) (limit + 1 - vec_len bytes.old))) }
    ensures taken { TakesUpTo (R.remaining input.old) (R.remaining input.new) (limit + 1 - vec_len bytes.old) }
{
    if read_on(input, bytes, limit)? {
        return Ok(());
    }
    if is_at_end(input)? {
        Ok(())
    } else {
        Err(FileFault::TooLong)
    }
}

/// All that a reader gives, if that is no longer than the limit. It stops reading at the first byte
/// past the limit. `Read` comes where a read fails and where there is no memory for the bytes.
pub fn read_up_to<R: Read>(alloc: Global, input: &mut R, limit: usize) -> Result<Vec<u8>, FileFault>
    ensures whole { IfOk result (λ bytes. HoldsBytes (R.remaining input.old) bytes.items) }
    ensures within { IfOk result (λ bytes. vec_len bytes ≤ limit) }
    ensures err { IfErr result (IsReadFault (TakesBytes (R.remaining input.old) (R.remaining input.new) (limit + 1))) }
    ensures taken { TakesUpTo (R.remaining input.old) (R.remaining input.new) (limit + 1) }
{
    let mut bytes = Vec::new(alloc);
    read_rest_up_to(input, &mut bytes, limit)?;
    Ok(bytes)
}

/// The first line of a reader without its line feed, if that is no longer than the limit. Nothing
/// past the line feed is read. The faults are those of `read_up_to`.
pub fn read_line_up_to<R: Read>(
    alloc: Global,
    input: &mut R,
    limit: usize,
) -> Result<Vec<u8>, FileFault>
    requires { limit + 1 < 2 ^ 64 }
    ensures line { IfOk result (λ line. TakesLine (R.remaining input.old) (R.remaining input.new) line.items) }
    ensures within { IfOk result (λ line. vec_len line ≤ limit) }
    ensures err { IfErr result (IsReadFault (TakesOfLine (R.remaining input.old) (R.remaining input.new) (limit + 1))) }
    ensures taken { TakesUpTo (R.remaining input.old) (R.remaining input.new) (limit + 1) }
{
    let mut line = Vec::new(alloc);
    let mut byte = [0u8; 1];
    while line.len() <= limit {
        match input.read(&mut byte) {
            Ok(0) => return Ok(line),
            Ok(_) => {
                if byte[0] == b'\n' {
                    return Ok(line);
                }
                if line.push(byte[0]).is_err() {
                    return Err(FileFault::Read);
                }
            }
            Err(_) => return Err(FileFault::Read),
        }
    }
    Err(FileFault::TooLong)
}

/// Writes all of the bytes, or a front of them where the writer fails. A writer that takes no byte fails.
pub fn write_bytes<W: Write>(output: &mut W, bytes: &[u8]) -> Result<(), FileFault>
    ensures ok { OnOk result (Appends (W.contents output.old) (W.contents output.new) bytes.now) }
    ensures err { OnErr result (AppendsFront (W.contents output.old) (W.contents output.new) bytes.now) }
    ensures fault { IfErr result (λ fault. fault ≡ FileFault.Write) }
{
    let mut sent = 0;
    while sent < bytes.len() {
        match output.write(bytes.split_at(sent).1) {
            Ok(0) => return Err(FileFault::Write),
            Ok(count) => sent += count,
            Err(_) => return Err(FileFault::Write),
        }
    }
    Ok(())
}

/// Writes all pages of a text. Where the writer fails, some of its bytes may be written.
pub(crate) fn write_pages<W: Write>(output: &mut W, text: &Pages) -> Result<(), FileFault>
    ensures ok { OnOk result (Appends (W.contents output.old) (W.contents output.new) text.now) }
    ensures fault { IfErr result (λ fault. fault ≡ FileFault.Write) }
{
    for page in text.as_slice() {
        match output.write_all(page) {
            Ok(()) => {}
            Err(_) => return Err(FileFault::Write),
        }
    }
    Ok(())
}
