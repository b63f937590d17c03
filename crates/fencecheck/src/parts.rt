//! An input with a litmus text and a certificate after it.

ghost use Rattle.std.specs.Prelude.{◌≤◌, ◌↔◌, drop, length, take, IsTrue, IfOk, IfErr};
ghost use Rattle.program_streams.specs.Streams.{HoldsBytes, IsReadFault};
ghost use Rattle.fencecheck.specs.Inputs.{BeginsLine, StartsAt, IsCertificateStart, ArePartsOf, IsTooLongInput, ReadsEnough};

use program_streams::{FileFault, TEXT_LIMIT, read_on, read_rest_up_to};
use std::alloc::Global;
use std::io::Read;

/// The most bytes of a certificate file.
pub const CERTIFICATE_LIMIT: usize = 1_073_741_824;

/// So many bytes show whether a certificate starts within the limit of a litmus text, or at its end: up to the end of
/// `FENCECERT ` there.
pub const FRONT_LIMIT: usize = TEXT_LIMIT + 10;

/// Whether a line begins after these bytes.
fn begins_line(before: &[u8]) -> bool
    ensures { IsTrue result ↔ BeginsLine before.now }
{
    match before.last() {
        None => true,
        Some(byte) => *byte == b'\n',
    }
}

/// Whether a certificate starts at this place of the bytes.
fn starts_at(bytes: &[u8], place: usize) -> bool
    requires { place ≤ length bytes.now }
    ensures { IsTrue result ↔ StartsAt bytes.now place }
{
    let (before, rest) = bytes.split_at(place);
    begins_line(before) && rest.starts_with(b"FENCECERT ")
}

/// Where the certificate starts: at the first line that begins as one, or at the end.
fn certificate_start(bytes: &[u8]) -> usize
    ensures start { IsCertificateStart bytes.now result }
    ensures within { result ≤ length bytes.now }
{
    for place in 0..bytes.len() {
        if starts_at(bytes, place) {
            return place;
        }
    }
    bytes.len()
}

/// An input that was read, and where the certificate starts in it.
#[derive(Drop)]
pub(crate) struct Joined {
    pub(crate) bytes: Vec<u8>,
    pub(crate) start: usize,
}

/// Reads a litmus text and the certificate after it. It stops reading once a part is too long: `TooLong` comes whatever
/// follows, and whether or not that can be read.
pub(crate) fn read_joined<R: Read>(alloc: Global, input: &mut R) -> Result<Joined, FileFault>
    ensures whole { IfOk result (λ joined. HoldsBytes (R.remaining input.old) joined.bytes.items) }
    ensures parts { IfOk result (λ joined. ArePartsOf joined.bytes.items (take joined.start joined.bytes.items) (drop joined.start joined.bytes.items)) }
    ensures within { IfOk result (λ joined. joined.start ≤ length joined.bytes.items) }
    ensures err { IfErr result (IsReadFault (IsTooLongInput (R.remaining input.old))) }
    ensures read { ReadsEnough (R.remaining input.old) (R.remaining input.new) }
{
    let mut bytes = Vec::new(alloc);
    let ended = read_on(input, &mut bytes, FRONT_LIMIT)?;
    let start = certificate_start(&bytes);
    if start > TEXT_LIMIT {
        return Err(FileFault::TooLong);
    }
    if ended {
        return Ok(Joined { bytes, start });
    }
    read_rest_up_to(input, &mut bytes, start + CERTIFICATE_LIMIT)?;
    Ok(Joined { bytes, start })
}
