//! A whole run of the program, over a reader and a writer.

ghost use Rattle.std.specs.Prelude.{◌≡◌, ◌==◌, ◌||◌, IfOk, IfErr, ⊤, length, map, nat_lt, option_map, string_bytes};
ghost use Rattle.program_streams.specs.Streams.{Prints};
ghost use Rattle.program_streams.specs.Files.{ReadsOfInput};
ghost use Rattle.fencecheck.specs.Verdicts.{IsVerdict};
ghost use Rattle.fencecheck.specs.Replies.{usage_text, AreOfFiles, IsFilesFault, IsVerdictOnInput, IsReplyToFiles, IsCheckOutput};
ghost use Rattle.fencecheck.specs.Inputs.{ReadsEnough, ReadsForVerdict};
ghost use Rattle.fencecheck.specs.Internal.Names.{file_names_of};

use crate::advice::{
    JudgedTexts, refusal_advice, tell_misuse, unread, unread_advice, unread_input_advice,
};
use crate::judge::{judge, refusal_line};
use crate::parts::{CERTIFICATE_LIMIT, read_joined};
use messages::{STDIN, file_or_input};
use program_streams::{
    Console, FileStore, TEXT_LIMIT, UnreadFile, asks_version, bytes_if_named, file_line,
    named_bytes, print, refuse, version_line,
};
use std::alloc::{AllocError, Global};
use std::io::Read;

/// The program's name.
const NAME: &str = "fencecheck";

const USAGE: &[u8] = b"\
usage: fencecheck LITMUS CERTIFICATE [COSTS]
Judges whether a certificate proves which gaps of a program are its cheapest places for MFENCE.
Prints `accepted cost N set T:K ..` with status 0, or a refusal in one line with status 1.
LITMUS is a litmus file, or - for standard input; COSTS says what gaps cost, 1 each without it.
Without arguments the litmus text, and the certificate after it, are read from standard input.
Refusals are explained in docs/formats.md.
Example: fencecheck examples/SB.litmus examples/SB.cert
";

/// How the program is called.
fn usage_text(alloc: Global) -> Result<Vec<u8>, AllocError>
    ensures { IfOk result (λ text. text.items ≡ usage_text) }
{
    Vec::from_slice(alloc, USAGE)
}

/// Judges a certificate, prints the verdict, and returns the status.
fn print_verdict<W: Console>(
    alloc: Global,
    names: InputNames<'_>,
    litmus: &[u8],
    certificate: &[u8],
    costs: Option<&[u8]>,
    output: &mut W,
) -> u8
    ensures { Prints (IsVerdict litmus.now certificate.now (option_map (λ text. text.now) costs.entry)) (W.contents output.old) (W.contents output.new) result }
{
    match judge(alloc, litmus, certificate, costs) {
        Ok(line) => print(output, Ok(line), 0),
        Err(refusal) => {
            let subject = JudgedTexts {
                names,
                litmus,
                certificate,
                costs,
            };
            let on_terminal = output.progress().is_shown();
            let message = refusal_advice(alloc, subject, &refusal, on_terminal);
            refuse(output, refusal_line(alloc, &refusal), message)
        }
    }
}

/// Judges what the reader gives: a litmus text, and after it a certificate.
fn run_input<R: Read, W: Console>(alloc: Global, input: &mut R, output: &mut W) -> u8
    ensures printed { Prints (IsVerdictOnInput (R.remaining input.old)) (W.contents output.old) (W.contents output.new) result }
    ensures read { ReadsEnough (R.remaining input.old) (R.remaining input.new) }
{
    match read_joined(alloc, input) {
        Ok(joined) => {
            let (litmus, certificate) = joined.bytes.split_at(joined.start);
            print_verdict(alloc, JOINED, litmus, certificate, None, output)
        }
        Err(fault) => {
            let message = unread_input_advice(alloc, fault);
            refuse(output, file_line(alloc, fault), message)
        }
    }
}

/// The names of files.
#[derive(Clone, Copy)]
pub(crate) struct InputNames<'a> {
    pub(crate) litmus: &'a str,
    pub(crate) certificate: &'a str,
    pub(crate) costs: Option<&'a str>,
}

/// The names of texts that are read from the input, one after the other.
pub(crate) const JOINED: InputNames<'static> = InputNames {
    litmus: "-",
    certificate: STDIN,
    costs: None,
};

/// What files hold.
#[derive(Drop)]
struct Texts {
    litmus: Vec<u8>,
    certificate: Vec<u8>,
    costs: Option<Vec<u8>>,
}

/// The bytes of files. The litmus file is read first, then the certificate, and then the costs.
fn texts_of<'a, S: FileStore, R: Read>(
    alloc: Global,
    files: &S,
    names: InputNames<'a>,
    input: &mut R,
) -> Result<Texts, UnreadFile<'a>>
    ensures texts { IfOk result (λ texts. AreOfFiles (file_names_of names.entry) (R.remaining input.old) (S.held files.now) texts.litmus.items texts.certificate.items (option_map (λ text. text.items) texts.costs)) }
    ensures err { IfErr result (λ file. IsFilesFault (file_names_of names.entry) (R.remaining input.old) (S.held files.now) file.fault) }
    ensures read { ReadsOfInput TEXT_LIMIT (file_names_of names.entry).litmus (R.remaining input.old) (R.remaining input.new) }
{
    let litmus = match named_bytes(alloc, files, names.litmus, input, TEXT_LIMIT) {
        Ok(bytes) => bytes,
        Err(fault) => return Err(unread(file_or_input(names.litmus), TEXT_LIMIT, fault)),
    };
    let certificate = match files.file_bytes(alloc, names.certificate, CERTIFICATE_LIMIT) {
        Ok(bytes) => bytes,
        Err(fault) => return Err(unread(names.certificate, CERTIFICATE_LIMIT, fault)),
    };
    match bytes_if_named(alloc, files, names.costs, TEXT_LIMIT) {
        Ok(costs) => Ok(Texts {
            litmus,
            certificate,
            costs,
        }),
        Err(fault) => Err(unread(names.costs.unwrap_or(""), TEXT_LIMIT, fault)),
    }
}

/// Judges texts, and prints the verdict.
fn tell_texts<W: Console>(alloc: Global, names: InputNames<'_>, texts: &Texts, output: &mut W) -> u8
    ensures { Prints (IsVerdict texts.now.litmus.items texts.now.certificate.items (option_map (λ text. text.items) texts.now.costs)) (W.contents output.old) (W.contents output.new) result }
{
    let costs = texts.costs.as_deref();
    print_verdict(
        alloc,
        names,
        &texts.litmus,
        &texts.certificate,
        costs,
        output,
    )
}

/// Judges what files hold.
fn run_files<S: FileStore, R: Read, W: Console>(
    alloc: Global,
    files: &S,
    names: InputNames<'_>,
    input: &mut R,
    output: &mut W,
) -> u8
    ensures printed { Prints (IsReplyToFiles (file_names_of names.entry) (R.remaining input.old) (S.held files.now)) (W.contents output.old) (W.contents output.new) result }
    ensures read { ReadsOfInput TEXT_LIMIT (file_names_of names.entry).litmus (R.remaining input.old) (R.remaining input.new) }
{
    match texts_of(alloc, files, names, input) {
        Ok(texts) => tell_texts(alloc, names, &texts, output),
        Err(file) => {
            let message = unread_advice(alloc, files, file);
            refuse(output, file_line(alloc, file.fault), message)
        }
    }
}

/// Whether there is one word, or more than three.
fn is_misused(words: &[String]) -> bool
    ensures { result ≡ (length words.now == 1 || nat_lt 3 (length words.now)) }
{
    words.len() == 1 || words.len() > 3
}

/// The program: it judges the certificate of the files that the arguments name, prints the verdict on one line, and
/// returns its status. With no arguments it judges what the reader gives. It reads no more of the reader than shows that a
/// part of it is too long.
///
/// Status 0 means that the certificate is accepted and the line is written. Status 1 is a refusal, reported on one
/// line, a writer that fails or takes no byte, or out of memory for that line, with nothing written. Status 2 is a
/// bad command line, reported on the writer too.
pub fn run_command<S: FileStore, R: Read, W: Console>(
    alloc: Global,
    files: &S,
    words: &[String],
    input: &mut R,
    output: &mut W,
) -> u8
    ensures printed { Prints (IsCheckOutput (map string_bytes words.now) (R.remaining input.old) (S.held files.now)) (W.contents output.old) (W.contents output.new) result }
    ensures read { ReadsForVerdict (map string_bytes words.now) (R.remaining input.old) (R.remaining input.new) }
{
    if asks_version(words) {
        return print(output, version_line(alloc, NAME), 0);
    }
    if is_misused(words) {
        tell_misuse(alloc, words, output);
        return print(output, usage_text(alloc), 2);
    }
    let names = match words {
        [] => return run_input(alloc, input, output),
        [litmus, certificate] => InputNames {
            litmus: litmus.as_str(),
            certificate: certificate.as_str(),
            costs: None,
        },
        [litmus, certificate, costs] => InputNames {
            litmus: litmus.as_str(),
            certificate: certificate.as_str(),
            costs: Some(costs.as_str()),
        },
        _ => unreachable!(),
    };
    run_files(alloc, files, names, input, output)
}
