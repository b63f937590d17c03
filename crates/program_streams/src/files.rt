//! Files by their names.

ghost use Rattle.std.specs.Prelude.{◌≡◌, ◌+◌, ◌<◌, ◌^◌, ℕ, List, Option, None, IfOk, IfErr, OnOk, option_map};
ghost use Rattle.program_streams.specs.Streams.{HoldsBytes, IsReadFault};
ghost use Rattle.program_streams.specs.Files.{AreWithin, IsTooLong, AreOfFile, IsFileFault, AreOfFileIfNamed, IsNamedFileFault, KeepOthers, ReadsOfInput};

use crate::fault::FileFault;
use crate::streams::{read_up_to, write_pages};
use paged_text::Pages;
use std::alloc::Global;
use std::fs;
use std::fs::File;
use std::io::{ErrorKind, Read};
use std::rt::Files;

/// The most bytes of a litmus file, of a cost file, and of a command line that is read from the input.
pub const TEXT_LIMIT: usize = 1_048_576;

/// What stands in the way of reading a file, as far as the system says.
#[derive(Clone, Copy)]
pub enum Obstacle {
    /// There is no such file.
    Missing,
    /// The user may not read it.
    Forbidden,
    /// It is a directory.
    Directory,
    /// Nothing that is known.
    Unknown,
}

/// Where files are found by their names.
pub trait FileStore {
    // What the file of a name holds, where that is known.
    ghost held: { Self → List ℕ → Option (List ℕ) } = { λ _ name. None };

    /// The bytes of a file, if they are no more than the limit. `Read` comes where the file can't be
    /// read and where there is no memory for the bytes.
    fn file_bytes(&self, alloc: Global, name: &str, limit: usize) -> Result<Vec<u8>, FileFault>
        requires { limit + 1 < 2 ^ 64 }
        ensures whole { IfOk result (λ bytes. AreWithin limit (held self.now name.now) bytes.items) }
        ensures err { IfErr result (IsReadFault (IsTooLong limit (held self.now name.now))) };

    /// What stands in the way of reading a file, for a message: by now that may be something else than when it was read.
    fn obstacle(&self, name: &str) -> Obstacle;
}

/// Where files are written by their names, too.
pub trait WritableFileStore: FileStore {
    /// Writes a text, page after page, to a file, which is made if it does not exist; what it held before is
    /// gone. `Write` comes where the file can't be made or a write fails, and says nothing of what the
    /// file then holds.
    fn write_file(&mut self, name: &str, text: &Pages) -> Result<(), FileFault>
        ensures written { OnOk result (HoldsBytes (Self.held self.new name.now) text.now) }
        ensures others { KeepOthers name.now (Self.held self.old) (Self.held self.new) }
        ensures fault { IfErr result (λ fault. fault ≡ FileFault.Write) };
}

/// The files of the system. No contract knows what they hold.
#[derive(Drop)]
pub struct SystemFiles<'a, F> {
    files: &'a F,
}

impl<'a, F: Files> SystemFiles<'a, F> {
    /// The files to which a runtime gives access.
    pub fn new(files: &'a F) -> Self {
        SystemFiles { files }
    }
}

impl<F: Files> FileStore for SystemFiles<'_, F> {
    fn file_bytes(&self, alloc: Global, name: &str, limit: usize) -> Result<Vec<u8>, FileFault> {
        match File::open(self.files, name) {
            Ok(file) => {
                let mut file = file;
                read_up_to(alloc, &mut file, limit)
            }
            Err(_) => Err(FileFault::Read),
        }
    }

    fn obstacle(&self, name: &str) -> Obstacle {
        match fs::metadata(self.files, name) {
            Ok(found) if found.is_dir() => Obstacle::Directory,
            Ok(found) if found.is_file() => obstacle_at(self.files, name),
            Ok(_) => Obstacle::Unknown,
            Err(error) => obstacle_of(error.kind()),
        }
    }
}

/// What stands in the way of opening a file that is there, and is no pipe: opening one may wait.
fn obstacle_at<F: Files>(files: &F, name: &str) -> Obstacle {
    match File::open(files, name) {
        Ok(_) => Obstacle::Unknown,
        Err(error) => obstacle_of(error.kind()),
    }
}

/// What an error says.
fn obstacle_of(kind: ErrorKind) -> Obstacle {
    match kind {
        ErrorKind::NotFound | ErrorKind::NotADirectory => Obstacle::Missing,
        ErrorKind::PermissionDenied => Obstacle::Forbidden,
        ErrorKind::IsADirectory => Obstacle::Directory,
        _ => Obstacle::Unknown,
    }
}

impl<F: Files> WritableFileStore for SystemFiles<'_, F> {
    fn write_file(&mut self, name: &str, text: &Pages) -> Result<(), FileFault> {
        match File::create(self.files, name) {
            Ok(file) => {
                let mut file = file;
                write_pages(&mut file, text)
            }
            Err(_) => Err(FileFault::Write),
        }
    }
}

/// The bytes of a file, or of the reader where the file's name is `-`, if they are no more than the limit.
pub fn named_bytes<S: FileStore, R: Read>(
    alloc: Global,
    files: &S,
    name: &str,
    input: &mut R,
    limit: usize,
) -> Result<Vec<u8>, FileFault>
    requires { limit + 1 < 2 ^ 64 }
    ensures whole { IfOk result (λ bytes. AreOfFile limit name.now (R.remaining input.old) (S.held files.now) bytes.items) }
    ensures err { IfErr result (IsFileFault limit name.now (R.remaining input.old) (S.held files.now)) }
    ensures read { ReadsOfInput limit name.now (R.remaining input.old) (R.remaining input.new) }
{
    if name == "-" {
        read_up_to(alloc, input, limit)
    } else {
        files.file_bytes(alloc, name, limit)
    }
}

/// The bytes of a file that may be named, if they are no more than the limit.
pub fn bytes_if_named<S: FileStore>(
    alloc: Global,
    files: &S,
    name: Option<&str>,
    limit: usize,
) -> Result<Option<Vec<u8>>, FileFault>
    requires { limit + 1 < 2 ^ 64 }
    ensures whole { IfOk result (λ bytes. AreOfFileIfNamed limit (option_map (λ name. name.now) name.entry) (S.held files.now) (option_map (λ bytes. bytes.items) bytes)) }
    ensures err { IfErr result (IsNamedFileFault limit (option_map (λ name. name.now) name.entry) (S.held files.now)) }
{
    match name {
        Some(name) => Ok(Some(files.file_bytes(alloc, name, limit)?)),
        None => Ok(None),
    }
}
