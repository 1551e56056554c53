//! The real files. What they hold isn't told.
ghost use Rattle.std.specs.Prelude.{◌≡◌, ◌≤◌, None, IfOk, length, Err};
ghost use Rattle.co_link.specs.Causes.{FaultCause};
ghost use Rattle.co_link.specs.Taken.{ReadsWithin};
ghost use Rattle.co_link.specs.declared.files.FileFault.TheVariants.{Failed, TooLong};

use crate::failures::Failures;
use crate::taking::{TakeFault, take_up_to};
use crate::{Bytes, FileFault, FileKind, Files, Source, StdSource};
use std::alloc::Global;
use std::fs::{File, OpenFile, Permissions};
use std::io::{ErrorKind, Write};
use std::{fs, rt};

/// How many names beside a file are tried.
const NAMES: u32 = 100;

/// The files of the system. They don't tell what they hold.
pub struct StdFiles<'a, R: rt::Files> {
    rt: &'a R,
    alloc: Global,
    failures: Failures,
}

impl<R: rt::Files> Drop for StdFiles<'_, R> {
    fn drop(self) {
        let StdFiles {
            rt: _,
            alloc: _,
            failures: _,
        } = self;
    }
}

impl<'a, R: rt::Files> StdFiles<'a, R> {
    /// The files that the runtime gives, with no failure so far.
    pub fn new(rt: &'a R, alloc: Global) -> Self {
        StdFiles {
            rt,
            alloc,
            failures: Failures::none(),
        }
    }
}

/// All that a source has left, where it is at most `limit` bytes; the first `limit` bytes and one
/// more decide. `length` is what the source is expected to have.
pub fn read_within<S: Source>(
    alloc: Global,
    source: &mut S,
    length: u64,
    limit: u64,
) -> Result<Bytes, FileFault>
    ensures read { ReadsWithin limit (S.left source.old) (S.left source.new) result }
    ensures cause { (result ≡ Err TooLong → ⊥)
        → FaultCause Failed (S.faults source.old) (S.faults source.new) result }
    ensures beside { S.beside source.new ≡ S.beside source.old }
{
    let most = (limit as usize).saturating_add(1);
    let expected = (length.min(limit) as usize).saturating_add(1);
    let mut held = Vec::new(alloc);
    match take_up_to(&mut held, source, expected, most) {
        Ok(()) => {}
        Err(TakeFault::Failed) => return Err(FileFault::Failed),
        Err(TakeFault::OutOfMemory) => return Err(FileFault::OutOfMemory),
    }
    if held.len() as u64 > limit {
        return Err(FileFault::TooLong);
    }
    Ok(Bytes::from_vec(held))
}

fn read_file<R: rt::Files>(
    rt: &R,
    alloc: Global,
    name: &str,
    limit: u64,
) -> Result<Bytes, FileFault>
    ensures { IfOk result (λ bytes. length bytes ≤ limit) }
{
    let Ok(file) = fs::open(rt, name) else {
        return Err(FileFault::Failed);
    };
    let length = match file.metadata() {
        Ok(found) => found.len(),
        Err(_) => 0,
    };
    read_within(alloc, &mut StdSource::new(file), length, limit)
}

// Makes a file that isn't there yet; none where one is.
fn create_new<R: rt::Files>(rt: &R, name: &str) -> Result<Option<R::File>, FileFault>
    ensures { result ≡ Err TooLong → ⊥ }
{
    match File::create_new(rt, name) {
        Ok(file) => Ok(Some(file)),
        Err(e) if e.kind() == ErrorKind::AlreadyExists => Ok(None),
        Err(_) => Err(FileFault::Failed),
    }
}

// Makes a file NAME.0.part, or NAME.1.part and so on where that name is taken.
fn create_beside<R: rt::Files>(
    rt: &R,
    alloc: Global,
    name: &str,
) -> Result<(String, R::File), FileFault>
    ensures { result ≡ Err TooLong → ⊥ }
{
    for number in 0..NAMES {
        let Ok(beside) = format!(in alloc; "{name}.{number}.part") else {
            return Err(FileFault::OutOfMemory);
        };
        if let Some(file) = create_new(rt, beside.as_str())? {
            return Ok((beside, file));
        }
    }
    Err(FileFault::Failed)
}

// Writes a whole file, and waits until the disk has it; says whether it could.
fn fill_file<F: Write + OpenFile + Drop>(
    mut file: F,
    mode: Option<Permissions>,
    bytes: &[u8],
) -> bool {
    let ready = match mode {
        Some(mode) => file.set_permissions(mode).is_ok(),
        None => true,
    };
    ready && file.write_all(bytes).is_ok() && file.sync_all().is_ok()
}

// Writes a file beside the name and renames it over that; after a fault it takes that file away,
// and what was under the name is as before.
fn replace_file<R: rt::Files>(
    rt: &R,
    alloc: Global,
    name: &str,
    mode: Option<Permissions>,
    bytes: &[u8],
) -> Result<(), FileFault>
    ensures { result ≡ Err TooLong → ⊥ }
{
    let (beside, file) = create_beside(rt, alloc, name)?;
    if fill_file(file, mode, bytes) && fs::rename(rt, beside.as_str(), name).is_ok() {
        return Ok(());
    }
    let _ = fs::remove_file(rt, beside.as_str());
    Err(FileFault::Failed)
}

// Replaces a file through a link to it.
fn replace_linked<R: rt::Files>(
    rt: &R,
    alloc: Global,
    name: &str,
    mode: Permissions,
    bytes: &[u8],
) -> Result<(), FileFault>
    ensures { result ≡ Err TooLong → ⊥ }
{
    match rt.canonicalize(alloc, name) {
        Ok(path) => replace_file(rt, alloc, path.as_str(), Some(mode), bytes),
        Err(e) if e.kind() == ErrorKind::OutOfMemory => Err(FileFault::OutOfMemory),
        Err(_) => Err(FileFault::Failed),
    }
}

// Writes a file: through a link to the file that it names, and to a device or a pipe in place.
fn write_file<R: rt::Files>(
    rt: &R,
    alloc: Global,
    name: &str,
    bytes: &[u8],
) -> Result<(), FileFault>
    ensures { result ≡ Err TooLong → ⊥ }
{
    let Ok(found) = fs::metadata(rt, name) else {
        return replace_file(rt, alloc, name, None, bytes);
    };
    if found.is_file() {
        return replace_linked(rt, alloc, name, found.permissions(), bytes);
    }
    if fs::write(rt, name, bytes).is_err() {
        return Err(FileFault::Failed);
    }
    Ok(())
}

impl<R: rt::Files> Files for StdFiles<'_, R> {
    ghost use Rattle.std.specs.Prelude.{None};
    ghost use Rattle.co_link.specs.Failures.{last_of};

    ghost held = { λ s. None };

    ghost faults = { λ s. s.failures.count };

    ghost last_failed = { λ s. last_of s.failures };

    fn read(&mut self, name: &str, limit: u64) -> Result<Bytes, FileFault> {
        let Ok(kept) = String::from_str(self.alloc, name) else {
            return Err(FileFault::OutOfMemory);
        };
        let found = read_file(self.rt, self.alloc, name, limit);
        self.failures.note(FileKind::Read, kept, &found);
        found
    }

    fn write(&mut self, name: &str, bytes: &[u8]) -> Result<(), FileFault> {
        let Ok(kept) = String::from_str(self.alloc, name) else {
            return Err(FileFault::OutOfMemory);
        };
        let written = write_file(self.rt, self.alloc, name, bytes);
        self.failures.note(FileKind::Write, kept, &written);
        written
    }
}
