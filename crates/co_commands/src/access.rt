//! The way to a file and to the output, with the refusals that end there.
ghost use Rattle.co_commands.specs.Outside.{files_by, sink_by};
ghost use Rattle.co_commands.specs.Access.{HasAtMost, UnreadCause, Opens, Puts};

use crate::refusals::Refusal;
use co_link::{Bytes, FileFault, FileKind, Files, Sink};

/// The bytes of a file, or none where it has more than `limit`.
pub fn read_file<F: Files>(name: &str, limit: u64, files: &mut F) -> Result<Option<Bytes>, Refusal>
    ensures { let at = files_by F.held F.faults F.last_failed in
        Opens (HasAtMost limit) UnreadCause name.now (at files.old) (at files.new) result }
{
    match files.read(name, limit) {
        Ok(bytes) => Ok(Some(bytes)),
        Err(FileFault::Failed) => Err(Refusal::File(FileKind::Read)),
        Err(FileFault::TooLong) => Ok(None),
        Err(FileFault::OutOfMemory) => Err(Refusal::Memory),
    }
}

/// Puts the text of an answer on the output.
pub fn put_answer<O: Sink>(text: &[u8], out: &mut O) -> Result<(), Refusal>
    ensures { let at = sink_by O.put_so_far O.faults in
        Puts text.now (at out.old) (at out.new) result }
{
    match out.put(text) {
        Ok(()) => Ok(()),
        Err(_) => Err(Refusal::Output),
    }
}
