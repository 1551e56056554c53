//! Why the program refuses, with which status, and the line that it puts on the error output.
ghost use Rattle.std.specs.Prelude.{◌≡◌, ◌≤◌, map, string_bytes};
ghost use Rattle.co_link.specs.Causes.{Rose};
ghost use Rattle.co_link.specs.Held.{TookWhole};
ghost use Rattle.co_commands.specs.Refusals.{status_of, status_of_corpus, status_of_publishing, name_of};
ghost use Rattle.co_commands.specs.Refusals.{with_number, line_text, corpus_text, test_text};
ghost use Rattle.co_commands.specs.Refusals.{setting_text, publishing_text, text_of, flat, Says};
ghost use Rattle.co_commands.specs.Outside.{sink_by};

use crate::search_faults::{say_search, status_of_search};
use co_client::SearchFault;
use co_corpus::CorpusFault;
use co_library::{PublishFault, SettingName};
use co_link::{FileKind, Sink};
use co_noise::TestFault;
use itoa::Buffer;

/// Why the program refuses. A fault of the corpus or of publishing that is want of memory reads as
/// `Memory`.
#[derive(Drop)]
pub enum Refusal {
    /// The words are outside the grammar.
    Words,
    /// The file isn't a corpus.
    Corpus(CorpusFault),
    /// The corpus file has more bytes than it may.
    CorpusTooLong,
    /// The corpus isn't published, or a setting of `plain` is out of its range.
    Publish(PublishFault),
    /// The library file has more bytes than it may.
    LibraryTooLong,
    /// The file isn't a library: the offset of the first field that is wrong or not whole.
    Library(u64),
    /// The shape, or that of the library, leaves no room for noise.
    Test(TestFault),
    /// The query has so many distinct terms, which are too many.
    Keywords(u32),
    /// The search over a link gives no answer.
    Search(SearchFault),
    /// The server couldn't be dialled.
    Dial,
    /// The port couldn't be listened on, or a connection couldn't be accepted.
    Port,
    /// The command's own file couldn't be read or written.
    File(FileKind),
    /// The output failed.
    Output,
    /// There is no memory for the work.
    Memory,
}

fn status_of_corpus(fault: CorpusFault) -> u8
    ensures { result ≡ status_of_corpus fault }
{
    match fault {
        CorpusFault::OutOfMemory => 10,
        _ => 3,
    }
}

fn status_of_publishing(fault: PublishFault) -> u8
    ensures { result ≡ status_of_publishing fault }
{
    match fault {
        PublishFault::Test(_) => 4,
        PublishFault::OutOfMemory => 10,
        _ => 3,
    }
}

impl Refusal {
    fn status(&self) -> u8
        ensures { result ≡ status_of self.now }
    {
        match self {
            Refusal::Words => 2,
            Refusal::Corpus(fault) => status_of_corpus(*fault),
            Refusal::CorpusTooLong => 3,
            Refusal::Publish(fault) => status_of_publishing(*fault),
            Refusal::LibraryTooLong => 3,
            Refusal::Library(_) => 3,
            Refusal::Test(_) => 4,
            Refusal::Keywords(_) => 5,
            Refusal::Search(fault) => status_of_search(fault),
            Refusal::Dial => 7,
            Refusal::Port => 7,
            Refusal::File(_) => 9,
            Refusal::Output => 9,
            Refusal::Memory => 10,
        }
    }
}

/// Puts parts on the error output, up to the first that fails.
pub fn put_parts<E: Sink>(parts: &[&str], err: &mut E)
    ensures later { E.faults err.old ≤ E.faults err.new }
    ensures says { ¬ (Rose (E.faults err.old) (E.faults err.new)) →
        TookWhole (E.put_so_far err.old) (E.put_so_far err.new)
        (flat (map (λ part. part.now) parts.now)) }
{
    for part in parts {
        if err.put(part.as_bytes()).is_err() {
            return;
        }
    }
}

/// Says a text as a line on the error output. Its failure is let go.
pub fn say<E: Sink>(parts: &[&str], err: &mut E)
    ensures { let at = sink_by E.put_so_far E.faults in
        Says (flat (map (λ part. part.now) parts.now)) (at err.old) (at err.new) }
{
    put_parts(&["coeus: "], err);
    put_parts(parts, err);
    put_parts(&["\n"], err);
}

/// Says a text with a number in it.
pub fn say_number<E: Sink>(before: &str, number: u128, after: &str, err: &mut E)
    ensures { let at = sink_by E.put_so_far E.faults in
        Says (with_number before.now number after.now) (at err.old) (at err.new) }
{
    let mut digits = Buffer::new();
    say(&[before, digits.format(number), after], err);
}

// Says at which line a file isn't a corpus.
fn say_line<E: Sink>(line: u64, what: &str, err: &mut E)
    ensures { let at = sink_by E.put_so_far E.faults in
        Says (line_text line what.now) (at err.old) (at err.new) }
{
    let mut digits = Buffer::new();
    say(&["corpus line ", digits.format(line), ": ", what], err);
}

// Says why a file isn't a corpus.
fn say_corpus<E: Sink>(fault: CorpusFault, err: &mut E)
    ensures { let at = sink_by E.put_so_far E.faults in
        Says (corpus_text fault) (at err.old) (at err.new) }
{
    match fault {
        CorpusFault::Empty => say(&["corpus: no document"], err),
        CorpusFault::BadJson { line } => say_line(line, "not JSON", err),
        CorpusFault::NotObject { line } => say_line(line, "not an object", err),
        CorpusFault::NoText { line } => say_line(line, "no text", err),
        CorpusFault::TitleNotText { line } => say_line(line, "title is not text", err),
        CorpusFault::TextTooLong { line } => say_line(line, "text too long", err),
        CorpusFault::TooMany { line } => say_line(line, "too many documents", err),
        CorpusFault::OutOfMemory => say(&["memory"], err),
    }
}

/// Says by which comparison a shape fails the test.
pub fn say_test<E: Sink>(fault: TestFault, err: &mut E)
    ensures { let at = sink_by E.put_so_far E.faults in
        Says (test_text fault) (at err.old) (at err.new) }
{
    match fault {
        TestFault::RowsOverDegree { rows, degree } => {
            let mut digits = Buffer::new();
            let mut more_digits = Buffer::new();
            let rows = digits.format(rows);
            let degree = more_digits.format(degree);
            say(&["test: rows ", rows, " over degree ", degree], err);
        }
        TestFault::Score { bound } => say_number("test: score bound ", bound, "", err),
        TestFault::Records { bound } => say_number("test: records bound ", bound, "", err),
        TestFault::Bins { bound } => say_number("test: bins bound ", bound, "", err),
    }
}

// Says which setting is out of its range.
fn say_setting<E: Sink>(which: SettingName, err: &mut E)
    ensures { let at = sink_by E.put_so_far E.faults in
        Says (setting_text which) (at err.old) (at err.new) }
{
    match which {
        SettingName::Degree => say(&["setting degree out of range"], err),
        SettingName::Terms => say(&["setting terms out of range"], err),
        SettingName::Hits => say(&["setting hits out of range"], err),
        SettingName::Chunks => say(&["setting chunks out of range"], err),
    }
}

// Says why a corpus isn't published.
fn say_publishing<E: Sink>(fault: PublishFault, err: &mut E)
    ensures { let at = sink_by E.put_so_far E.faults in
        Says (publishing_text fault) (at err.old) (at err.new) }
{
    match fault {
        PublishFault::Setting { which } => say_setting(which, err),
        PublishFault::TooManyWeights { entries } => {
            say_number("too many weights ", entries as u128, "", err);
        }
        PublishFault::TooBig { bytes } => say_number("bins of ", bytes as u128, " bytes", err),
        PublishFault::Test(fault) => say_test(fault, err),
        PublishFault::OutOfMemory => say(&["memory"], err),
    }
}

// The word that names a file.
fn name_of(kind: FileKind, words: &[String]) -> &str
    ensures { result.now ≡ name_of kind (map string_bytes words.now) }
{
    match kind {
        FileKind::Read => match words {
            [_, name, ..] => name.as_str(),
            _ => "",
        },
        FileKind::Write => match words {
            [_, _, name, ..] => name.as_str(),
            _ => "",
        },
    }
}

/// Says a refusal on the error output, and gives its status. It takes no memory.
pub fn tell<E: Sink>(words: &[String], refusal: Refusal, err: &mut E) -> u8
    ensures status { result ≡ status_of refusal }
    ensures says { let at = sink_by E.put_so_far E.faults in
        Says (text_of (map string_bytes words.now) refusal) (at err.old) (at err.new) }
{
    let status = refusal.status();
    match refusal {
        Refusal::Words => say(&["wrong words"], err),
        Refusal::Corpus(fault) => say_corpus(fault, err),
        Refusal::CorpusTooLong => say(&["corpus too long"], err),
        Refusal::Publish(fault) => say_publishing(fault, err),
        Refusal::LibraryTooLong => say(&["library too long"], err),
        Refusal::Library(place) => say_number("library: wrong at byte ", place as u128, "", err),
        Refusal::Test(fault) => say_test(fault, err),
        Refusal::Keywords(found) => say_number("", found as u128, " keywords, at most 16", err),
        Refusal::Search(fault) => say_search(&fault, err),
        Refusal::Dial => say(&["link"], err),
        Refusal::Port => say(&["link"], err),
        Refusal::File(kind) => say(&["file ", name_of(kind, words)], err),
        Refusal::Output => say(&["output"], err),
        Refusal::Memory => say(&["memory"], err),
    }
    status
}
