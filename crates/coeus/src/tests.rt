//! The program over devices in memory of which one call fails, and then the same run again with the
//! same devices: how each run ends, and what stands after it.
ghost use Rattle.std.specs.Prelude.{◌≡◌};
ghost use Rattle.co_link.specs.Fresh.{IsFresh};

use super::*;
use co_corpus::read_corpus;
use co_library::{Settings, publish};
use co_link::{
    Bytes, Dial, Exchange, FailNth, FailingCalls, Files, MemoryConnection, MemoryFiles, MemoryPort,
    MemorySink, MemorySource, Target,
};
use co_noise::{Shape, Tested, test};
use co_server::{Loaded, LocalLink, Runs};
use std::alloc::Global;
use std::collections::BTreeMap;
use std::process::Abort;
use std::thread::Threads;

const C1: &[u8] = b"{\"title\":\"Sea\",\"text\":\"sea sea wind\"}\n\
    {\"title\":\"Harbour\",\"text\":\"harbour wind\"}\n\
    {\"title\":\"Tide\",\"text\":\"tide sea\"}\n\
    {\"title\":\"Moor\",\"text\":\"moor\"}\n";

const FOUND: &[u8] =
    b"hits 3\n1 0 12 Sea\n2 1 4 Harbour\n3 2 4 Tide\nunknown 0\ndocument 0 12\nsea sea wind\n";

const IMPORTED: &[u8] = b"documents 4 terms 5 rows 1 bins 1 chunks 1\n";

const SERVED: &[u8] = b"connection 1 requests 1 closed\n\
    connection 2 requests 1 closed\n";

const ONE_MORE: &[u8] = b"connection 1 requests 1 closed\n\
    connection 1 requests 1 closed\n\
    connection 2 requests 1 closed\n";

const UNREAD: &[u8] = b"connection 1 requests 0 read fault\n\
    connection 2 requests 1 closed\n";

const UNREAD_AND_SERVED: &[u8] = b"connection 1 requests 0 read fault\n\
    connection 2 requests 1 closed\n\
    connection 1 requests 1 closed\n\
    connection 2 requests 1 closed\n";

const UNWRITTEN: &[u8] = b"connection 1 requests 0 write fault\n\
    connection 2 requests 1 closed\n";

const UNWRITTEN_AND_SERVED: &[u8] = b"connection 1 requests 0 write fault\n\
    connection 2 requests 1 closed\n\
    connection 1 requests 1 closed\n\
    connection 2 requests 1 closed\n";

const GET: &[u8] = b"GET /public HTTP/1.1\r\nHost: archive\r\n\r\n";

const TARGETS: [Target; 5] = [
    Target::Public,
    Target::Keys,
    Target::Score,
    Target::Meta,
    Target::Document,
];

// Calls that count together.
#[derive(Clone, Copy, PartialEq, Eq)]
enum Device {
    Files,
    Dial,
    Port,
    Takes,
    Puts,
    Out,
    Err,
}

// How a run ends: its status, what stands on both outputs, and the lengths of the requests that
// were made.
#[derive(Clone, Copy)]
struct End<'a> {
    status: u8,
    out: &'a [u8],
    err: &'a [u8],
    asked: &'a [usize],
}

// A run over a library of that degree, twice; calls of one device fail, by their numbers.
#[derive(Clone, Copy)]
struct Case<'a> {
    degree: u32,
    text: &'a str,
    device: Device,
    numbers: &'a [u64],
    ends: [End<'a>; 2],
}

// The devices of a run, but for its dial.
#[derive(Drop)]
struct Desk {
    files: MemoryFiles,
    port: MemoryPort,
    rng: ChaCha20Rng,
    out: MemorySink,
    err: MemorySink,
}

// Of the calls of a device those that fail.
fn calls(rt: &impl Abort, alloc: Global, case: &Case<'_>, device: Device) -> FailingCalls {
    if case.device != device {
        return FailingCalls::none(alloc);
    }
    FailingCalls::new(Vec::from_slice(alloc, case.numbers).expect(rt, "memory"))
}

// Puts a file among others.
fn put(
    rt: &impl Abort,
    alloc: Global,
    files: &mut BTreeMap<String, Bytes>,
    name: &str,
    bytes: &[u8],
) {
    let name = String::from_str(alloc, name).expect(rt, "memory");
    let bytes = Bytes::copy_of(alloc, bytes).expect(rt, "memory");
    assert!(rt; files.insert(name, bytes).is_ok());
}

// A file with the corpus, and one with nothing in it.
fn files(rt: &impl Abort, alloc: Global) -> BTreeMap<String, Bytes> {
    let mut files = BTreeMap::new(alloc);
    put(rt, alloc, &mut files, "c1", C1);
    put(rt, alloc, &mut files, "empty", b"");
    files
}

// A shape that passes the test.
#[tactic(auto, unfolding(co_noise::specs::Bounds::test_of))]
fn passed(rt: &impl Abort, shape: &Shape) -> Tested
    ensures { result ≡ shape.now }
{
    test(shape).expect(rt, "a shape that passes")
}

// The bytes of the corpus's library, and the library made ready for replies.
fn published(rt: &impl Abort, alloc: Global, degree: u32) -> (Bytes, Loaded) {
    let corpus = read_corpus(alloc, C1).expect(rt, "a corpus");
    let settings = Settings {
        degree,
        terms: 16_384,
        hits: 16,
        salt: 0,
        chunks: 1,
    };
    let library = publish(alloc, &corpus, &settings).expect(rt, "a library");
    let bytes = library.write(alloc).expect(rt, "memory");
    let tested = passed(rt, library.shape());
    let loaded = Loaded::new(alloc, library, tested).expect(rt, "memory");
    (bytes, loaded)
}

fn sink(rt: &impl Abort, alloc: Global, calls: FailingCalls) -> MemorySink {
    MemorySink::new(alloc, 4096, calls).expect(rt, "memory")
}

// A connection that asks once.
fn connection(
    rt: &impl Abort,
    alloc: Global,
    takes: FailingCalls,
    puts: FailingCalls,
) -> MemoryConnection
    ensures { IsFresh result }
{
    let input = Vec::from_slice(alloc, GET).expect(rt, "memory");
    let source = MemorySource::new(input, 1000, takes);
    let sink = MemorySink::new(alloc, 1000, puts).expect(rt, "memory");
    MemoryConnection::new(source, sink)
}

// A connection that asks once, of which no call fails.
fn steady(rt: &impl Abort, alloc: Global) -> MemoryConnection
    ensures { IsFresh result }
{
    let (takes, puts) = (FailingCalls::none(alloc), FailingCalls::none(alloc));
    connection(rt, alloc, takes, puts)
}

// Four connections that wait; a take or a put of the first may fail.
fn port(rt: &impl Abort, alloc: Global, case: &Case<'_>) -> MemoryPort {
    let takes = calls(rt, alloc, case, Device::Takes);
    let puts = calls(rt, alloc, case, Device::Puts);
    let first = connection(rt, alloc, takes, puts);
    let mut waiting = Vec::new(alloc);
    waiting.push(first).expect(rt, "memory");
    waiting.push(steady(rt, alloc)).expect(rt, "memory");
    waiting.push(steady(rt, alloc)).expect(rt, "memory");
    waiting.push(steady(rt, alloc)).expect(rt, "memory");
    let calls = calls(rt, alloc, case, Device::Port);
    MemoryPort::new(alloc, waiting, calls).expect(rt, "memory")
}

// The words of a text.
fn words(rt: &impl Abort, alloc: Global, text: &str) -> Vec<String> {
    let mut words = Vec::new(alloc);
    for word in text.split_whitespace() {
        let word = String::from_str(alloc, word).expect(rt, "memory");
        words.push(word).expect(rt, "memory");
    }
    words
}

// Whether a file has these bytes.
fn holds(files: &mut MemoryFiles, name: &str, bytes: &[u8]) -> bool {
    match files.read(name, 65_536) {
        Ok(found) => found.as_slice() == bytes,
        Err(_) => false,
    }
}

// Whether these are the exchanges of a search with requests of these lengths, from its first one
// on.
fn are_asked(exchanges: &[Exchange], lengths: &[usize]) -> bool {
    let mut same = exchanges.len() == lengths.len();
    for ((exchange, target), length) in exchanges.iter().zip(TARGETS).zip(lengths) {
        let request = &exchange.request;
        same = same && request.target == target && request.body.len() == *length;
    }
    same
}

impl Desk {
    fn new(rt: &impl Abort, alloc: Global, library: &[u8], case: &Case<'_>) -> Desk {
        let mut held = files(rt, alloc);
        put(rt, alloc, &mut held, "lib", library);
        let calls_on_files = calls(rt, alloc, case, Device::Files);
        Desk {
            files: MemoryFiles::with_files(alloc, held, calls_on_files),
            port: port(rt, alloc, case),
            rng: ChaCha20Rng::from_seed([7; 32]),
            out: sink(rt, alloc, calls(rt, alloc, case, Device::Out)),
            err: sink(rt, alloc, calls(rt, alloc, case, Device::Err)),
        }
    }

    fn run<T: Threads + Sync, D: Dial>(
        &mut self,
        rt: &T,
        alloc: Global,
        dial: &mut D,
        words: &[String],
    ) -> u8 {
        let Desk {
            files,
            port,
            rng,
            out,
            err,
        } = self;
        run(rt, alloc, words, files, dial, port, rng, out, err)
    }

    // Whether a run with that status has ended so, with the files as they were but for those that
    // it made.
    fn stands(&mut self, status: u8, end: &End<'_>, library: &[u8]) -> bool {
        let same = self.out.as_slice() == end.out && self.err.as_slice() == end.err;
        let kept = holds(&mut self.files, "c1", C1) && holds(&mut self.files, "empty", b"");
        same && kept && status == end.status && holds(&mut self.files, "lib", library)
    }
}

// Whether a run over this dial ends so.
fn ends<T: Threads + Sync, D: Dial>(
    rt: &T,
    alloc: Global,
    desk: &mut Desk,
    dial: &mut D,
    words: &[String],
    end: &End<'_>,
    library: &[u8],
) -> bool {
    let status = desk.run(rt, alloc, dial, words);
    desk.stands(status, end, library)
}

// Whether both runs of a case end as it says, with a session of its own behind the dial.
fn both_end<R: Runs, T: Threads + Sync + Abort>(
    runs: &R,
    rt: &T,
    alloc: Global,
    case: &Case<'_>,
    loaded: &Loaded,
    library: &[u8],
) -> bool
    requires { R.is_shared }
{
    let link = LocalLink::new(runs, alloc, loaded, 4);
    let mut dial = FailNth::new(alloc, link, calls(rt, alloc, case, Device::Dial));
    let mut desk = Desk::new(rt, alloc, library, case);
    let words = words(rt, alloc, case.text);
    let [once, twice] = case.ends;
    let first = ends(rt, alloc, &mut desk, &mut dial, &words, &once, library);
    let asked_first = are_asked(dial.inner().exchanges(), once.asked);
    let second = ends(rt, alloc, &mut desk, &mut dial, &words, &twice, library);
    let asked_second = are_asked(dial.inner().exchanges(), twice.asked);
    first && asked_first && second && asked_second
}

// Whether both runs of a case end as it says.
fn ends_twice<T: Threads + Sync + Abort>(rt: &T, alloc: Global, case: &Case<'_>) -> bool {
    let (library, loaded) = published(rt, alloc, case.degree);
    both_end(rt, rt, alloc, case, &loaded, library.as_slice())
}

// A run at degree 16 that has this status, leaves the output and says a line; and again, which
// answers.
fn answers_again<'a>(
    text: &'a str,
    device: Device,
    numbers: &'a [u64],
    status: u8,
    line: &'a [u8],
    answer: &'a [u8],
) -> Case<'a> {
    let first = End {
        status,
        out: b"",
        err: line,
        asked: &[],
    };
    let second = End {
        status: 0,
        out: answer,
        ..first
    };
    Case {
        degree: 16,
        text,
        device,
        numbers,
        ends: [first, second],
    }
}

// The read of a file fails, the put of an answer, the write of a library, the puts of a refusal.
#[test]
fn files_again(rt: HostRuntime) {
    let (plain, local) = ("plain c1 -- sea wind", "local lib -- sea wind");
    let (import, line) = ("import c1 other --degree 512", IMPORTED);
    let mut refusal = answers_again("plain empty -- sea", Device::Err, &[0, 1, 2], 3, b"", b"");
    refusal.ends[1].status = 3;
    refusal.ends[1].err = b"coeus: corpus: no document\n";
    let cases = [
        answers_again(plain, Device::Files, &[0], 9, b"coeus: file c1\n", FOUND),
        answers_again(plain, Device::Out, &[0], 9, b"coeus: output\n", FOUND),
        answers_again(local, Device::Files, &[0], 9, b"coeus: file lib\n", FOUND),
        answers_again(local, Device::Out, &[0], 9, b"coeus: output\n", FOUND),
        answers_again(import, Device::Files, &[1], 9, b"coeus: file other\n", line),
        refusal,
    ];
    for case in &cases {
        assert!(rt; ends_twice(&rt, rt.alloc(), case));
    }
}

const SEARCH: &str = "search localhost 8080 -- sea wind";

// Each exchange of a search fails once.
#[test]
fn search_again(rt: HostRuntime) {
    let asked = [0, 10_752, 448, 10_752, 448];
    for number in 1..6u64 {
        let numbers = [number];
        let mut case = answers_again(SEARCH, Device::Dial, &numbers, 7, b"coeus: link\n", FOUND);
        case.ends[0].asked = &asked[..number as usize - 1];
        case.ends[1].asked = &asked;
        assert!(rt; ends_twice(&rt, rt.alloc(), &case));
    }
}

// The dial fails, of a search of the corpus at degree 512.
#[test]
fn dial_again(rt: HostRuntime) {
    let mut case = answers_again(SEARCH, Device::Dial, &[0], 7, b"coeus: link\n", FOUND);
    case.degree = 512;
    case.ends[1].asked = &[0, 688_128, 14_336, 344_064, 14_336];
    assert!(rt; ends_twice(&rt, rt.alloc(), &case));
}

// Two connections are served, where the port doesn't listen at first, or doesn't accept the second,
// or a take or a put of the first fails.
#[test]
fn serve_again(rt: HostRuntime) {
    let text = "serve lib --connections 2";
    let listens = answers_again(text, Device::Port, &[0], 7, b"coeus: link\n", SERVED);
    let mut accepts = answers_again(text, Device::Port, &[2], 7, b"coeus: link\n", ONE_MORE);
    accepts.ends[0].out = b"connection 1 requests 1 closed\n";
    let mut takes = answers_again(text, Device::Takes, &[0], 0, b"", UNREAD_AND_SERVED);
    takes.ends[0].out = UNREAD;
    let mut puts = answers_again(text, Device::Puts, &[0], 0, b"", UNWRITTEN_AND_SERVED);
    puts.ends[0].out = UNWRITTEN;
    for case in &[listens, accepts, takes, puts] {
        assert!(rt; ends_twice(&rt, rt.alloc(), case));
    }
}
