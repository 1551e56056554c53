//! The words of the command line: a command, its positional words, options in any order, a query.
ghost use Rattle.std.specs.Prelude.{◌≡◌, IfOk, IfSome, string_bytes, map, option_map};
ghost use Rattle.co_commands.specs.Words.{plain_words, import_words, settings_of, shape_words};
ghost use Rattle.co_commands.specs.Words.{local_words, serve_words, search_words};
ghost use Rattle.co_commands.specs.Words.{rehearse_words, or_wrong, spoken, joined};
ghost use Rattle.co_commands.specs.Commands.{command_shown, plain_shown, import_shown, local_shown};
ghost use Rattle.co_commands.specs.Commands.{serve_shown, search_shown, rest_shown};
ghost use Rattle.co_commands.specs.Commands.{IsWithinRanges, IsWithinServing, IsWithinSearching};
ghost use Rattle.co_commands.specs.Commands.{IsWithinRehearsals};
ghost use Rattle.co_commands.specs.Commands.{AreWithinRanges};

use crate::limits::{DEFAULT_CHUNKS, DEFAULT_DEGREE, DEFAULT_HITS, DEFAULT_SALT, DEFAULT_TERMS};
use crate::options::{OptionsAndQuery, read_long, read_options, read_port, read_short};
use co_library::Settings;
use co_noise::Shape;
use std::alloc::{AllocError, Global};

/// What `plain CORPUS` is to do.
#[derive(Clone, Copy)]
pub struct PlainCommand<'a> {
    /// The name of the corpus file.
    pub corpus: &'a str,
    /// The most terms of the vocabulary.
    pub terms: u32,
    /// The most hits.
    pub hits: u32,
    /// The rank of the hit whose document is printed, from 1.
    pub pick: u32,
    /// The words of the query.
    pub query: &'a [String],
}

/// What `import CORPUS LIBRARY` is to do.
#[derive(Clone, Copy)]
pub struct ImportCommand<'a> {
    /// The name of the corpus file.
    pub corpus: &'a str,
    /// The name of the library file.
    pub library: &'a str,
    /// How the corpus is published.
    pub settings: Settings,
}

/// What `local LIBRARY` is to do.
#[derive(Clone, Copy)]
pub struct LocalCommand<'a> {
    /// The name of the library file.
    pub library: &'a str,
    /// The rank of the hit whose document is printed, from 1.
    pub pick: u32,
    /// How many workers compute a reply.
    pub workers: u32,
    /// The words of the query.
    pub query: &'a [String],
}

/// What `serve LIBRARY` is to do.
#[derive(Clone, Copy)]
pub struct ServeCommand<'a> {
    /// The name of the library file.
    pub library: &'a str,
    /// The port that it is served at.
    pub port: u16,
    /// On how many connections, one after another.
    pub connections: u32,
    /// How many workers compute a reply.
    pub workers: u32,
}

/// What `search HOST PORT` is to do.
#[derive(Clone, Copy)]
pub struct SearchCommand<'a> {
    /// The name of the server.
    pub host: &'a str,
    /// Its port.
    pub port: u16,
    /// The rank of the hit whose document is printed, from 1.
    pub pick: u32,
    /// The words of the query.
    pub query: &'a [String],
}

/// What `rehearse N` is to do.
#[derive(Clone, Copy)]
pub struct RehearseCommand {
    /// The number that documents and queries are made from.
    pub number: u64,
    /// How many coefficients a polynomial of the library has.
    pub degree: u32,
    /// How many workers compute a reply.
    pub workers: u32,
}

/// What the words of the command line ask for.
#[derive(Clone, Copy)]
pub enum Command<'a> {
    /// Plain search over a corpus.
    Plain(PlainCommand<'a>),
    /// Publishing a corpus.
    Import(ImportCommand<'a>),
    /// The noise bounds of published numbers.
    Shape(Shape),
    /// A search over a library, with a session of its own.
    Local(LocalCommand<'a>),
    /// A library on connections.
    Serve(ServeCommand<'a>),
    /// A search over a dial.
    Search(SearchCommand<'a>),
    /// Searches over a library that is made up.
    Rehearse(RehearseCommand),
    /// Nothing that is in the grammar.
    Wrong,
}

/// Reads a command, the words behind it, and what they say.
pub fn read_command(words: &[String]) -> Command<'_>
    ensures value { command_shown result ≡ spoken (map string_bytes words.now) }
    ensures ranges { AreWithinRanges result }
{
    match read_known(words) {
        Some(command) => command,
        None => Command::Wrong,
    }
}

// Reads a command that is in the grammar.
#[tactic(auto, unfolding(crate::specs::Words::spoken))]
fn read_known(words: &[String]) -> Option<Command<'_>>
    ensures value { or_wrong command_shown result ≡ spoken (map string_bytes words.now) }
    ensures ranges { IfSome result AreWithinRanges }
{
    let [command, words @ ..] = words else {
        return None;
    };
    match command.as_str() {
        "plain" => Some(Command::Plain(read_plain(words)?)),
        "import" => Some(Command::Import(read_import(words)?)),
        "shape" => Some(Command::Shape(read_shape(words)?)),
        "local" => Some(Command::Local(read_local(words)?)),
        "serve" => Some(Command::Serve(read_serve(words)?)),
        "search" => Some(Command::Search(read_search(words)?)),
        "rehearse" => Some(Command::Rehearse(read_rehearse(words)?)),
        _ => None,
    }
}

// Reads CORPUS, options, `--` and a query.
fn read_plain(words: &[String]) -> Option<PlainCommand<'_>>
    ensures { option_map plain_shown result ≡ plain_words (map string_bytes words.now) }
{
    let [corpus, rest @ ..] = words else {
        return None;
    };
    if corpus.as_str().starts_with('-') {
        return None;
    }
    let rest = read_options(rest)?;
    let query = rest.query?;
    if !rest.options.are_for_plain() {
        return None;
    }
    let pick = rest.options.pick()?;
    Some(PlainCommand {
        corpus: corpus.as_str(),
        terms: rest.options.terms.unwrap_or(DEFAULT_TERMS),
        hits: rest.options.hits.unwrap_or(DEFAULT_HITS),
        pick,
        query,
    })
}

// Reads LIBRARY, options, `--` and a query.
fn read_local(words: &[String]) -> Option<LocalCommand<'_>>
    ensures value { option_map local_shown result ≡ local_words (map string_bytes words.now) }
    ensures ranges { IfSome result IsWithinRanges }
{
    let [library, rest @ ..] = words else {
        return None;
    };
    if library.as_str().starts_with('-') {
        return None;
    }
    let rest = read_options(rest)?;
    let query = rest.query?;
    if !rest.options.are_for_local() {
        return None;
    }
    let pick = rest.options.pick()?;
    let workers = rest.options.workers()?;
    Some(LocalCommand {
        library: library.as_str(),
        pick,
        workers,
        query,
    })
}

// Reads LIBRARY and options.
fn read_serve(words: &[String]) -> Option<ServeCommand<'_>>
    ensures value { option_map serve_shown result ≡ serve_words (map string_bytes words.now) }
    ensures ranges { IfSome result IsWithinServing }
{
    let [library, rest @ ..] = words else {
        return None;
    };
    if library.as_str().starts_with('-') {
        return None;
    }
    let rest = read_options(rest)?;
    if !rest.options.are_for_serve() || rest.query.is_some() {
        return None;
    }
    let port = rest.options.port()?;
    let connections = rest.options.connections()?;
    let workers = rest.options.workers()?;
    Some(ServeCommand {
        library: library.as_str(),
        port,
        connections,
        workers,
    })
}

// Reads HOST, PORT, options, `--` and a query.
fn read_search(words: &[String]) -> Option<SearchCommand<'_>>
    ensures value { option_map search_shown result ≡ search_words (map string_bytes words.now) }
    ensures ranges { IfSome result IsWithinSearching }
{
    let [host, port, rest @ ..] = words else {
        return None;
    };
    if host.as_str().starts_with('-') {
        return None;
    }
    let port = read_port(port.as_str())?;
    let rest = read_options(rest)?;
    let query = rest.query?;
    if !rest.options.are_for_search() {
        return None;
    }
    let pick = rest.options.pick()?;
    Some(SearchCommand {
        host: host.as_str(),
        port,
        pick,
        query,
    })
}

// Reads N and options.
fn read_rehearse(words: &[String]) -> Option<RehearseCommand>
    ensures value { result ≡ rehearse_words (map string_bytes words.now) }
    ensures ranges { IfSome result IsWithinRehearsals }
{
    let [number, rest @ ..] = words else {
        return None;
    };
    let number = read_long(number.as_str())?;
    let rest = read_options(rest)?;
    if !rest.options.are_for_rehearse() || rest.query.is_some() {
        return None;
    }
    let workers = rest.options.workers()?;
    Some(RehearseCommand {
        number,
        degree: rest.options.degree.unwrap_or(DEFAULT_DEGREE),
        workers,
    })
}

// The settings among options, where no option of another command and no query was given.
fn settings_of(rest: OptionsAndQuery<'_>) -> Option<Settings>
    ensures { result ≡ settings_of (rest_shown rest.entry) }
{
    if !rest.options.are_for_import() || rest.query.is_some() {
        return None;
    }
    Some(Settings {
        degree: rest.options.degree.unwrap_or(DEFAULT_DEGREE),
        terms: rest.options.terms.unwrap_or(DEFAULT_TERMS),
        hits: rest.options.hits.unwrap_or(DEFAULT_HITS),
        salt: rest.options.salt.unwrap_or(DEFAULT_SALT),
        chunks: rest.options.chunks.unwrap_or(DEFAULT_CHUNKS),
    })
}

// Reads CORPUS, LIBRARY and options.
fn read_import(words: &[String]) -> Option<ImportCommand<'_>>
    ensures { option_map import_shown result ≡ import_words (map string_bytes words.now) }
{
    let [corpus, library, rest @ ..] = words else {
        return None;
    };
    if corpus.as_str().starts_with('-') || library.as_str().starts_with('-') {
        return None;
    }
    let settings = settings_of(read_options(rest)?)?;
    Some(ImportCommand {
        corpus: corpus.as_str(),
        library: library.as_str(),
        settings,
    })
}

// Reads DEGREE, TERMS, ROWS and BINS, each in its range. The other numbers of the shape are the
// least.
fn read_shape(words: &[String]) -> Option<Shape>
    ensures { result ≡ shape_words (map string_bytes words.now) }
{
    let [degree, terms, rows, bins] = words else {
        return None;
    };
    let degree = read_short(degree.as_str())?;
    let terms = read_short(terms.as_str())?;
    let rows = read_short(rows.as_str())?;
    let bins = read_short(bins.as_str())?;
    Shape::new(degree, 1, terms, 1, 0, rows, bins, 1)
}

/// The words, joined by single spaces.
pub fn join(alloc: Global, words: &[String]) -> Result<String, AllocError>
    ensures { IfOk result (λ text. string_bytes text ≡ joined (map string_bytes words.now)) }
{
    let [first, others @ ..] = words else {
        return Ok(String::new(alloc));
    };
    let mut text = first.clone()?;
    for word in others {
        text.push(' ')?;
        text.push_str(word.as_str())?;
    }
    Ok(text)
}
