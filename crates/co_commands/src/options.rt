//! Numbers and options among the words of the command line.
ghost use Rattle.std.specs.Prelude.{◌≡◌, ◌≤◌, string_bytes, map, option_map, true, length, IfSome};
ghost use Rattle.std.specs.Char.{is_ascii_digit};
ghost use Rattle.std.specs.List.{list_all};
ghost use Rattle.std.specs.Str.Parse.{digits_value};
ghost use Rattle.co_board.specs.declared.board.TheConstants.{MOST_WORKERS};
ghost use Rattle.co_commands.specs.Words.{are_digits, digits_number, short_number, long_number};
ghost use Rattle.co_commands.specs.Words.{option_named, given, giving, once, with_option};
ghost use Rattle.co_commands.specs.Words.{no_options, rest_of, number_within, pick_of, workers_of};
ghost use Rattle.co_commands.specs.Words.{port_of, connections_of, from_one, port_word};
ghost use Rattle.co_commands.specs.Words.{none_for_publishing, none_for_serving};
ghost use Rattle.co_commands.specs.Words.{are_for_plain, are_for_import, are_for_local};
ghost use Rattle.co_commands.specs.Words.{are_for_serve, are_for_search, are_for_rehearse};
ghost use Rattle.co_commands.specs.Commands.{rest_shown};
ghost use Rattle.co_commands.specs.Next.{next_shown, words_left};
ghost use Rattle.co_commands.specs.declared.limits.TheConstants.{LAST_PICK, MOST_CONNECTIONS};

use crate::limits::{
    DEFAULT_CONNECTIONS, DEFAULT_PICK, DEFAULT_PORT, DEFAULT_WORKERS, LAST_PICK, LAST_PORT,
    LONG_DIGITS, MOST_CONNECTIONS, SHORT_DIGITS,
};
use co_board::MOST_WORKERS;

/// The name of an option.
#[derive(Clone, Copy)]
pub enum OptionName {
    Degree,
    Terms,
    Hits,
    Salt,
    Chunks,
    Pick,
    Workers,
    Port,
    Connections,
}

/// The options that were given, each with its number.
#[derive(Clone, Copy)]
pub struct Options {
    /// How many coefficients a polynomial has.
    pub degree: Option<u32>,
    /// The most terms of the vocabulary.
    pub terms: Option<u32>,
    /// The most hits of a search.
    pub hits: Option<u32>,
    /// What the buckets of a document are hashed with.
    pub salt: Option<u32>,
    /// The fewest chunks of a bin.
    pub chunks: Option<u32>,
    /// The rank of the hit whose document is given.
    pub pick: Option<u32>,
    /// How many workers compute a reply.
    pub workers: Option<u32>,
    /// The port that a library is served at.
    pub port: Option<u32>,
    /// On how many connections a library is served.
    pub connections: Option<u32>,
}

/// Options, and the query words behind `--`, where there is that word.
#[derive(Clone, Copy)]
pub struct OptionsAndQuery<'a> {
    /// The options.
    pub options: Options,
    /// The words of the query.
    pub query: Option<&'a [String]>,
}

// Whether each byte is a digit.
fn all_digits(word: &[u8]) -> bool
    ensures { result ≡ list_all is_ascii_digit word.now }
{
    word.iter().all(|digit| digit.is_ascii_digit())
}

// Whether there are 1 to `most` bytes, and each is a digit.
fn are_digits(word: &[u8], most: usize) -> bool
    ensures { result ≡ are_digits most word.now }
{
    if word.is_empty() || word.len() > most {
        return false;
    }
    all_digits(word)
}

// The number that at most twenty digits write.
fn value_of(digits: &[u8]) -> u128
    requires { are_digits 20 digits.now ≡ true }
    ensures { result ≡ digits_value 10 digits.now }
{
    let mut value = 0u128;
    for digit in digits {
        value = value * 10 + (*digit - b'0') as u128;
    }
    value
}

/// The number that a word of 1 to `most` digits writes; leading zeros are allowed.
pub fn read_digits(word: &str, most: usize) -> Option<u128>
    requires { most ≤ 20 }
    ensures { result ≡ digits_number most word.now }
{
    let digits = word.as_bytes();
    if !are_digits(digits, most) {
        return None;
    }
    Some(value_of(digits))
}

/// The number of 32 bits that a word of 1 to 10 digits writes.
#[tactic(auto, unfolding(crate::specs::Words::short_number))]
pub fn read_short(word: &str) -> Option<u32>
    ensures { result ≡ short_number word.now }
{
    u32::try_from(read_digits(word, SHORT_DIGITS)?).ok()
}

/// The number of 64 bits that a word of 1 to 20 digits writes.
#[tactic(auto, unfolding(crate::specs::Words::long_number))]
pub fn read_long(word: &str) -> Option<u64>
    ensures { result ≡ long_number word.now }
{
    u64::try_from(read_digits(word, LONG_DIGITS)?).ok()
}

// The option that a word names.
fn option_named(word: &str) -> Option<OptionName>
    ensures { result ≡ option_named word.now }
{
    match word {
        "--degree" => Some(OptionName::Degree),
        "--terms" => Some(OptionName::Terms),
        "--hits" => Some(OptionName::Hits),
        "--salt" => Some(OptionName::Salt),
        "--chunks" => Some(OptionName::Chunks),
        "--pick" => Some(OptionName::Pick),
        "--workers" => Some(OptionName::Workers),
        "--port" => Some(OptionName::Port),
        "--connections" => Some(OptionName::Connections),
        _ => None,
    }
}

// The number of an option that is given once.
fn once(before: Option<u32>, value: &str) -> Option<u32>
    ensures { result ≡ once before value.now }
{
    if before.is_some() {
        return None;
    }
    read_short(value)
}

// A number from 1 to `most`.
fn from_one(most: u32, number: u32) -> Option<u32>
    ensures value { result ≡ from_one most number }
    ensures within { IfSome result (λ number. (1 ≤ number) × (number ≤ most)) }
{
    if number < 1 || number > most {
        return None;
    }
    Some(number)
}

// A number of an option from 1 to `most`, or what stands for it where it isn't given.
fn within(given: Option<u32>, usual: u32, most: u32) -> Option<u32>
    ensures value { result ≡ number_within given usual most }
    ensures within { IfSome result (λ number. (1 ≤ number) × (number ≤ most)) }
{
    from_one(most, given.unwrap_or(usual))
}

/// A port as a positional word.
pub fn read_port(word: &str) -> Option<u16>
    ensures { result ≡ port_word word.now }
{
    let port = from_one(LAST_PORT, read_short(word)?)?;
    u16::try_from(port).ok()
}

impl Options {
    fn none() -> Self
        ensures { result ≡ no_options }
    {
        Options {
            degree: None,
            terms: None,
            hits: None,
            salt: None,
            chunks: None,
            pick: None,
            workers: None,
            port: None,
            connections: None,
        }
    }

    // The number that was given for an option.
    fn given(self, name: OptionName) -> Option<u32>
        ensures { result ≡ given self name }
    {
        match name {
            OptionName::Degree => self.degree,
            OptionName::Terms => self.terms,
            OptionName::Hits => self.hits,
            OptionName::Salt => self.salt,
            OptionName::Chunks => self.chunks,
            OptionName::Pick => self.pick,
            OptionName::Workers => self.workers,
            OptionName::Port => self.port,
            OptionName::Connections => self.connections,
        }
    }

    // Gives the number of an option.
    fn give(&mut self, name: OptionName, number: u32)
        ensures { self.new ≡ giving self.old name number }
    {
        match name {
            OptionName::Degree => self.degree = Some(number),
            OptionName::Terms => self.terms = Some(number),
            OptionName::Hits => self.hits = Some(number),
            OptionName::Salt => self.salt = Some(number),
            OptionName::Chunks => self.chunks = Some(number),
            OptionName::Pick => self.pick = Some(number),
            OptionName::Workers => self.workers = Some(number),
            OptionName::Port => self.port = Some(number),
            OptionName::Connections => self.connections = Some(number),
        }
    }

    // The options with one more, by its name and value.
    #[tactic(auto, unfolding(crate::specs::Words::with_option))]
    fn with(self, word: &str, value: &str) -> Option<Self>
        ensures { result ≡ with_option self word.now value.now }
    {
        let name = option_named(word)?;
        let number = once(self.given(name), value)?;
        let mut options = self;
        options.give(name, number);
        Some(options)
    }

    // Whether no option of how a corpus is published was given.
    fn none_for_publishing(self) -> bool
        ensures { result ≡ none_for_publishing self }
    {
        self.degree.is_none()
            && self.terms.is_none()
            && self.hits.is_none()
            && self.salt.is_none()
            && self.chunks.is_none()
    }

    // Whether no option of how a library is served was given.
    fn none_for_serving(self) -> bool
        ensures { result ≡ none_for_serving self }
    {
        self.port.is_none() && self.connections.is_none()
    }

    /// Whether no option was given but those of a plain search.
    pub fn are_for_plain(self) -> bool
        ensures { result ≡ are_for_plain self }
    {
        self.degree.is_none()
            && self.salt.is_none()
            && self.chunks.is_none()
            && self.workers.is_none()
            && self.none_for_serving()
    }

    /// Whether no option was given but those of how a corpus is published.
    pub fn are_for_import(self) -> bool
        ensures { result ≡ are_for_import self }
    {
        self.pick.is_none() && self.workers.is_none() && self.none_for_serving()
    }

    /// Whether no option was given but those of a search over a library.
    pub fn are_for_local(self) -> bool
        ensures { result ≡ are_for_local self }
    {
        self.none_for_publishing() && self.none_for_serving()
    }

    /// Whether no option was given but those of how a library is served.
    pub fn are_for_serve(self) -> bool
        ensures { result ≡ are_for_serve self }
    {
        self.none_for_publishing() && self.pick.is_none()
    }

    /// Whether no option was given but that of a search over a dial.
    pub fn are_for_search(self) -> bool
        ensures { result ≡ are_for_search self }
    {
        self.none_for_publishing() && self.none_for_serving() && self.workers.is_none()
    }

    /// Whether no option was given but those of a rehearsal.
    pub fn are_for_rehearse(self) -> bool
        ensures { result ≡ are_for_rehearse self }
    {
        self.terms.is_none()
            && self.hits.is_none()
            && self.salt.is_none()
            && self.chunks.is_none()
            && self.pick.is_none()
            && self.none_for_serving()
    }

    /// The pick, 1 to 64, or else 1.
    pub fn pick(self) -> Option<u32>
        ensures value { result ≡ pick_of self }
        ensures within { IfSome result (λ pick. (1 ≤ pick) × (pick ≤ LAST_PICK)) }
    {
        within(self.pick, DEFAULT_PICK, LAST_PICK)
    }

    /// The number of workers, 1 to 64, or else 4.
    pub fn workers(self) -> Option<u32>
        ensures value { result ≡ workers_of self }
        ensures within { IfSome result (λ workers.
            (1 ≤ workers) × (workers ≤ MOST_WORKERS)) }
    {
        within(self.workers, DEFAULT_WORKERS, MOST_WORKERS)
    }

    /// The port, 1 to 65535, or else 8080.
    pub fn port(self) -> Option<u16>
        ensures { result ≡ port_of self }
    {
        u16::try_from(within(self.port, DEFAULT_PORT, LAST_PORT)?).ok()
    }

    /// The number of connections, 1 to 1000000, or else 1.
    pub fn connections(self) -> Option<u32>
        ensures value { result ≡ connections_of self }
        ensures within { IfSome result (λ number.
            (1 ≤ number) × (number ≤ MOST_CONNECTIONS)) }
    {
        within(self.connections, DEFAULT_CONNECTIONS, MOST_CONNECTIONS)
    }
}

// What stands at the front of the words that are left.
#[derive(Clone, Copy)]
enum Next<'a> {
    End(OptionsAndQuery<'a>),
    More(Options, &'a [String]),
    Wrong,
}

// Reads one option, or `--` and the query, or the end.
fn read_next(options: Options, words: &[String]) -> Next<'_>
    ensures value { next_shown result ≡ rest_of options (map string_bytes words.now) }
    ensures shorter { words_left result ≤ length words.now }
{
    match words {
        [] => Next::End(OptionsAndQuery {
            options,
            query: None,
        }),
        [dashes, query @ ..] if dashes.as_str() == "--" => Next::End(OptionsAndQuery {
            options,
            query: Some(query),
        }),
        [name, value, left @ ..] => match options.with(name.as_str(), value.as_str()) {
            Some(options) => Next::More(options, left),
            None => Next::Wrong,
        },
        _ => Next::Wrong,
    }
}

/// Reads options in any order, each at most once, and the query behind `--`.
pub fn read_options(words: &[String]) -> Option<OptionsAndQuery<'_>>
    ensures { option_map rest_shown result ≡ rest_of no_options (map string_bytes words.now) }
{
    let mut next = read_next(Options::none(), words);
    while let Next::More(options, left) = next {
        next = read_next(options, left);
    }
    match next {
        Next::End(rest) => Some(rest),
        _ => None,
    }
}
