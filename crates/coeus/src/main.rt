//! Coeus: keyword search over a library's documents.
//!
//! `main` makes the real devices, and calls `run` of co_commands, which does all that the program
//! does and whose contract says what each status means.
#![tactic(auto)]

use co_commands::{Refusal, run, tell};
use co_http::TcpDial;
use co_link::{Sink, StdFiles, StdSink, TcpPort};
use rand_chacha::ChaCha20Rng;
use rand_core::SeedableRng;
use std::io::Read;
use std::process::ExitCode;
use std::{env, fs, io};

// The words behind the program's name. A word that is no UTF-8 is a wrong word.
fn words_of(rt: &HostRuntime) -> Result<Vec<String>, Refusal> {
    let all = match env::args(rt) {
        Ok(all) => all,
        Err(e) => {
            if e.kind() == io::ErrorKind::OutOfMemory {
                return Err(Refusal::Memory);
            }
            return Err(Refusal::Words);
        }
    };
    let mut words = Vec::new(rt.alloc());
    for word in all.skip(1) {
        if words.push(word).is_err() {
            return Err(Refusal::Memory);
        }
    }
    Ok(words)
}

// A generator from 32 bytes of the system's random source, where they can be read.
fn generator(rt: &HostRuntime) -> Option<ChaCha20Rng> {
    let mut source = fs::open(rt, "/dev/urandom").ok()?;
    let mut seed = [0u8; 32];
    source.read_exact(&mut seed).ok()?;
    Some(ChaCha20Rng::from_seed(seed))
}

fn main(rt: HostRuntime) -> ExitCode {
    let alloc = rt.alloc();
    let mut err = StdSink::new(rt.stderr());
    let words = match words_of(&rt) {
        Ok(words) => words,
        Err(refusal) => return ExitCode::from(tell(&[], refusal, &mut err)),
    };
    let Some(mut rng) = generator(&rt) else {
        let _ = err.put(b"coeus: random\n");
        return ExitCode::from(9);
    };
    let mut files = StdFiles::new(&rt, alloc);
    let mut dial = TcpDial::new(&rt, alloc);
    let mut port = TcpPort::new(&rt);
    let mut out = StdSink::new(rt.stdout());
    let status = run(
        &rt, alloc, &words, &mut files, &mut dial, &mut port, &mut rng, &mut out, &mut err,
    );
    ExitCode::from(status)
}

#[cfg(test)]
mod tests;
