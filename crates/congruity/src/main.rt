//! The program: replays a schedule on its replicas, and reports what each step shows.
//!
//! `run` of `cg_run` is the top call; `main` gives it the words and makes the adapters over the standard input and output.
#![tactic(auto)]

use cg_base::{Bytes, NoMemory};
use cg_io::{StdSink, StdSource};
use cg_run::{ArgText, Explained, Status, run};
use std::alloc::Global;
use std::process::ExitCode;
use std::{env, io};

fn word_of(alloc: Global, text: &str) -> Result<ArgText, NoMemory> {
    let bytes = Vec::from_slice(alloc, text.as_bytes())?;
    Ok(ArgText::new(Bytes::from_vec(bytes)))
}

// The words behind the program's name. Where the system gives them as no texts, one word that is no command stands for
// them all.
fn words_of(rt: &(impl env::Env + AllocGlobal)) -> Result<Vec<ArgText>, NoMemory> {
    let mut words = Vec::new(rt.alloc());
    let args = match env::args(rt) {
        Ok(args) => args,
        Err(error) if error.kind() == io::ErrorKind::OutOfMemory => return Err(NoMemory),
        Err(_) => {
            let mut bytes = Bytes::new(rt.alloc());
            bytes.push(0xFF)?;
            words.push(ArgText::new(bytes))?;
            return Ok(words);
        }
    };
    for arg in args.skip(1) {
        words.push(word_of(rt.alloc(), arg.as_str())?)?;
    }
    Ok(words)
}

fn run_words(rt: &HostRuntime, words: &[ArgText]) -> Status {
    let mut input = StdSource::new(rt.reader());
    let mut output = StdSink::new(io::writer(rt));
    run(rt.alloc(), words, &mut input, &mut output)
}

// Tells people what the report's last line tells programs. Where that fails nothing else changes.
fn explain(rt: &impl Eprint, status: Status) {
    if status != Status::Done {
        let _told = eprintln!(rt; "congruity: {}", Explained(status));
    }
}

fn main(rt: HostRuntime) -> ExitCode {
    let status = match words_of(&rt) {
        Ok(words) => run_words(&rt, words.as_slice()),
        Err(NoMemory) => Status::NoMemory,
    };
    explain(&rt, status);
    ExitCode::from(status.number())
}
