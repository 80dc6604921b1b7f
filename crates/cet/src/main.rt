//! The program `cet`: `asm` makes an object of an assembly text, `check --raw` certifies a file of raw code, `dis` lists one, `notes` prints and
//! merges property notes, `link` makes an executable of objects, `run` runs raw code or an executable.
//! `top` does all that the program does; its contract is by the definitions `Command` and `Certified` of `specs/`, and those of `cet_verbs`.
//! `main` hands it the real files and outputs, a chooser that steps each living thread in turn, and a watcher that counts events.
#![tactic(auto)]

mod command;
mod found;
mod real;
mod top;
mod words;

use cet_base::{Files, Sink};
use cet_choosers::{Chooser, Counter, RoundRobin, Watcher};
use cet_verbs::{say, status};
use real::{RealFiles, RealSink};
use std::alloc::{AllocError, Global};
use std::process::ExitCode;
use std::{env, io};

#[cfg(test)]
mod tests;

pub use top::top;

// Carries out the command of the words, with those who choose and see the events of a run.
fn carry_out<F: Files, O: Sink, E: Sink>(
    alloc: Global,
    words: &[String],
    files: &mut F,
    out: &mut O,
    err: &mut E,
) -> Result<u8, AllocError> {
    let mut choosers: Vec<Box<dyn Chooser>> = Vec::new(alloc);
    choosers.push(Box::new(alloc, RoundRobin::new())?)?;
    let mut watchers: Vec<Box<dyn Watcher>> = Vec::new(alloc);
    watchers.push(Box::new(alloc, Counter::new())?)?;
    Ok(top(alloc, words, files, out, err, choosers, &mut watchers))
}

fn main(rt: HostRuntime) -> ExitCode {
    let mut err = RealSink {
        to: rt.stderr(),
        faults: 0,
    };
    let words = match env::args(&rt) {
        Ok(args) => args.skip(1).collect(rt.alloc()),
        Err(e) if e.kind() == io::ErrorKind::OutOfMemory => return ExitCode::from(
            status::NO_MEMORY,
        ),
        Err(_) => {
            say(&mut err, b"cet: words\n");
            return ExitCode::from(status::WORDS);
        }
    };
    let Ok(words) = words else {
        return ExitCode::from(status::NO_MEMORY);
    };
    let words: Vec<String> = words;
    let mut files = RealFiles { rt: &rt, faults: 0 };
    let mut out = RealSink {
        to: rt.stdout(),
        faults: 0,
    };
    match carry_out(rt.alloc(), &words, &mut files, &mut out, &mut err) {
        Ok(status) => ExitCode::from(status),
        Err(AllocError) => ExitCode::from(status::NO_MEMORY),
    }
}
