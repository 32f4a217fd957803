//! The program `trau`: the top function over the files of the current folder and the standard streams.
//!
//! Layer: The top function and the program.
//!
//! Makes the desk of the standard streams (`StdDesk`: the orders of a run come in, texts go out), calls the top
//! function over files (`files_top`) with the words of the command line, and exits with the status that it returns.
//! Only what happens before the command is decided here: words that aren't UTF-8, and running out of memory. Why
//! something failed, or why words or orders aren't taken (`reasons`, which has the octets of the orders from `kept`),
//! and that an Up line is a downlink (`downlinks`), goes to standard error; no clause speaks of it. The statuses are
//! this project's profile. Definitions: `specs/Refusals.antt`.
#![tactic(auto)]

mod downlinks;
mod kept;
mod reasons;

ghost use Rattle.std.specs.Prelude.{◌≡◌};
ghost use Rattle.farm_top.specs.Farm.{TextOut};
ghost use Rattle.trau_program.specs.declared.Refusal.TheVariants.{NoMemory};
ghost use Rattle.trau_program.specs.Refusals.{status_of, text_of};

use downlinks::tell_downlinks;
use farm_top::{NO_MEMORY, USAGE};
use files_top::files_top;
use kept::Kept;
use pool_run::OpenGate;
use reasons::tell_reason;
use std::alloc::AllocError;
use std::io::{ErrorKind, Read, Write};
use std::process::ExitCode;
use std::rt::{Env, Files};
use std::sync::Wait;
use std::thread::Threads;
use std::{env, io};
use trau_files::StdDesk;
use trau_io::{Desk, tell};

// Why the top function can't be called.
#[derive(Clone, Copy)]
enum Refusal {
    // A word isn't UTF-8.
    NotText,
    // Memory ran out.
    NoMemory,
}

impl Refusal {
    fn status(self) -> u8
        ensures { result ≡ status_of self }
    {
        match self {
            Refusal::NotText => USAGE,
            Refusal::NoMemory => NO_MEMORY,
        }
    }

    fn text(self) -> &'static [u8]
        ensures { result.now ≡ text_of self }
    {
        match self {
            Refusal::NotText => b"usage\n",
            Refusal::NoMemory => b"no memory\n",
        }
    }
}

impl From<AllocError> for Refusal {
    ghost from_gives = { λ _ r. r ≡ NoMemory };

    fn from(_: AllocError) -> Refusal {
        Refusal::NoMemory
    }
}

// The words after the program's name.
fn words_given<R: Env + AllocGlobal>(rt: &R) -> Result<Vec<String>, Refusal> {
    match env::args(rt) {
        Ok(words) => Ok(words.skip(1).collect(rt.alloc())?),
        Err(fault) if fault.kind() == ErrorKind::OutOfMemory => Err(Refusal::NoMemory),
        Err(_) => Err(Refusal::NotText),
    }
}

// The status of the top function. Why lines failed is printed as they fail, and at the end for how many it wasn't, why
// words or orders weren't taken, and which Up lines are downlinks.
fn run<
    R: Env + Eprint + Files + AllocGlobal + Threads + Wait + Sync,
    I: Read + Drop,
    O: Write + Drop,
>(rt: &R, desk: &mut StdDesk<Kept<I>, O>) -> Result<u8, Refusal> {
    let words = words_given(rt)?;
    let Ok((status, files)) = files_top(rt, rt.alloc(), &words, rt, desk, &OpenGate) else {
        return Err(Refusal::NoMemory);
    };
    files.tell_rest();
    tell_reason(rt, status, &words, desk.input().octets());
    tell_downlinks(rt, status, &words, desk.input().octets());
    Ok(status)
}

// Prints on standard error why the standard streams failed, if they did. If that fails too, it can't be reported.
fn tell_why<R: Eprint, I: Read + Drop, O: Write + Drop>(rt: &R, desk: &StdDesk<I, O>) {
    if let Some(fault) = desk.read_fault() {
        let _ = eprintln!(rt; "trau: standard input: {fault}");
    }
    if let Some(fault) = desk.write_fault() {
        let _ = eprintln!(rt; "trau: standard output: {fault}");
    }
}

// Prints why the top function isn't called. If the desk fails here, the status is the same.
fn refuse<D: Desk>(desk: &mut D, refusal: Refusal) -> u8
    ensures status { result ≡ status_of refusal }
    ensures text { TextOut (D.desk desk.old) (D.desk desk.new) (text_of refusal) }
{
    let _ = tell(desk, refusal.text());
    refusal.status()
}

fn main(rt: HostRuntime) -> ExitCode {
    let mut desk = StdDesk::new(Kept::new(rt.alloc(), rt.reader()), io::writer(&rt));
    let status = match run(&rt, &mut desk) {
        Ok(status) => status,
        Err(refusal) => refuse(&mut desk, refusal),
    };
    tell_why(&rt, &desk);
    ExitCode::from(status)
}
