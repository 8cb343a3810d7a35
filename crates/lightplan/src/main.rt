// The program: takes a request file from standard input, searches it and prints the answer. What it prints is made by `report`. It has no
// exit status to tell with: where its input cannot be read it prints no answer, and where its output is lost it says so.
#![tactic(auto)]

use console::Why;
use std::fmt::Display;
use std::io::{Error, Read};
use std::{fmt, io};

// Why there is no answer: the input cannot be read, or the output is lost.
#[derive(Drop)]
enum Trouble {
    Input(Error),
    Output(Error),
}

impl Display for Trouble {
    fn fmt<W: fmt::Write>(&self, f: &mut fmt::Formatter<W>) -> fmt::Result {
        match self {
            Trouble::Input(error) => write!(f, "standard input: {}", Why(error)),
            Trouble::Output(error) => write!(f, "standard output: {}", Why(error)),
        }
    }
}

// There is nobody to tell where standard error is lost too.
fn main(rt: HostRuntime) {
    if let Err(trouble) = answer(rt) {
        let _ = eprintln!(rt; "lightplan: {trouble}");
    }
}

// One byte more than a request may have is read, so that an overlong one is told as such.
fn answer(rt: HostRuntime) -> Result<(), Trouble> {
    let mut file = [0u8; 8129];
    let count = io::copy(&mut rt.stdin().take(8129), &mut &mut file[..]).map_err(Trouble::Input)?;
    let page = report::report_on(&file[..(count as usize).min(8129)]);
    rt.stdout()
        .write_all(&page.bytes[..page.len])
        .map_err(Trouble::Output)
}
