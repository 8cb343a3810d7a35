// What a program says where standard input cannot be read or standard output is lost: why, in the system's own words.
#![tactic(auto)]

ghost use Rattle.std.specs.Prelude.{◌≡◌};
ghost use Rattle.console.specs.Words.{words_of};

use std::fmt;
use std::io::{Cursor, Error, Write};

// Why a read or a write failed. It is printed in the words of the system, without the number that stands behind them.
#[derive(Drop)]
pub struct Why<'a>(pub &'a Error);

impl fmt::Display for Why<'_> {
    fn fmt<W: fmt::Write>(&self, f: &mut fmt::Formatter<W>) -> fmt::Result {
        let error = self.0;
        let mut said = Cursor::new([0u8; 512]);
        let _ = write!(said, "{error}");
        let length = (said.position() as usize).min(512);
        let said = said.into_inner();
        f.write_str(words_of(str::from_utf8(&said[..length]).unwrap_or("")))
    }
}

// The words of the system for a failure: what stands before the number, or all of a text that has none.
pub fn words_of(text: &str) -> &str
    ensures { result.now ≡ words_of text.now }
{
    match text.split_once(" (os error ") {
        Some((words, _)) => words,
        None => text,
    }
}
