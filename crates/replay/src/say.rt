// What is printed, part by part. Where standard output is lost, the rest is lost with it, and nobody is told.
use refusal::Refusal;
use std::fmt;
use std::fmt::Display;
use std::io::Stdout;

// A part of a line.
pub(crate) fn part<D: Display + Drop>(stdout: Stdout, text: D) {
    let _ = stdout.print(text);
}

// What is left of a line, and its end.
pub(crate) fn line<D: Display + Drop>(stdout: Stdout, text: D) {
    let _ = stdout.println(text);
}

// A refusal, with its number and its place.
#[derive(Drop)]
pub(crate) struct Refused(pub(crate) Refusal);

impl Display for Refused {
    fn fmt<W: fmt::Write>(&self, f: &mut fmt::Formatter<W>) -> fmt::Result {
        write!(f, "refused {} {}", self.0.number(), self.0.place())
    }
}

// A buffer of bytes in hexadecimal, `-` for an empty one.
#[derive(Drop)]
pub(crate) struct Hex<'a>(pub(crate) &'a [u8]);

impl Display for Hex<'_> {
    fn fmt<W: fmt::Write>(&self, f: &mut fmt::Formatter<W>) -> fmt::Result {
        if self.0.is_empty() {
            return write!(f, "-");
        }
        for byte in self.0 {
            write!(f, "{byte:02X}")?;
        }
        Ok(())
    }
}

// A buffer of entries, joined by commas, `-` for an empty one.
#[derive(Drop)]
pub(crate) struct List<'a>(pub(crate) &'a [u16]);

impl Display for List<'_> {
    fn fmt<W: fmt::Write>(&self, f: &mut fmt::Formatter<W>) -> fmt::Result {
        let Some((first, others)) = self.0.split_first() else {
            return write!(f, "-");
        };
        write!(f, "{first}")?;
        for entry in others {
            write!(f, ",{entry}")?;
        }
        Ok(())
    }
}

// How many bytes were written, or why none.
pub(crate) fn written(stdout: Stdout, written: Result<usize, Refusal>) {
    match written {
        Ok(count) => part(stdout, format_args!("wrote {count}")),
        Err(why) => part(stdout, Refused(why)),
    }
}

// A word and the end of a plan that is accepted, or why it is not.
pub(crate) fn checked(stdout: Stdout, word: &str, reply: Result<u16, Refusal>) {
    match reply {
        Ok(end) => part(stdout, format_args!("{word} {end}")),
        Err(why) => part(stdout, Refused(why)),
    }
}
