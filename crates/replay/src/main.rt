// Makes the calls that docs/REPLAY.md numbers from bytes on standard input and prints one line for each, so that a program in any
// language can test them, lent buffers included. A frame is the call's number (1 byte), the length of its body (4 bytes) and the body. All
// numbers stand with their high byte first.
#![tactic(auto)]

use body::Malformed;
use console::Why;
use std::io;
use std::io::{Error, ErrorKind, Read, Stdin};

mod body;
mod calls;
mod say;

// Why no further frame is answered: one is malformed, or the input cannot be read.
#[derive(Drop)]
enum Trouble {
    Malformed,
    Unread(Error),
}

impl From<Malformed> for Trouble {
    fn from(_malformed: Malformed) -> Trouble {
        Trouble::Malformed
    }
}

// A frame that the input ends in is malformed.
impl From<Error> for Trouble {
    fn from(error: Error) -> Trouble {
        if error.kind() == ErrorKind::UnexpectedEof {
            Trouble::Malformed
        } else {
            Trouble::Unread(error)
        }
    }
}

fn main(rt: HostRuntime) {
    match answer_all(rt) {
        Ok(()) => {}
        Err(Trouble::Malformed) => say::line(rt.stdout(), "malformed"),
        Err(Trouble::Unread(error)) => {
            let _ = eprintln!(rt; "replay: standard input: {}", Why(&error));
        }
    }
}

// A proved loop has to end, and nothing says that the input does. So the frames are counted up to a number that no run reaches. There is
// room for the longest body that the calls' own formats allow, 138,813 bytes, and then some.
fn answer_all(rt: HostRuntime) -> Result<(), Trouble> {
    let mut room = [0u8; 139264];
    for _ in 0..u64::MAX {
        if !answer_next(rt, &mut room)? {
            return Ok(());
        }
    }
    Ok(())
}

// Answers the next frame, and says whether there was one.
fn answer_next(rt: HostRuntime, room: &mut [u8]) -> Result<bool, Trouble> {
    let mut head = [0u8; 5];
    let count = io::copy(&mut rt.stdin().take(5), &mut &mut head[..])?;
    if count == 0 {
        return Ok(false);
    }
    if count < 5 {
        return Err(Trouble::Malformed);
    }
    let [call, a, b, c, d] = head;
    let length = u32::from_be_bytes([a, b, c, d]) as usize;
    let body = read_body(rt.stdin(), length, room)?;
    calls::make_call(rt.stdout(), call, body)?;
    Ok(true)
}

// Reads a body of this length, of which the room keeps the front; the rest is read and forgotten. A body that the room does not hold is
// longer than any that a call takes, but for the file of a request, and the front of such a file is refused as the whole is.
fn read_body<'a>(mut stdin: Stdin, length: usize, room: &'a mut [u8]) -> Result<&'a [u8], Trouble> {
    let kept = length.min(room.len());
    let front = &mut room[..kept];
    stdin.read_exact(front)?;
    skip(stdin, (length - kept) as u64)?;
    Ok(front)
}

// Reads that many bytes and forgets them, part by part. The input ends where a part has no byte: an end behind some bytes of a part, as a
// terminal can tell it, is followed by another read.
fn skip(stdin: Stdin, count: u64) -> Result<(), Trouble> {
    let mut left = count;
    // Kept as it is: how many parts there are is not known before they are read.
    while left > 0 {
        let got = io::copy(&mut stdin.take(left.min(4096)), &mut io::sink())?;
        if got == 0 {
            return Err(Trouble::Malformed);
        }
        left = left.saturating_sub(got);
    }
    Ok(())
}
