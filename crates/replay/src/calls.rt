// The calls, a module for each. Each reads what it needs from its body and prints its line, unless the body is malformed.
// Kept as it is: several begin alike, with the rooms or the entries that stand first in their bodies; each reads its body as docs/REPLAY.md
// lists it, so that one can be held against the other line by line.
mod block;
mod bound;
mod certificate;
mod check_request;
mod check_starts;
mod first_fit;
mod frequency;
mod group_orders;
mod place_one;
mod read_plan;
mod read_request;
mod search_orders;
mod write_plan;
mod write_request;

use crate::body::{Body, Malformed};
use std::io::Stdout;

// Makes the call of this number. Where there is no such call, or the body is not one of it, nothing is printed.
pub(crate) fn make_call(stdout: Stdout, call: u8, body: &[u8]) -> Result<(), Malformed> {
    let body = Body::of(body);
    // Kept as it is: a table of the calls would be one of function pointers or dyn values, no plainer than a match on a number of the input.
    match call {
        0x01 => read_request::answer(stdout, body),
        0x02 => check_request::answer(stdout, body),
        0x03 => write_request::answer(stdout, body),
        0x04 => bound::answer(stdout, body),
        0x05 => first_fit::answer(stdout, body),
        0x06 => search_orders::answer(stdout, body),
        0x07 => check_starts::answer(stdout, body),
        0x08 => read_plan::answer(stdout, body),
        0x09 => write_plan::answer(stdout, body),
        0x0A => frequency::answer(stdout, body),
        0x0B => block::answer(stdout, body),
        0x0C => group_orders::answer(stdout, body),
        0x20 => place_one::answer(stdout, body),
        0x21 => certificate::answer(stdout, body),
        _ => Err(Malformed),
    }
}
