// 03: room, raw. Writes the file of a request.
use crate::body::{Body, Malformed};
use crate::say;
use crate::say::Hex;
use std::io::Stdout;

pub(crate) fn answer(stdout: Stdout, mut body: Body<'_>) -> Result<(), Malformed> {
    let room = body.room()?;
    let request = body.request()?;
    body.end()?;
    let mut out = [0xAA; 8192];
    let out = &mut out[..room];
    say::written(stdout, writing::write_request(request, out));
    say::line(stdout, format_args!(" {}", Hex(out)));
    Ok(())
}
