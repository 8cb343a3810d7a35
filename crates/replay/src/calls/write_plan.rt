// 09: room, n (2), n starts (2 each), raw. Writes the file of the plan that starts give a request.
use crate::body::{Body, Malformed};
use crate::say;
use crate::say::Hex;
use std::io::Stdout;

pub(crate) fn answer(stdout: Stdout, mut body: Body<'_>) -> Result<(), Malformed> {
    let room = body.room()?;
    let count = usize::from(body.two()?);
    let mut starts = [0; 65535];
    let starts = &mut starts[..count];
    body.fill(starts)?;
    let request = body.request()?;
    body.end()?;
    let mut out = [0xAA; 8192];
    let out = &mut out[..room];
    say::written(stdout, planfile::write_plan(request, starts, out));
    say::line(stdout, format_args!(" {}", Hex(out)));
    Ok(())
}
