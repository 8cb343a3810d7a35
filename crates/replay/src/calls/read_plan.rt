// 08: room, length (2), plan file, raw. Reads the file of a plan.
use crate::body::{Body, Malformed};
use crate::say;
use crate::say::List;
use std::io::Stdout;

pub(crate) fn answer(stdout: Stdout, mut body: Body<'_>) -> Result<(), Malformed> {
    let room = body.room()?;
    let length = usize::from(body.two()?);
    let file = body.bytes(length)?;
    let request = body.request()?;
    body.end()?;
    let mut starts = [0xAAAA; 8192];
    let starts = &mut starts[..room];
    say::checked(stdout, "read", planfile::read_plan(request, file, starts));
    say::line(stdout, format_args!(" {}", List(starts)));
    Ok(())
}
