// 07: n (2), n starts (2 each), raw. Checks the plan that starts give a request.
use crate::body::{Body, Malformed};
use crate::say;
use std::io::Stdout;

pub(crate) fn answer(stdout: Stdout, mut body: Body<'_>) -> Result<(), Malformed> {
    let count = usize::from(body.two()?);
    let mut starts = [0; 65535];
    let starts = &mut starts[..count];
    body.fill(starts)?;
    let request = body.request()?;
    body.end()?;
    say::checked(stdout, "accepted", plan::check_starts(request, starts));
    say::line(stdout, "");
    Ok(())
}
