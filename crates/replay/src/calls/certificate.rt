// 21: n (2), n starts (2 each), m (2), m weights (1 each), a (1), raw. Holds a plan and a certificate against a request.
use crate::body::{Body, Malformed};
use crate::say;
use crate::say::Refused;
use certify::Certified;
use std::io::Stdout;

// The most starts, and the most weights, that stand in a body, however large a count is.
const MOST_LISTED: usize = 256;

pub(crate) fn answer(stdout: Stdout, mut body: Body<'_>) -> Result<(), Malformed> {
    let count = usize::from(body.two()?).min(MOST_LISTED);
    let mut starts = [0; MOST_LISTED];
    let starts = &mut starts[..count];
    body.fill(starts)?;
    let count = usize::from(body.two()?).min(MOST_LISTED);
    let weights = body.bytes(count)?;
    let a = body.one()?;
    let request = body.request()?;
    body.end()?;
    match certify::certify(request, starts, weights, a) {
        Ok(Certified::Best(end)) => say::line(stdout, format_args!("best {end}")),
        Ok(Certified::AtLeast(low, end)) => say::line(stdout, format_args!("atleast {low} {end}")),
        Err(why) => say::line(stdout, Refused(why)),
    }
    Ok(())
}
