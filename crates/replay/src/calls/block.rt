// 0B: band, n (4), m (2). The block of a frequency.
use crate::body::{Body, Malformed};
use crate::say;
use crate::say::Refused;
use std::io::Stdout;

pub(crate) fn answer(stdout: Stdout, mut body: Body<'_>) -> Result<(), Malformed> {
    let band = body.band()?;
    let n = body.four()?.cast_signed();
    let m = body.two()?;
    body.end()?;
    match grid::from_frequency(band, n, m) {
        Ok(block) => {
            say::line(
                stdout,
                format_args!("block {} {}", block.start, block.width),
            )
        }
        Err(why) => say::line(stdout, Refused(why)),
    }
    Ok(())
}
