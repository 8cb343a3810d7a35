// 0A: band, start (2), width (2). The frequency of a block.
use crate::body::{Body, Malformed};
use crate::say;
use crate::say::Refused;
use std::io::Stdout;

pub(crate) fn answer(stdout: Stdout, mut body: Body<'_>) -> Result<(), Malformed> {
    let band = body.band()?;
    let start = body.two()?;
    let width = body.two()?;
    body.end()?;
    match grid::to_frequency(band, start, width) {
        Ok(centre) => say::line(
            stdout,
            format_args!("frequency {} {} {}", centre.n, centre.m, centre.mhz),
        ),
        Err(why) => say::line(stdout, Refused(why)),
    }
    Ok(())
}
