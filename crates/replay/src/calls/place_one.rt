// 20: count (2), slots (2), guard (2), width (2), rows. Places one demand beside the numbers that stand.
use crate::body::{Body, Malformed};
use crate::say;
use std::io::Stdout;

// As many numbers as can stand. No more of them are in the body, however large the count is.
const MOST_NUMBERS: usize = 200;

// Each number has a row: whether it is met (1), its start (2), its end (2).
pub(crate) fn answer(stdout: Stdout, mut body: Body<'_>) -> Result<(), Malformed> {
    let count = usize::from(body.two()?);
    let slots = body.two()?;
    let guard = body.two()?;
    let width = body.two()?;
    let mut meets = [false; MOST_NUMBERS];
    let mut starts = [0; MOST_NUMBERS];
    let mut ends = [0; MOST_NUMBERS];
    let rows = meets.iter_mut().zip(starts.iter_mut()).zip(ends.iter_mut());
    for ((met, start), end) in rows.take(count) {
        *met = body.one()? != 0;
        *start = body.two()?;
        *end = body.two()?;
    }
    body.end()?;
    let placement = board::place_one(&meets, &starts, &ends, count, width, guard, slots);
    match placement.spot {
        Some(start) => say::part(stdout, format_args!("at {start}")),
        None => say::part(stdout, "nowhere"),
    }
    match placement.blocker {
        None => say::line(stdout, " none"),
        Some(number) => say::line(stdout, format_args!(" {number}")),
    }
    Ok(())
}
