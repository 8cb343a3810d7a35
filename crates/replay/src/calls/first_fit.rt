// 05: room, room, n (2), n entries (2 each), raw. Places the demands in an order.
use crate::body::{Body, Malformed};
use crate::say;
use crate::say::{List, Refused};
use placing::Unplaced;
use std::io::Stdout;

pub(crate) fn answer(stdout: Stdout, mut body: Body<'_>) -> Result<(), Malformed> {
    let starts_room = body.room()?;
    let blockers_room = body.room()?;
    let count = usize::from(body.two()?);
    let mut order = [0; 65535];
    let order = &mut order[..count];
    body.fill(order)?;
    let request = body.request()?;
    body.end()?;
    let mut starts = [0xAAAA; 8192];
    let starts = &mut starts[..starts_room];
    let mut blockers = [0xAAAA; 8192];
    let blockers = &mut blockers[..blockers_room];
    match placing::first_fit(request, order, starts, blockers) {
        Ok(end) => say::part(stdout, format_args!("placed {end}")),
        Err(Unplaced::Refused(why)) => say::part(stdout, Refused(why)),
        Err(Unplaced::Blocked(why, blocker)) => {
            say::part(stdout, format_args!("{} {blocker}", Refused(why)))
        }
    }
    say::line(stdout, format_args!(" {} {}", List(starts), List(blockers)));
    Ok(())
}
