// 0C: room, room, m (4), raw. Cuts the demands into m groups, and takes the best order of these.
use crate::body::{Body, Malformed};
use crate::say;
use crate::say::{List, Refused};
use std::io::Stdout;

pub(crate) fn answer(stdout: Stdout, mut body: Body<'_>) -> Result<(), Malformed> {
    let starts_room = body.room()?;
    let blockers_room = body.room()?;
    let m = body.four()? as usize;
    let request = body.request()?;
    body.end()?;
    let mut starts = [0xAAAA; 8192];
    let starts = &mut starts[..starts_room];
    let mut blockers = [0xAAAA; 8192];
    let blockers = &mut blockers[..blockers_room];
    let reply = groups::groups(request, m, starts, blockers);
    match reply {
        Ok(Some(plan)) => {
            let held = m.min(plan.order.len());
            say::part(
                stdout,
                format_args!("grouped {} {}", plan.end, List(&plan.order[..held])),
            );
        }
        Ok(None) => say::part(stdout, "nothing"),
        Err(why) => say::part(stdout, Refused(why)),
    }
    say::line(stdout, format_args!(" {} {}", List(starts), List(blockers)));
    Ok(())
}
