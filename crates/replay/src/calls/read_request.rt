// 01: the file of a request. Answers the bytes that the request in it is written as.
use crate::body::{Body, Malformed};
use crate::say;
use crate::say::{Hex, Refused};
use request::Request;
use std::io::Stdout;

pub(crate) fn answer(stdout: Stdout, body: Body<'_>) -> Result<(), Malformed> {
    match reading::read_request(body.rest()) {
        Ok(request) => show(stdout, request),
        Err(why) => say::line(stdout, Refused(why)),
    }
    Ok(())
}

fn show(stdout: Stdout, request: Request) {
    let mut out = [0xAA; 8192];
    match writing::write_request(request, &mut out) {
        Ok(count) => {
            say::line(
                stdout,
                format_args!("read {}", Hex(&out[..count.min(8192)])),
            )
        }
        Err(why) => say::line(stdout, Refused(why)),
    }
}
