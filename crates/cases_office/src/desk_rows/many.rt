//! Requests that differ in a number.
use crate::desk_rows::course::Course;
use crate::desk_rows::offices::Offices;
use crate::words::{behind, word};
use std::alloc::Global;

/// The reply to the request with this number, where @ stands for the number in its body.
fn numbered<O: Offices>(
    alloc: Global,
    course: &mut Course<O>,
    line: &str,
    number: u32,
) -> Option<String> {
    let digits = format!(in alloc; "{number}").ok()?;
    let line = line.replace(alloc, "@", digits.as_str()).ok()?;
    let told = course.deliver(alloc, line.as_str())?;
    let (status, body) = told.as_str().split_once(' ')?;
    let body = body.replace(alloc, digits.as_str(), "@").ok()?;
    format!(in alloc; "{status} {body}").ok()
}

fn all_numbered<O: Offices>(
    alloc: Global,
    course: &mut Course<O>,
    line: &str,
    from: u32,
    to: u32,
) -> Option<String> {
    let mut told = String::new(alloc);
    for number in from..to {
        let reply = numbered(alloc, course, line, number)?;
        if from < number && reply.as_str() != told.as_str() {
            return format!(in alloc; "{number} gets {reply}").ok();
        }
        told = reply;
    }
    Some(told)
}

/// The reply that all the requests get.
pub(crate) fn many<O: Offices>(
    alloc: Global,
    course: &mut Course<O>,
    deed: &str,
) -> Option<String> {
    let from = word(deed, 1).parse::<u32>().ok()?;
    let to = word(deed, 2).parse::<u32>().ok()?;
    all_numbered(alloc, course, behind(behind(behind(deed))), from, to)
}
