//! Every list of some requests.
use crate::desk_rows::alike::alike;
use crate::desk_rows::course::{Course, opened};
use crate::desk_rows::offices::Offices;
use crate::desk_rows::stage::Stage;
use std::alloc::Global;

/// How many requests a group names.
fn size(group: &str) -> usize {
    group.split(',').count()
}

fn lists(groups: &str) -> usize {
    let mut lists = 1usize;
    for group in groups.split(' ') {
        lists = lists.saturating_mul(size(group));
    }
    lists
}

/// Delivers the list that a turn chooses.
fn deliver_list<O: Offices>(
    alloc: Global,
    stage: &Stage<O>,
    course: &mut Course<O>,
    groups: &str,
    turn: usize,
) -> Option<()> {
    let mut rest = turn;
    for group in groups.split(' ') {
        let size = size(group);
        let name = group.split(',').nth(rest.checked_rem(size)?)?;
        course.deliver(alloc, stage.line(alloc, name)?.as_str())?;
        rest = rest.checked_div(size)?;
    }
    Some(())
}

fn list_told<O: Offices>(
    alloc: Global,
    stage: &Stage<O>,
    groups: &str,
    turn: usize,
) -> Option<String> {
    let mut course: Course<O> = opened(alloc, "demo")?;
    let told = match deliver_list(alloc, stage, &mut course, groups, turn) {
        Some(()) => alike(alloc, &mut course),
        None => None,
    };
    drop(course);
    told
}

/// How many lists are alike, or what one of them comes to.
pub(crate) fn every_list<O: Offices>(
    alloc: Global,
    stage: &Stage<O>,
    groups: &str,
) -> Option<String> {
    let lists = lists(groups);
    let length = groups.split(' ').count();
    let wanted = format!(in alloc; "{length} alike").ok()?;
    for turn in 0..lists {
        let told = list_told(alloc, stage, groups, turn)?;
        if told.as_str() != wanted.as_str() {
            return format!(in alloc; "list {turn}: {told}").ok();
        }
    }
    format!(in alloc; "{lists} lists alike").ok()
}
