//! What the rows above set, and what a row makes of it.
use crate::desk_rows::adopted::adopted;
use crate::desk_rows::alike::alike;
use crate::desk_rows::asked::Asked;
use crate::desk_rows::course::{Course, opened};
use crate::desk_rows::every::every_list;
use crate::desk_rows::many::many;
use crate::desk_rows::numbers::number_of;
use crate::desk_rows::offices::Offices;
use crate::named::{Named, keep_named};
use crate::places::Place;
use crate::words::{behind, word};
use std::alloc::Global;

/// The requests with names, and the courses that are open (the last is that of the next row).
#[derive(Drop)]
pub(crate) struct Stage<O: Offices> {
    named: Vec<Named>,
    courses: Vec<Course<O>>,
}

impl<O: Offices> Stage<O> {
    pub(crate) fn new(alloc: Global) -> Stage<O> {
        Stage {
            named: Vec::new(alloc),
            courses: Vec::new(alloc),
        }
    }

    /// The line of a request: that with this name, or the text itself.
    pub(crate) fn line(&self, alloc: Global, text: &str) -> Option<String> {
        for named in self.named.iter().rev() {
            if named.name.as_str() == text {
                return named.line.clone().ok();
            }
        }
        String::from_str(alloc, text).ok()
    }

    fn open(&mut self, alloc: Global, who: &str) -> Option<String> {
        self.courses.push(opened(alloc, who)?).ok()?;
        Some(String::new(alloc))
    }

    /// Closes the last course.
    fn close(&mut self, alloc: Global) -> Option<String> {
        match self.courses.pop() {
            Some(course) => course.close(alloc),
            None => None,
        }
    }
}

/// What a deed comes to: of a request the reply. None where it can't be read.
pub(crate) fn deed_told<O: Offices>(
    alloc: Global,
    stage: &mut Stage<O>,
    deed: &str,
) -> Option<String> {
    match word(deed, 0) {
        "open" => stage.open(alloc, word(deed, 1)),
        "close" => stage.close(alloc),
        "every" => every_list(alloc, stage, behind(deed)),
        "adopt" => adopted(alloc, behind(deed)),
        "number" => number_of(alloc, word(deed, 1)),
        _ if word(deed, 1) == "is" && !deed.starts_with('{') => keep_named(
            alloc,
            &mut stage.named,
            deed,
        ),
        _ => on_course(alloc, stage, deed),
    }
}

/// What a deed on the last course comes to.
fn on_course<O: Offices>(alloc: Global, stage: &mut Stage<O>, deed: &str) -> Option<String> {
    let sent = deed.strip_prefix("lost ").unwrap_or(deed);
    let line = stage.line(alloc, sent)?;
    match stage.courses.last_mut() {
        Some(course) => of_course(alloc, course, deed, line.as_str()),
        None => None,
    }
}

/// What a deed on a course comes to, of which this is the line.
fn of_course<O: Offices>(
    alloc: Global,
    course: &mut Course<O>,
    deed: &str,
    line: &str,
) -> Option<String> {
    match word(deed, 0) {
        "lost" => course.lose(alloc, line),
        "again" => course.again(alloc),
        "over" => course.over(alloc),
        "alike" => alike(alloc, course),
        "many" => many(alloc, course, deed),
        "export" => course.export(alloc, Place::of(word(deed, 1)), word(deed, 2)),
        "unit" => course.offices.told(alloc, Asked::Unit(behind(deed))),
        "stats" => course
            .offices
            .told(alloc, Asked::Stats(Place::of(word(deed, 1)))),
        _ => course.deliver(alloc, line),
    }
}
