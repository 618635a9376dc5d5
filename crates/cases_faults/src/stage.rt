//! What the rows so far set, and what a row makes of it.
use crate::deeds::Deed;
use crate::disks::{Bytes, LOOKING, ran_on};
use crate::trials::{Failing, stopped, synced_by, tried};
use crate::words::first_word;
use request_book::Request;
use std::alloc::Global;
use store_sql::Start;
use units::Name;

/// A request's line under a name.
#[derive(Drop)]
struct Named {
    name: String,
    line: String,
}

/// What stands for a deed: a start, or a request.
#[derive(Drop)]
enum Given {
    Start(Start),
    Request(Request),
}

impl Given {
    fn deed(&self) -> Deed<'_> {
        match self {
            Given::Start(start) => Deed::Make(start),
            Given::Request(request) => Deed::Deliver(request),
        }
    }
}

/// The requests with names, and the file.
#[derive(Drop)]
pub(crate) struct Stage {
    named: Vec<Named>,
    file: Bytes,
}

/// The demo office, or one with this manager alone.
fn start(who: &str) -> Option<Start> {
    if who == "demo" {
        return Some(Start::Demo);
    }
    Some(Start::Opening(Name::try_new(who)?))
}

impl Stage {
    pub(crate) fn new(alloc: Global) -> Stage {
        Stage {
            named: Vec::new(alloc),
            file: Bytes::none(alloc),
        }
    }

    fn name(&mut self, alloc: Global, name: &str, line: &str) -> Option<String> {
        let name = String::from_str(alloc, name).ok()?;
        let line = String::from_str(alloc, line).ok()?;
        self.named.push(Named { name, line }).ok()?;
        Some(String::new(alloc))
    }

    /// The line of a request: that with this name, or the text itself.
    fn line<'a>(&'a self, text: &'a str) -> &'a str {
        for named in self.named.iter() {
            if named.name.as_str() == text {
                return named.line.as_str();
            }
        }
        text
    }

    /// What these words do: `make WHO`, or `deliver REQUEST`.
    fn given(&self, alloc: Global, words: &str) -> Option<Given> {
        let (word, rest) = first_word(words);
        match word {
            "make" => Some(Given::Start(start(rest)?)),
            "deliver" => Some(Given::Request(Request::from_json(alloc, self.line(rest)).ok()?)),
            _ => None,
        }
    }

    /// Does a deed on the file, which stops behind it.
    fn stop(&mut self, alloc: Global, words: &str) -> Option<String> {
        let given = self.given(alloc, words)?;
        let (told, file) = stopped(alloc, &self.file, given.deed())?;
        self.file = file;
        Some(told)
    }

    /// Tries a deed while a file fails.
    fn tried(&self, alloc: Global, name: &str, words: &str, counts: bool) -> Option<String> {
        let failing = Failing::named(name)?;
        let given = self.given(alloc, words)?;
        tried(alloc, &self.file, given.deed(), failing, counts)
    }

    /// Runs statements on the file, or opens the office in it, and closes it.
    fn run(&mut self, alloc: Global, deed: Deed<'_>) -> Option<String> {
        let ran = ran_on(alloc, &self.file, deed, LOOKING)?;
        if !ran.is_closed {
            return None;
        }
        self.file = synced_by(ran);
        Some(String::new(alloc))
    }

    /// What a deed comes to, which is nothing where it only sets something. None where it can't be read.
    pub(crate) fn told(&mut self, alloc: Global, deed: &str) -> Option<String> {
        let (word, rest) = first_word(deed);
        let (second, line) = first_word(rest);
        if second == "is" {
            return self.name(alloc, word, line);
        }
        match word {
            "new" => {
                self.file = Bytes::none(alloc);
                Some(String::new(alloc))
            }
            "sql" => self.run(alloc, Deed::Run(rest)),
            "close" => self.run(alloc, Deed::Open),
            "make" | "deliver" => self.stop(alloc, deed),
            "calls" => {
                let (name, words) = first_word(rest);
                self.tried(alloc, name, words, true)
            }
            _ => self.tried(alloc, word, rest, false),
        }
    }
}
