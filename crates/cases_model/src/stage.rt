//! What the rows so far set, and what a row makes of it.
use crate::{catalogue_rows, request_rows, unit_rows};
use std::alloc::Global;

/// Whose words rows have.
#[derive(Drop)]
enum Part {
    Catalogues,
    Units,
    Requests,
}

impl Part {
    fn named(name: &str) -> Option<Part> {
        match name {
            "catalogues" => Some(Part::Catalogues),
            "units" => Some(Part::Units),
            "requests" => Some(Part::Requests),
            _ => None,
        }
    }
}

/// The part that rows are of, and what those of each part set.
#[derive(Drop)]
pub(crate) struct Stage {
    part: Part,
    catalogues: catalogue_rows::Stage,
    units: unit_rows::Stage,
    requests: request_rows::Stage,
}

impl Stage {
    pub(crate) fn new(alloc: Global) -> Stage {
        Stage {
            part: Part::Catalogues,
            catalogues: catalogue_rows::Stage::new(alloc),
            units: unit_rows::Stage::new(alloc),
            requests: request_rows::Stage::new(alloc),
        }
    }

    /// Tells what a deed comes to, which is nothing where it only sets something. None where it can't be read.
    pub(crate) fn tell(&mut self, alloc: Global, told: &mut String, deed: &str) -> Option<()> {
        if let Some(name) = deed.strip_prefix("== ") {
            self.part = Part::named(name)?;
            return Some(());
        }
        match self.part {
            Part::Catalogues => catalogue_rows::tell(alloc, told, &mut self.catalogues, deed),
            Part::Units => unit_rows::tell(alloc, told, &mut self.units, deed),
            Part::Requests => request_rows::tell(alloc, told, &mut self.requests, deed),
        }
    }

    /// Whether what a row wants stands for this text.
    pub(crate) fn means(&self, alloc: Global, wanted: &str, text: &str) -> bool {
        match self.part {
            Part::Catalogues => catalogue_rows::means(alloc, &self.catalogues, wanted, text),
            Part::Units => wanted == text,
            Part::Requests => request_rows::means(alloc, wanted, text),
        }
    }
}
