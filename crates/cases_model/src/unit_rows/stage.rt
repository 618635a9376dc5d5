//! What the rows above set.
use po_text::{Catalogue, Items};
use review::Decision;
use std::alloc::Global;
use template_update::Plan;
use units::{Policy, Role, Unit, UnitView};

/// Who acts, under which policy; the units so far, of which the last is that of the next row; the template, and the language's
/// units. (The units so far are in a list, since each function that holds one is dear to prove.)
#[derive(Drop)]
pub(crate) struct Stage {
    pub(crate) actor: Option<(Role, Policy)>,
    pub(crate) views: Vec<UnitView>,
    pub(crate) template: Catalogue,
    pub(crate) units: Items<Unit>,
}

impl Stage {
    pub(crate) fn new(alloc: Global) -> Stage {
        Stage {
            actor: None,
            views: Vec::new(alloc),
            template: Catalogue::empty(alloc),
            units: Items::new(alloc),
        }
    }

    pub(crate) fn put(&mut self, view: UnitView) -> Option<()> {
        self.views.push(view).ok()
    }

    pub(crate) fn put_template(&mut self, template: Catalogue) {
        self.template = template;
    }

    pub(crate) fn put_units(&mut self, units: Items<Unit>) {
        self.units = units;
    }

    /// Keeps the unit that a decision made.
    pub(crate) fn take(&mut self, decision: Decision) -> Option<()> {
        match decision {
            Decision::Done(view, _) => self.put(view),
            Decision::Refused(_) => Some(()),
        }
    }

    /// Keeps the units that a plan made.
    pub(crate) fn take_plan(&mut self, plan: Option<Plan>) {
        if let Some(plan) = plan {
            self.put_units(plan.units);
        }
    }
}
