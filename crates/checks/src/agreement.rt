//! Whether the placeholders of two texts agree.

ghost use Rattle.std.specs.Prelude.{◌≡◌, IfOk};
ghost use Rattle.std.specs.List.{list_all};
ghost use Rattle.checks.specs.Directives.{has_number, is_numbered};
ghost use Rattle.checks.specs.Findings.{is_subset, are_same_set, are_numbered, agree, is_struck_out, leaves_out};
ghost use Rattle.checks.specs.Members.{is_member, HasMembers};

use crate::directive::has_number;
use po_text::Text;
use std::alloc::Global;
use std::collections::BTreeSet;
use units::Memory;

fn is_numbered(directive: &Text) -> bool
    ensures { result ≡ is_numbered directive.now }
{
    match directive.as_str().as_bytes() {
        [_, rest @ ..] => has_number(rest),
        [] => false,
    }
}

fn all_numbered(directives: &[Text]) -> bool
    ensures { result ≡ list_all is_numbered directives.now }
{
    directives.iter().all(|directive| is_numbered(directive))
}

/// The placeholders as a set.
fn set_of(alloc: Global, placeholders: &[Text]) -> Result<BTreeSet<&str>, Memory>
    ensures { IfOk result (λ set. HasMembers set placeholders.now) }
{
    let mut set = BTreeSet::new(alloc);
    for placeholder in placeholders {
        set.insert(placeholder.as_str())?;
    }
    Ok(set)
}

fn are_members(set: &BTreeSet<&str>, placeholders: &[Text]) -> bool
    ensures { result ≡ list_all (is_member set.now) placeholders.now }
{
    placeholders
        .iter()
        .all(|placeholder| set.contains(placeholder.as_str()))
}

/// Whether each of some placeholders is one of all.
pub(crate) fn is_subset(alloc: Global, some: &[Text], all: &[Text]) -> Result<bool, Memory>
    ensures { IfOk result (λ subset. subset ≡ is_subset some.now all.now) }
{
    let set = set_of(alloc, all)?;
    Ok(are_members(&set, some))
}

/// Whether the sets are equal.
pub(crate) fn are_same_set(alloc: Global, found: &[Text], wanted: &[Text]) -> Result<bool, Memory>
    ensures { IfOk result (λ same. same ≡ are_same_set found.now wanted.now) }
{
    Ok(is_subset(alloc, found, wanted)? && is_subset(alloc, wanted, found)?)
}

fn are_numbered(found: &[Text], wanted: &[Text]) -> bool
    ensures { result ≡ are_numbered found.now wanted.now }
{
    all_numbered(found) && all_numbered(wanted)
}

/// Whether the lists are equal, or every directive of both has a number and the sets are equal.
pub(crate) fn agree(alloc: Global, found: &[Text], wanted: &[Text]) -> Result<bool, Memory>
    ensures { IfOk result (λ same. same ≡ agree found.now wanted.now) }
{
    Ok(found == wanted || (are_numbered(found, wanted) && are_same_set(alloc, found, wanted)?))
}

/// Whether what was found is what is wanted with members struck out, the others in their order.
fn is_struck_out(found: &[Text], wanted: &[Text]) -> bool
    ensures { result ≡ is_struck_out found.now wanted.now }
{
    let mut rest = found;
    for directive in wanted {
        if let [first, others @ ..] = rest
            && first == directive
        {
            rest = others;
        }
    }
    rest.is_empty()
}

/// Whether what was found is what is wanted with directives left out.
pub(crate) fn leaves_out(alloc: Global, found: &[Text], wanted: &[Text]) -> Result<bool, Memory>
    ensures { IfOk result (λ left_out. left_out ≡ leaves_out found.now wanted.now) }
{
    Ok(
        is_struck_out(found, wanted)
            || (are_numbered(found, wanted) && is_subset(alloc, found, wanted)?),
    )
}
