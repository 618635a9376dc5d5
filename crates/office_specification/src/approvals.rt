//! What a policy reads of the units of an office.

/// How many units of an office are approved, in all languages of all domains and also obsolete ones.
#[derive(Clone, Copy)]
pub struct Approvals {
    pub approved: usize,
    /// How many of them are at the last revision: none of these can lose its approval.
    pub at_last_revision: usize,
}
