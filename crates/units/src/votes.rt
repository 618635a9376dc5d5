//! The votes of a suggestion, which contracts see as the map from each voter to the vote.
ghost use Rattle.std.specs.Prelude.{◌≡◌, ◌<◌, ◌^◌, true, length, IfOk, OnOk, OnErr, IsTrue, MatchResult};
ghost use Rattle.std.specs.FinMap as map;
ghost use Rattle.po_text.specs.Texts.{text_cmp};
ghost use Rattle.units.specs.Ballots.{StandsAfter, IsPlaceOf, IsNewPlaceOf, vote_weight};

use crate::names::Name;
use po_text::Duplicate;
use std::alloc::{AllocError, Global};
use std::marker::Model;

/// A vote that counts.
#[derive(Debug, Drop, Clone, Copy, PartialEq, Eq)]
pub enum VoteValue {
    Against,
    For,
}

/// The votes of a suggestion, at most one of each voter, with the sum that they make.
#[derive(Debug, Drop)]
pub struct Votes {
    inner: Vec<(Name, VoteValue)>,
    /// 1 for the suggestion itself, and its votes: no look adds them up.
    kept_sum: i64,
}

impl Model for Votes {
    ghost use Rattle.std.specs.Prelude.{ℕ, ◌≡◌, true};
    ghost use Rattle.std.specs.Ordering.{nat_cmp};
    ghost use Rattle.std.specs.Cmp.Lexicographic.{slice_cmp};
    ghost use Rattle.std.specs.FinMap as map;
    ghost use Rattle.std.specs.Coded.{coded_ℕ, coded_list};
    ghost use Rattle.units.specs.declared.votes.VoteValue.{VoteValue};
    ghost use Rattle.units.specs.Coding.{coded_vote_value};
    ghost use Rattle.units.specs.Ballots.{vote_sum};

    ghost Value = { map.FinMap (slice_cmp nat_cmp) VoteValue };

    ghost coded = { map.code (coded_list coded_ℕ) coded_vote_value };

    ghost view = { λ v. map.from_sorted v.inner.items };

    ghost invariant = { λ v. (map.is_sorted (slice_cmp nat_cmp) v.inner.items ≡ true) × (v.kept_sum ≡ vote_sum (map.from_sorted v.inner.items)) };
}

impl Votes {
    ghost use Rattle.units.specs.Ballots.{vote_sum};

    /// No votes. It takes no memory.
    pub fn new(alloc: Global) -> Votes
        ensures { result ≡ map.empty }
    {
        Votes {
            inner: Vec::new(alloc),
            kept_sum: 1,
        }
    }

    /// The votes with their voters, in the order of the voters' names.
    pub fn as_slice(&self) -> &[(Name, VoteValue)]
        ensures { result.now ≡ map.entries self.now }
    {
        self.inner.as_slice()
    }

    /// How many votes there are.
    pub fn len(&self) -> usize
        ensures value { result ≡ map.len self.now }
        ensures fits { map.len self.now < 2 ^ 63 }
    {
        self.inner.as_slice().len()
    }

    /// The vote of a voter.
    pub fn get(&self, voter: &Name) -> Option<VoteValue>
        ensures { result ≡ map.get self.now voter.now }
    {
        match place_of(self.inner.as_slice(), voter) {
            Ok(i) => Some(self.inner[i].1),
            Err(_) => None,
        }
    }

    /// Replaces the voter's vote. A refused growth leaves the votes as they were.
    pub fn insert(&mut self, voter: Name, value: VoteValue) -> Result<(), AllocError>
        ensures ok { OnOk result (self.new ≡ map.insert self.old voter value) }
        ensures err { OnErr result (self.new ≡ self.old) }
    {
        match place_of(self.inner.as_slice(), &voter) {
            Ok(i) => {
                self.kept_sum += weight(value) - weight(self.inner[i].1);
                self.inner[i] = (voter, value);
            }
            Err(i) => {
                self.inner.insert(i, (voter, value))?;
                self.kept_sum += weight(value);
            }
        }
        Ok(())
    }

    /// Takes the voter's vote back, if there is one.
    pub fn remove(&mut self, voter: &Name)
        ensures { self.new ≡ map.remove self.old voter.now }
    {
        if let Ok(i) = place_of(self.inner.as_slice(), voter) {
            let (_, value) = self.inner.remove(i);
            self.kept_sum -= weight(value);
        }
    }

    /// 1 for the suggestion itself and for each vote for it, less 1 for each vote against it. (Weblate's documentation,
    /// "Translation workflows".)
    pub fn sum(&self) -> i64
        ensures { result ≡ vote_sum self.now }
    {
        self.kept_sum
    }
}

impl Duplicate for Votes {
    fn duplicate(&self) -> Result<Votes, AllocError> {
        let alloc = *self.inner.allocator();
        Ok(Votes {
            inner: copied_votes(alloc, self.inner.as_slice())?,
            kept_sum: self.kept_sum,
        })
    }
}

/// Whether the voter stands after all voters of votes in their order: after the last one.
fn stands_last(votes: &[(Name, VoteValue)], voter: &Name) -> bool
    requires { map.is_sorted text_cmp votes.now ≡ true }
    ensures { IsTrue result → StandsAfter voter.now votes.now (length votes.now) }
{
    match votes.last() {
        Some(last) => last.0.as_str() < voter.as_str(),
        None => true,
    }
}

/// Where a voter's vote stands among votes in the order of their voters, or else where it belongs. Votes that come in this order
/// belong at the end, where it is looked for first.
fn place_of(votes: &[(Name, VoteValue)], voter: &Name) -> Result<usize, usize>
    requires { map.is_sorted text_cmp votes.now ≡ true }
    ensures { MatchResult result (IsPlaceOf voter.now votes.now) (IsNewPlaceOf voter.now votes.now) }
{
    if stands_last(votes, voter) {
        return Err(votes.len());
    }
    votes.binary_search_by(|vote| vote.0.as_str().cmp(voter.as_str()))
}

/// What a vote adds to the sum.
fn weight(value: VoteValue) -> i64
    ensures { result ≡ vote_weight value }
{
    match value {
        VoteValue::For => 1,
        VoteValue::Against => -1,
    }
}

/// The same votes, in their order.
/// There is some room where they are many: a copy is mostly made for one vote more.
fn copied_votes(
    alloc: Global,
    votes: &[(Name, VoteValue)],
) -> Result<Vec<(Name, VoteValue)>, AllocError>
    ensures { IfOk result (λ copy. copy.items ≡ votes.now) }
{
    let mut all = Vec::with_capacity(alloc, votes.len() + votes.len() / 16)?;
    for vote in votes {
        all.push((vote.0.duplicate()?, vote.1))?;
    }
    Ok(all)
}
