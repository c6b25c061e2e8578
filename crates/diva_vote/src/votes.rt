// The answer that most of three give, and how often each is outvoted.
ghost use Rattle.std.specs.Prelude.{◌≡◌};
ghost use Rattle.diva_vote.specs.Votes.{IsMajority, counted_with, is_same, outvoted_more, vote_of};

use diva_core::Diff;

/// Of three answers, the one that at least two give; where all differ, the first.
pub fn vote(a: Option<Diff>, b: Option<Diff>, c: Option<Diff>) -> Option<Diff>
    ensures majority { IsMajority a b c result }
    ensures exact { result ≡ vote_of (record { first = a; second = b; third = c }) }
{
    if is_same(b, c) { b } else { a }
}

/// Whether two answers are the same.
fn is_same(a: Option<Diff>, b: Option<Diff>) -> bool
    ensures { result ≡ is_same a b }
{
    a == b
}

/// What three lanes answered to one question.
#[derive(Clone, Copy, Debug, PartialEq, Eq)]
pub struct Ballot {
    /// What the first lane answered.
    pub first: Option<Diff>,
    /// What the second one did.
    pub second: Option<Diff>,
    /// What the third one did.
    pub third: Option<Diff>,
}

impl Ballot {
    /// The answer that at least two give; where all differ, that of the first lane.
    pub fn vote(&self) -> Option<Diff>
        ensures majority { IsMajority self.now.first self.now.second self.now.third result }
        ensures exact { result ≡ vote_of self.now }
    {
        vote(self.first, self.second, self.third)
    }
}

/// How often each of three lanes was outvoted: its answer was not the vote. Each is counted to 2^64 - 1.
#[derive(Clone, Copy, Debug, Default, PartialEq, Eq)]
pub struct Outvoted {
    /// How often the first lane was.
    pub first: u64,
    /// How often the second one was.
    pub second: u64,
    /// How often the third one was.
    pub third: u64,
}

impl Outvoted {
    /// Counts each lane whose answer is not the vote.
    pub fn count(&mut self, ballot: &Ballot)
        ensures { self.new ≡ outvoted_more self.old ballot.now }
    {
        let vote = ballot.vote();
        self.first = counted_with(self.first, ballot.first, vote);
        self.second = counted_with(self.second, ballot.second, vote);
        self.third = counted_with(self.third, ballot.third, vote);
    }
}

/// A lane's count after one more answer.
fn counted_with(count: u64, answer: Option<Diff>, vote: Option<Diff>) -> u64
    ensures { result ≡ counted_with count answer vote }
{
    if is_same(answer, vote) {
        count
    } else {
        count.saturating_add(1)
    }
}
