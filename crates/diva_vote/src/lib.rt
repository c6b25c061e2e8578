//! Voting lanes: three checkers beside each other, of which one may lie.
//!
//! - `stage`: the stages that compare, `Stage`, and the check of each, `check`;
//! - `lane`: what answers for such a check, the trait `Lane`, with its meaning: what it says, and when it is honest;
//! - `lanes`: the lane that is the checks, `Honest`, the one that always lies, `Liar`, and one that is either, `EitherLane`; and `lie`,
//!   what a liar says in the place of an answer;
//! - `votes`: the answer that most of three give, `vote`, that of a `Ballot`, and how often each of three was `Outvoted`;
//! - `polls`: the ballot of three lanes on one question, `judge_by_vote`, and what two honest lanes are enough for, `recall_two_honest`.
//!
//! `specs/Questions.antt` says what a lane is asked, and which answer is right; `specs/Lanes.antt` what a lie is; `specs/Votes.antt` what
//! a majority is, and what is counted of a ballot; `specs/Polls.antt` that three lanes were polled on some questions, and that two of
//! their answers are always right.
//!
//! That a checker is done thrice, and that two equal answers of three are taken, is what fault-tolerant processors have done
//! since the first of them; the checker itself is that of DIVA (Austin, MICRO-32, 1999).
#![tactic(auto)]

mod lane;
mod lanes;
mod polls;
mod stage;
mod votes;

pub use lane::Lane;
pub use lanes::{EitherLane, Honest, Liar, lie};
pub use polls::{judge_by_vote, recall_two_honest};
pub use stage::{Stage, check};
pub use votes::{Ballot, Outvoted, vote};
