// What a row makes of the list of a cycle.
ghost use Rattle.std.specs.Prelude.{◌≡◌, ◌+◌, ◌≤◌, ◌<◌, ◌++◌, length, take, drop, slice_get};
ghost use Rattle.diva_faults.specs.Lists.{change_at, changed, forced, laid_in, with_field};
ghost use Rattle.diva_faults.specs.Rows.{IsChange, IsRow};

use crate::rows::{Change, Row};
use diva_core::{Claim, Claims, Field};

impl Row {
    /// Lays the row over the list of a cycle: in the cycles that it touches, it changes the claim in its lane, or a hush empties the list;
    /// in any other, the list stays.
    pub fn lay_in(&self, cycle: u64, list: &mut Claims)
        requires { IsRow self.now }
        ensures { list.new ≡ laid_in cycle list.old self.now }
    {
        if cycle < u64::from(self.cycle()) || u64::from(self.end()) <= cycle {
            return;
        }
        match *self {
            Row::Hush { .. } => list.clear(),
            Row::Lane { lane, change, .. } | Row::Lasting { lane, change, .. } => {
                change_at(change, usize::from(lane), list);
            }
        }
    }
}

/// Changes the claim in a lane. A lane at or past the list's end has none.
fn change_at(change: Change, lane: usize, list: &mut Claims)
    requires { IsChange change }
    ensures { list.new ≡ change_at change lane list.old (slice_get list.old lane) }
{
    if lane >= list.len() {
        return;
    }
    let claims = list.as_slice();
    let mut after = Claims::new();
    push_all(&mut after, &claims[..lane]);
    push_changed(&mut after, change, claims.len(), &claims[lane]);
    push_all(&mut after, &claims[lane + 1..]);
    *list = after;
}

/// Puts what a change makes of a claim, in a list of `count` claims.
fn push_changed(after: &mut Claims, change: Change, count: usize, claim: &Claim)
    requires change { IsChange change }
    requires room { length after.old < count }
    requires most { count ≤ 8 }
    ensures { after.new ≡ after.old ++ changed change count claim.now }
{
    match change {
        Change::Flip { field, bit } => {
            after.push(with_field(claim, field, field.of(claim) ^ (1 << bit)));
        }
        Change::Set { field, value } => after.push(with_field(claim, field, value)),
        Change::Lose => {}
        Change::Double => {
            after.push(*claim);
            if count < Claims::MOST {
                after.push(*claim);
            }
        }
        Change::Force { field, bit, high } => {
            after.push(with_field(claim, field, forced(field.of(claim), bit, high)));
        }
    }
}

/// A word with a bit forced to 1, or to 0.
fn forced(word: u32, bit: u8, high: bool) -> u32
    requires { bit < 32 }
    ensures { result ≡ forced high bit word }
{
    if high {
        word | 1 << bit
    } else {
        word & !(1 << bit)
    }
}

/// Puts claims after the others.
fn push_all(list: &mut Claims, claims: &[Claim])
    requires { length list.old + length claims.now ≤ 8 }
    ensures { list.new ≡ list.old ++ claims.now }
{
    for claim in claims {
        list.push(*claim);
    }
}

/// The claim with another value in a field.
fn with_field(claim: &Claim, field: Field, value: u32) -> Claim
    ensures { result ≡ with_field field value claim.now }
{
    match field {
        Field::Pc => Claim {
            pc: value,
            ..*claim
        },
        Field::Word => Claim {
            word: value,
            ..*claim
        },
        Field::Src1 => Claim {
            src1: value,
            ..*claim
        },
        Field::Src2 => Claim {
            src2: value,
            ..*claim
        },
        Field::Addr => Claim {
            addr: value,
            ..*claim
        },
        Field::Value => Claim { value, ..*claim },
        Field::Next => Claim {
            next: value,
            ..*claim
        },
        Field::End => Claim {
            end: value,
            ..*claim
        },
    }
}
