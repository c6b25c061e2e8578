// What holds of all parts of a campaign, by the definitions alone.
ghost use Rattle.std.specs.Prelude.{◌≡◌, ◌<◌, ◌≤◌, ◌%◌, ◌==◌, ◌&&◌, ℕ, nat_le, nat_lt, if◌then◌else◌};
ghost use Rattle.diva_inject.specs.Parts.{numbers_of, times};

/// The parts of a campaign make the whole: each number from `first` on and below `count` is once in the part of its rest, and in no other
/// part; and no other number is in any.
#[tactic(auto, using(crate::proofs::Whole::in_its_part))]
pub fn parts_make_the_whole()
    ensures { (index of first count i : ℕ) → times i (numbers_of (record { index = index; of = of }) first count)
        ≡ (if (i % of == index) && (nat_le first i && nat_lt i count) then 1 else 0) }
{}
