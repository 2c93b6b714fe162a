//! Which members are still to be gone through, of types within one another.

ghost use Rattle.std.specs.Prelude.{◌≡◌, ◌<◌, ◌≤◌, ◌-◌, ◌++◌, ◌∷◌, [], MatchOption, drop, length};

use crate::sequence::{member, member_count};
use wit_model::{TypeDef, WitType};

/// The members of an entry of the table from one on.
#[derive(Clone, Copy)]
pub(crate) struct Run {
    pub(crate) at: usize,
    pub(crate) nth: usize,
}

/// The members that are still ahead, in runs of which the last comes first. There is room for seventeen runs, and of more
/// the nearest are kept: each type has a word, so that no word of the others is among the first seventeen.
#[derive(Clone, Copy)]
pub(crate) struct Ahead {
    pub(crate) runs: [Run; 17],
    pub(crate) count: usize,
    ghost bounded: { count ≤ 17 },
    ghost whole: { length runs ≡ 17 },
}

impl Ahead {
    ghost use Rattle.wit_layout.specs.inside.Ahead.{ArePut, AreRuns, ahead_members, runs};

    /// No member.
    pub(crate) fn none() -> Ahead
        ensures { runs result ≡ [] }
    {
        Ahead {
            runs: [Run { at: 0, nth: 0 }; 17],
            count: 0,
        }
    }

    /// Leaves out the farthest run, where there is no room for one more.
    fn make_room(&mut self)
        ensures room { self.new.count < 17 }
        ensures runs { runs self.new ≡ drop (self.old.count - 16) (runs self.old) }
    {
        if self.count == 17 {
            self.runs.rotate_left(1);
            self.count -= 1;
        }
    }

    /// One run more, which comes first.
    fn push(&mut self, run: Run)
        requires { self.old.count < 17 }
        ensures { runs self.new ≡ runs self.old ++ run ∷ [] }
    {
        self.runs[self.count] = run;
        self.count += 1;
    }

    /// The members of an entry come first, where it has any.
    pub(crate) fn put(&mut self, types: &[TypeDef], at: usize)
        requires within { at < length types.now }
        requires valid { AreRuns types.now self.old }
        ensures valid { AreRuns types.now self.new }
        ensures members { ArePut types.now at self.old self.new }
    {
        if member_count(&types[at].kind) > 0 {
            self.make_room();
            self.push(Run { at, nth: 0 });
        }
    }

    /// The first member, which is not ahead any more.
    pub(crate) fn next(&mut self, types: &[TypeDef]) -> Option<Option<WitType>>
        requires valid { AreRuns types.now self.old }
        ensures valid { AreRuns types.now self.new }
        ensures members { MatchOption result (ahead_members types.now self.old ≡ [])
            (λ first. ahead_members types.now self.old ≡ first ∷ ahead_members types.now self.new) }
    {
        if self.count == 0 {
            return None;
        }
        let last = self.count - 1;
        let Run { at, nth } = self.runs[last];
        let kind = &types[at].kind;
        let end = member_count(kind);
        if nth + 1 < end {
            self.runs[last] = Run { at, nth: nth + 1 };
        } else {
            self.count = last;
        }
        Some(member(kind, nth))
    }
}
