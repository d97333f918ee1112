// What an edit would make of a part.
ghost use Rattle.std.specs.Prelude.{◌≡◌, ◌*◌, ◌≤◌};
ghost use Rattle.plans.specs.Plans.{nothing_told, add, closed};
ghost use Rattle.edits.specs.Sets.{tally};
ghost use Rattle.edits.specs.Rowing.{RowEstimate};
ghost use Rattle.edits.specs.Estimates.{Addable, kept_told};

use branches::Branch;
use model::MOST_OF_A_HASH;

// None, one or more settings; whether the part is ours' and whether it is theirs'; whether too many keys of one hash meet in it; the nodes and the entries that it takes.
#[derive(Clone, Copy)]
pub struct Estimate {
    pub size: usize,
    pub ours: bool,
    pub theirs: bool,
    pub crowded: bool,
    pub nodes: usize,
    pub entries: usize,
}

impl Estimate {
    // Of no digit yet.
    pub fn of_nothing() -> Estimate
        ensures { tally result ≡ nothing_told }
    {
        Estimate {
            size: 0,
            ours: true,
            theirs: true,
            crowded: false,
            nodes: 0,
            entries: 0,
        }
    }

    // Of a branch that is kept.
    pub fn of_kept(at: Branch) -> Estimate
        ensures { tally result ≡ kept_told at }
    {
        let size = match at {
            Branch::Nothing => 0,
            Branch::Entry(_) => 1,
            Branch::Child(_) => 2,
        };
        Estimate {
            size,
            ..Estimate::of_nothing()
        }
    }

    // Of a row of so many settings, of which one may be new, where the row is the source's or not.
    pub(crate) fn of_row(count: usize, some: bool, same: bool) -> Estimate
        ensures { RowEstimate count some same result }
    {
        Estimate {
            size: count.min(2),
            ours: same,
            theirs: same,
            crowded: count > MOST_OF_A_HASH,
            nodes: usize::from(count > 1 && !same),
            entries: usize::from(some && !same),
        }
    }

    // With one digit more.
    pub fn and(self, other: Estimate) -> Estimate
        requires { Addable self other }
        ensures { tally result ≡ add (tally self) (tally other) }
    {
        Estimate {
            size: (self.size + other.size).min(2),
            ours: self.ours & other.ours,
            theirs: self.theirs & other.theirs,
            crowded: self.crowded | other.crowded,
            nodes: self.nodes + other.nodes,
            entries: self.entries + other.entries,
        }
    }

    // All sixteen digits as a branch: one node more where it is a new one.
    pub fn close(self, level: u8) -> Estimate
        requires { self.nodes ≤ 18 * 65536 }
        ensures { tally result ≡ closed level (tally self) }
    {
        let new = self.size > usize::from(level < 8) && !self.ours && !self.theirs;
        Estimate {
            nodes: self.nodes + usize::from(new),
            ..self
        }
    }
}
