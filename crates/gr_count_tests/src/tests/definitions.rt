//! A plain and slow program that computes the definitions directly, for comparison.

ghost use Rattle.std.specs.Prelude.{◌<◌, ◌≤◌};
ghost use Rattle.gr_count.specs.declared.limits.TheConstants.{MAX_OPTIONS};

use gr_count::MAX_OPTIONS;

/// The text of a ballot; the characters after its options are not looked at.
pub(super) type Text = [u8; MAX_OPTIONS];

/// An answer for each option.
type PerOption<T> = [T; MAX_OPTIONS];

/// An answer for each pair of options.
type PerPair<T> = [PerOption<T>; MAX_OPTIONS];

/// More rounds there cannot be: each drops a defeat, and of two options one at most defeats the
/// other.
const MOST_ROUNDS: u32 = 595;

/// A vote as a list of ballots, with what else is counted.
#[derive(Drop)]
pub(super) struct Vote<'a> {
    pub(super) options: usize,
    pub(super) ballots: &'a [Text],
    pub(super) developers: u32,
    pub(super) ratios: PerOption<u32>,
    ghost few: { options ≤ MAX_OPTIONS },
}

/// What the definitions give.
#[derive(Drop)]
pub(super) struct Outcome {
    pub(super) kept: PerOption<bool>,
    pub(super) members: PerOption<bool>,
    pub(super) rounds: u32,
    pub(super) dropped_in: PerPair<u32>,
}

impl Vote<'_> {
    /// How many voters prefer the first option to the second.
    fn voters(&self, first: usize, second: usize) -> u64 {
        let mut voters = 0u64;
        for text in self.ballots {
            if prefers(text, first, second) {
                voters = voters.saturating_add(1);
            }
        }
        voters
    }

    /// V(A,B) of each two options.
    fn preferences(&self) -> PerPair<u64> {
        let mut preferences = [[0; MAX_OPTIONS]; MAX_OPTIONS];
        for a in 0..self.options {
            for b in 0..self.options {
                preferences[a][b] = self.voters(a, b);
            }
        }
        preferences
    }

    fn is_kept(&self, option: usize) -> bool {
        let default = self.options.saturating_sub(1);
        let above = self.voters(option, default);
        let below = self.voters(default, option);
        let ratio = u64::from(self.ratios.get(option).copied().unwrap_or(0));
        let quorum = u64::from(self.developers).saturating_mul(9);
        option == default
            || (option < default
                && above.saturating_mul(above).saturating_mul(4) >= quorum
                && above >= ratio.saturating_mul(below)
                && above > below)
    }

    fn kept(&self) -> PerOption<bool> {
        let mut kept = [false; MAX_OPTIONS];
        for option in 0..self.options {
            kept[option] = self.is_kept(option);
        }
        kept
    }

    fn first_defeats(&self, v: &PerPair<u64>, kept: &PerOption<bool>) -> PerPair<bool> {
        let mut defeats = [[false; MAX_OPTIONS]; MAX_OPTIONS];
        for a in 0..self.options {
            for b in 0..self.options {
                defeats[a][b] = kept[a] && kept[b] && v[a][b] > v[b][a];
            }
        }
        defeats
    }

    /// Goes on from an option over the defeats, to each option that was not seen before.
    fn visit(&self, defeats: &PerPair<bool>, at: usize, steps: usize, seen: &mut PerOption<bool>) {
        if steps == 0 || at >= self.options {
            return;
        }
        for next in 0..self.options {
            if defeats[at][next] && !seen[next] {
                seen[next] = true;
                self.visit(defeats, next, steps - 1, seen);
            }
        }
    }

    /// Which options each option reaches, by a search in depth.
    fn reached(&self, defeats: &PerPair<bool>) -> PerPair<bool> {
        let mut reached = [[false; MAX_OPTIONS]; MAX_OPTIONS];
        for option in 0..self.options {
            self.visit(defeats, option, self.options + 1, &mut reached[option]);
        }
        reached
    }

    /// The kept options that reach each kept option by which they are reached.
    fn schwartz_set(&self, kept: &PerOption<bool>, defeats: &PerPair<bool>) -> PerOption<bool> {
        let reached = self.reached(defeats);
        let mut members = *kept;
        for a in 0..self.options {
            for b in 0..self.options {
                if kept[b] && !(reached[a][b] || !reached[b][a]) {
                    members[a] = false;
                }
            }
        }
        members
    }

    /// The defeats between two members.
    fn between(&self, members: &PerOption<bool>, defeats: &PerPair<bool>) -> PerPair<bool> {
        let mut inner = [[false; MAX_OPTIONS]; MAX_OPTIONS];
        for a in 0..self.options {
            for b in 0..self.options {
                inner[a][b] = defeats[a][b] && members[a] && members[b];
            }
        }
        inner
    }

    /// Whether no defeat of the table is weaker than that of `x` by `a`: has less support, or as
    /// much and more opposition.
    fn is_weakest(&self, v: &PerPair<u64>, inner: &PerPair<bool>, a: usize, x: usize) -> bool
        requires winner { a < MAX_OPTIONS }
        requires loser { x < MAX_OPTIONS }
    {
        for b in 0..self.options {
            for y in 0..self.options {
                let is_weaker = v[b][y] < v[a][x] || (v[b][y] == v[a][x] && v[y][b] > v[x][a]);
                if inner[b][y] && is_weaker {
                    return false;
                }
            }
        }
        true
    }
}

/// Whether the ballot prefers the first option to the second. A rank is preferred to one whose
/// character has a greater number, and digits have lesser ones than letters.
fn prefers(text: &Text, first: usize, second: usize) -> bool {
    match (text.get(first), text.get(second)) {
        (Some(one), Some(other)) => *one != b'-' && (*other == b'-' || one < other),
        _ => false,
    }
}

/// The outcome by the definitions.
pub(super) fn count_slowly(vote: &Vote<'_>) -> Outcome {
    let kept = vote.kept();
    let v = vote.preferences();
    let mut defeats = vote.first_defeats(&v, &kept);
    let mut dropped_in = [[0; MAX_OPTIONS]; MAX_OPTIONS];
    let mut rounds = 0;
    for round in 1..=MOST_ROUNDS {
        let inner = vote.between(&vote.schwartz_set(&kept, &defeats), &defeats);
        let mut settled = true;
        for a in 0..vote.options {
            for b in 0..vote.options {
                if inner[a][b] && vote.is_weakest(&v, &inner, a, b) {
                    dropped_in[a][b] = round;
                    defeats[a][b] = false;
                    rounds = round;
                    settled = false;
                }
            }
        }
        if settled {
            break;
        }
    }
    let members = vote.schwartz_set(&kept, &defeats);
    Outcome {
        kept,
        members,
        rounds,
        dropped_in,
    }
}
