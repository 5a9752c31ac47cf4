//! Edge finding in cliques (Carlier and Pinson 1994): where some members fill an interval but for too little, one more
//! that can't start before it runs after all of them, and one that can't end after it runs before them.
//!
//! A look takes the square of the members, once nothing else follows, at cliques where bounds moved and looks pay.

use crate::clique_changes::{NO_RISES, Rise, Rises, Set, bit};
use crate::windows::Window;
use crate::{Cliques, Conflict, Edges, Reason, Stop, Trail};
use std::mem;

/// So many looks are paid by an order that an analysis used. Set on 20 projects of 30 to 300 activities and ten job shops:
/// 16 take 1.07 of the conflicts, 100 .97 of them in shops alone.
const USED: i32 = 40;

/// Members that fill an interval, as seen from one side: with `is_least` as they are, else with time turned round.
#[derive(Clone, Copy)]
struct Filled {
    clique: u32,
    is_least: bool,
    from: i32,
    to: i32,
    inside: Set,
    /// How much time they leave.
    slack: i32,
}

impl Filled {
    /// Why an order follows, or that there is too little time.
    fn interval(&self) -> (i32, i32) {
        match self.is_least {
            true => (self.from, self.to),
            false => (self.to.wrapping_neg(), self.from.wrapping_neg()),
        }
    }
}

impl Cliques<'_> {
    /// Looks for edges where bounds moved. All else has followed, so windows are as they are now.
    pub fn find_edges(&mut self, trail: &mut Trail, edges: &Edges) -> Result<(), Stop> {
        for _ in 0..u64::MAX {
            let Some(clique) = self.later.pop() else {
                break;
            };
            let rises = mem::replace(&mut self.rises[clique], NO_RISES);
            if self.pays[clique].take_chance() {
                let found = self.find_edges_of(trail, edges, clique, rises);
                self.pays[clique].note_look(1, found.is_err());
                found?;
            }
        }
        Ok(())
    }

    /// An analysis has used an order that a clique gave.
    pub fn pay(&mut self, clique: u32) {
        self.pays[clique].reward(USED);
    }

    /// Looks for edges of a clique where times rose.
    fn find_edges_of(
        &self,
        trail: &mut Trail,
        edges: &Edges,
        clique: u32,
        rises: Rises,
    ) -> Result<(), Stop> {
        let (windows, turned) = (self.windows.row(clique), self.turned.row(clique));
        let look = EdgeSearch {
            cliques: self,
            edges,
            clique,
        };
        look.find(trail, windows, turned, rises.least, true)?;
        look.find(trail, turned, windows, rises.greatest, false)
    }
}

/// A look for edges of a clique.
#[derive(Clone, Copy)]
struct EdgeSearch<'a> {
    cliques: &'a Cliques<'a>,
    edges: &'a Edges,
    clique: u32,
}

/// The longest duration of some windows.
fn longest(windows: &[Window]) -> i32 {
    let mut longest = 0;
    for window in windows {
        longest = longest.max(window.duration);
    }
    longest
}

impl EdgeSearch<'_> {
    /// Looks at intervals that begin where times rose: others were looked at before.
    fn find(
        &self,
        trail: &mut Trail,
        windows: &[Window],
        turned: &[Window],
        rise: Rise,
        is_least: bool,
    ) -> Result<(), Stop> {
        let (mut last, longest) = (i32::MAX, longest(windows));
        for window in windows {
            let from = window.least;
            if from <= rise.old {
                break;
            }
            if from <= rise.new && from != last {
                last = from;
                self.find_from(trail, turned, from, longest, is_least)?;
            }
        }
        Ok(())
    }

    /// Looks at the intervals from a time on. The turned windows go by rising end; their times are negated.
    fn find_from(
        &self,
        trail: &mut Trail,
        turned: &[Window],
        from: i32,
        longest: i32,
        is_least: bool,
    ) -> Result<(), Stop> {
        let (mut sum, mut inside, mut early, begin) = (0i32, 0, 0, from.wrapping_neg());
        for (number, window) in turned.iter().enumerate() {
            if window.end <= begin {
                sum = sum.wrapping_add(window.duration);
                inside |= bit(window.place);
            } else {
                early |= bit(window.place);
            }
            let slack = begin.wrapping_sub(window.least).wrapping_sub(sum);
            if slack < longest && inside != 0 {
                let filled = Filled {
                    clique: self.clique,
                    is_least,
                    from,
                    to: window.least.wrapping_neg(),
                    inside,
                    slack,
                };
                let late = turned.get(number + 1..).unwrap_or_default();
                self.take(trail, filled, early, late)?;
            }
        }
        Ok(())
    }

    /// The orders of those that don't fit in with what fills an interval: the early end in it, the late start in it.
    fn take(
        &self,
        trail: &mut Trail,
        filled: Filled,
        early: Set,
        late: &[Window],
    ) -> Result<(), Stop> {
        let clique = filled.clique;
        if filled.slack < 0 {
            let (from, to) = filled.interval();
            return Err(Stop::Conflict(Conflict::Clique { clique, from, to }));
        }
        self.take_late(trail, filled, late)?;
        self.take_early(trail, filled, early)
    }

    /// Those that start in the interval and don't fit in run after what fills it.
    fn take_late(&self, trail: &mut Trail, filled: Filled, late: &[Window]) -> Result<(), Stop> {
        for window in late {
            let is_late = window.end <= filled.from.wrapping_neg();
            if is_late && window.duration > filled.slack {
                self.order_all(trail, filled, window.place, filled.is_least)?;
            }
        }
        Ok(())
    }

    /// Those that end in the interval and don't fit in run before what fills it.
    fn take_early(&self, trail: &mut Trail, filled: Filled, early: Set) -> Result<(), Stop> {
        let mut left = early;
        for _ in 0..early.count_ones() {
            let place = left.trailing_zeros();
            left = left & left.wrapping_sub(1);
            if self.cliques.member(self.clique, place).length > filled.slack {
                self.order_all(trail, filled, place, !filled.is_least)?;
            }
        }
        Ok(())
    }

    /// A place runs after all that are inside, or before them.
    fn order_all(
        &self,
        trail: &mut Trail,
        filled: Filled,
        place: u32,
        is_after: bool,
    ) -> Result<(), Stop> {
        let at = self.cliques.at(self.clique, place);
        let known = match is_after {
            true => self.cliques.before[at],
            false => self.cliques.after[at],
        };
        let (clique, (from, to)) = (self.clique, filled.interval());
        let reason = Reason::Edge { clique, from, to };
        let mut left = filled.inside & !known;
        for _ in 0..left.count_ones() {
            let other = left.trailing_zeros();
            left = left & left.wrapping_sub(1);
            let (first, second) = if is_after {
                (other, place)
            } else {
                (place, other)
            };
            self.cliques
                .force_order(trail, self.edges, clique, first, second, reason)?;
        }
        Ok(())
    }
}
