//! Whether a costly look pays: a look that finds something of use pays for further ones. Where nothing pays, looks become rarer.
//!
//! The numbers were chosen together. With them, looks at energy left .84 of the conflicts and .96 of the seconds (11 projects
//! with cumulative resources, 2 seeds each).

/// How many looks a conflict pays for, and how many may be paid ahead.
const CONFLICT: i32 = 20;

const AHEAD: i32 = 200;

/// How many chances pass before the next look where none pays: at first, and at most. The number doubles each time.
const FIRST: i32 = 8;

const MOST: i32 = 128;

/// The account of one kind of look. What is written there is in looks; a debt is paid off by chances that pass.
#[derive(Clone, Copy)]
pub(crate) struct Pay {
    credit: i32,
    pause: i32,
}

impl Pay {
    /// Nothing was looked at yet.
    pub(crate) fn new() -> Pay {
        Pay {
            credit: 0,
            pause: FIRST,
        }
    }

    /// A chance to look has come. Whether it is to be taken; else it passes.
    pub(crate) fn take_chance(&mut self) -> bool {
        let is_due = self.credit >= 0;
        if !is_due {
            self.credit = self.credit.wrapping_add(1);
        }
        is_due
    }

    /// A look was made, which cost as much as so many. Whether it found a conflict.
    pub(crate) fn note_look(&mut self, cost: i32, is_conflict: bool) {
        self.credit = self.credit.wrapping_sub(cost);
        if is_conflict {
            self.reward(CONFLICT);
        }
        if self.credit < 0 {
            self.credit = self.pause.wrapping_mul(cost).wrapping_neg();
            self.pause = self.pause.wrapping_mul(2).min(MOST);
        }
    }

    /// What a look found was of use: it pays for so many looks.
    pub(crate) fn reward(&mut self, looks: i32) {
        self.credit = self.credit.wrapping_add(looks).min(AHEAD);
        self.pause = FIRST;
    }
}
