//! What changed in a clique since it was looked at.

/// Places of a clique, as bits.
pub(crate) type Set = u64;

/// The bit of a place.
pub(crate) fn bit(place: u32) -> Set {
    1u64.wrapping_shl(place)
}

/// Times rose from above `old` up to `new`.
#[derive(Clone, Copy)]
pub(crate) struct Rise {
    pub(crate) old: i32,
    pub(crate) new: i32,
}

/// No time rose.
pub(crate) const NO_RISE: Rise = Rise {
    old: i32::MAX,
    new: i32::MIN,
};

/// Times rose anywhere.
pub(crate) const ANY_RISE: Rise = Rise {
    old: i32::MIN,
    new: i32::MAX,
};

impl Rise {
    /// The least rise that has both.
    #[inline(always)]
    pub(crate) fn with(self, other: Rise) -> Rise {
        Rise {
            old: self.old.min(other.old),
            new: self.new.max(other.new),
        }
    }

    /// Whether there is one.
    pub(crate) fn is_some(self) -> bool {
        self.old < self.new
    }
}

/// Least starts that rose, and greatest ends that fell: the same with time turned round.
#[derive(Clone, Copy)]
pub(crate) struct Rises {
    pub(crate) least: Rise,
    pub(crate) greatest: Rise,
}

/// No time rose.
pub(crate) const NO_RISES: Rises = Rises {
    least: NO_RISE,
    greatest: NO_RISE,
};

/// Members whose bounds of one side are to be looked at, and where times of that side rose.
#[derive(Clone, Copy)]
pub(crate) struct Side {
    /// Those that got an order.
    pub(crate) ordered: Set,
    /// Those beside which a time rose.
    pub(crate) beside: Set,
    pub(crate) rise: Rise,
}

/// Nothing is to be looked at.
const NO_SIDE: Side = Side {
    ordered: 0,
    beside: 0,
    rise: NO_RISE,
};

impl Side {
    /// All of these members are to be looked at, whatever rose.
    pub(crate) fn all(members: Set) -> Side {
        Side {
            ordered: members,
            beside: 0,
            rise: ANY_RISE,
        }
    }

    /// A time rose, beside these.
    #[inline(always)]
    pub(crate) fn note(&mut self, beside: Set, old: i32, new: i32) {
        self.beside |= beside;
        self.rise = self.rise.with(Rise { old, new });
    }
}

/// What changed in a clique.
#[derive(Clone, Copy)]
pub(crate) struct CliqueChanges {
    pub(crate) is_noted: bool,
    pub(crate) least: Side,
    /// With time turned round.
    pub(crate) greatest: Side,
}

/// Nothing changed.
pub(crate) const NO_CHANGE: CliqueChanges = CliqueChanges {
    is_noted: false,
    least: NO_SIDE,
    greatest: NO_SIDE,
};
