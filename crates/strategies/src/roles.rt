//! What jobs that search side by side do differently.

use engine::Slots;

/// What a job leaves of the shares that a search alone has: of that of neighbourhoods, and of that of probes.
#[derive(Clone, Copy)]
pub(crate) struct Role {
    pub(crate) near: f64,
    pub(crate) probes: f64,
}

/// By the number of the job; the fifth is like the first, and so on. On eight projects with two seeds each, four such jobs
/// were 2.35 times as fast as one, and 1.96 times where all were alike (a trial before the port).
const ROLES: [Role; 4] = [
    Role {
        near: 1.0,
        probes: 1.0,
    },
    Role {
        near: 0.0,
        probes: 0.0,
    },
    Role {
        near: 0.3,
        probes: 0.0,
    },
    Role {
        near: 1.0,
        probes: 3.0,
    },
];

/// The role of a job by the slots that it has.
pub(crate) fn role_of(slots: Slots) -> Role {
    ROLES[(slots.job % 4) as usize]
}
