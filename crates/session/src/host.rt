//! The program that has a session run.

use crate::recorder::Before;
use crate::session::{Session, SessionFault};
use devices::Output;
use lemma_record::Naming;
use network::Project;
use strategies::Finder;

/// What is known of a project by now.
#[derive(Clone, Copy)]
pub struct Known<'k> {
    /// Whole seconds since the session began.
    pub seconds: u64,
    /// The starts of the incumbent, in periods.
    pub starts: Option<&'k [i64]>,
    /// Who found it.
    pub finder: Finder,
    pub bound: i64,
    /// Whether a search stopped because its lemmas fill the memory that they may take.
    pub is_full: bool,
}

/// What a program has for its searches.
#[derive(Drop)]
pub enum Signal {
    GoOn,
    /// A feasible schedule of the project, by its starts in periods.
    Take(Vec<i64>),
    End,
}

/// The program that has a session run. It is asked in the thread that began the session, which is that of its first job.
pub trait Host {
    /// Gives the session what is known, before anything is searched.
    fn begin<D: Output, J: Naming + Before>(
        &mut self,
        session: &mut Session<'_, '_, D, J>,
    ) -> Result<(), SessionFault>;

    /// Says whether searches of the project go on, between two turns of the first job.
    fn signal(&mut self, project: &Project) -> Signal;

    /// Hears what is known, after each turn of the first job and at the end.
    fn hear(&mut self, known: &Known<'_>);
}
