//! Explanations by tours of groups.

use crate::LineReason;
use crate::state::Engine;
use instance::Result;

impl Engine<'_> {
    /// The orders, and the end, that leave only assignments of next groups that are too long.
    pub(crate) fn explain_tour(&mut self) -> Result<LineReason> {
        let Some(tours) = &self.tours else {
            return Ok(LineReason::Arcs);
        };
        let mut delays = Vec::new(self.instance.alloc);
        self.marks.found.push(tours.end())?;
        for (one, other) in &tours.needed_orders(&self.trail)? {
            self.marks.found.push(tours.before(*one, *other))?;
            delays.push((tours.anchor(*one), tours.anchor(*other)))?;
        }
        let (members, (from, to)) = (tours.intervals()?, tours.window());
        let set = self.log.tour(&members, &delays)?;
        Ok(LineReason::Clique { set, from, to })
    }
}
