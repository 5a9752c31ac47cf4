//! What the lines of a lemma are checked against.

ghost use Rattle.std.specs.Prelude.{◌≡◌, ◌↔◌, ◌∷◌, ◌<◌, [], ℕ, Some, slice_set, drop, take, length, IsTrue, IfOk, IfSome, OnOk, OnErr, MatchOption};
ghost use Rattle.std.specs.List.{All};
ghost use Rattle.network.specs.Problem.{IsWithin, activity_count, end_of};
ghost use Rattle.network.specs.declared.limits.TheConstants.{MAX_WALK_WEIGHT};
ghost use Rattle.network.specs.Walk.{HasNoPositiveCycle, HasPositiveCycle, IsGreatestWeight};
ghost use Rattle.lemma_proof.specs.Heads.{IsLight};
ghost use Rattle.lemma_proof.specs.Lines.{IsArc, IsIn, IsRefuted, picked};
ghost use Rattle.lemma_book.specs.declared.ledger.TheConstants.{MAX_SLOTS};
ghost use Rattle.lemma_proof.specs.Slots.{HaveDelays, IsFilled, IsSmall, with_slot};
ghost use Rattle.lemma_book.specs.Ledger.{HasRoom, IsFree};
ghost use Rattle.lemma_book.specs.Premises.{Empties, Follows, first_premises, root_arcs, with_roots};

use crate::deadline::first_root;
use crate::ledger::MAX_SLOTS;
use lemma_proof::{Bench, Interval, Lags, LemmaSlots, Line, are_arcs};
use network::{Lag, Project};
use std::alloc::{AllocError, Global};
use std::marker::Model;

/// The root's arcs, and lemmas, against which lines are checked. Nothing is said of whether they are true of the project:
/// those of a [`Ledger`](crate::Ledger) are.
#[derive(Drop)]
pub struct Premises<'a> {
    alloc: Global,
    project: &'a Project,
    /// The root's arcs beside the project's rules, in the order in which they came.
    roots: Vec<Lag>,
    /// The matrix of the root's arcs. None where they close a walk of positive weight.
    bench: Option<Bench>,
    lemmas: LemmaSlots,
}

impl<'a> Model for Premises<'a> {
    ghost use Rattle.lemma_book.specs.Premises.{ArePremises, PremisesOf, premises_of};

    ghost Value = { PremisesOf };

    ghost view = { λ s. premises_of s.project.now s.roots.items s.lemmas };

    ghost invariant = { λ s. ArePremises (premises_of s.project.now s.roots.items s.lemmas) s.bench };
}

/// Whether a slot is one of the limit, and empty.
fn is_free(lemmas: &LemmaSlots, slot: usize) -> bool
    ensures { IsTrue result ↔ IsFree lemmas.now slot }
{
    slot < MAX_SLOTS && !lemmas.is_filled(slot)
}

/// Whether a lemma of these arcs has the slot that it needs.
fn has_room(lemmas: &LemmaSlots, slot: usize, arcs: &[Lag]) -> bool
    ensures { IsTrue result ↔ HasRoom lemmas.now slot arcs.now }
{
    match arcs {
        [] => true,
        [_] => true,
        _ => is_free(lemmas, slot),
    }
}

/// The arcs that come after so many.
fn beyond(arcs: &[Lag], count: usize) -> &[Lag]
    ensures { result.now ≡ drop count arcs.now }
{
    if count < arcs.len() {
        &arcs[count..]
    } else {
        &[]
    }
}

impl<'a> Premises<'a> {
    /// Those of a ledger of which nothing is proved.
    pub fn new(alloc: Global, project: &'a Project) -> Result<Premises<'a>, AllocError>
        ensures { IfOk result (λ x. x ≡ first_premises project.now) }
    {
        let (roots, bench) = first_root(alloc, project)?;
        Ok(Premises {
            alloc,
            project,
            roots,
            bench,
            lemmas: LemmaSlots::new(alloc),
        })
    }

    /// The project whose rules are among the root's arcs.
    pub fn project(&self) -> &Project
        ensures { result.now ≡ self.now.project }
    {
        self.project
    }

    /// The root's arcs beside the project's rules, in the order in which they came.
    pub fn roots(&self) -> &[Lag]
        ensures { result.now ≡ self.now.roots }
    {
        self.roots.as_slice()
    }

    /// The arcs of the lemma in a slot, if there is one.
    pub fn lemma_in(&self, slot: usize) -> Option<&[Lag]>
        ensures { MatchOption result (¬ IsFilled self.now.lemmas slot) (λ arcs. IsIn self.now.lemmas slot arcs.now) }
    {
        self.lemmas.lemma_in(slot)
    }

    /// Whether the lemma of some slot says delays by which two intervals have no time in common.
    pub fn has_delays(&self, one: Interval, other: Interval) -> bool
        requires one { IsSmall one }
        requires other { IsSmall other }
        ensures { IsTrue result ↔ HaveDelays self.now.lemmas one other }
    {
        self.lemmas.has_delays(one, other)
    }

    /// Whether a lemma of these arcs has the slot that it needs: one of two arcs and more an empty one.
    pub fn has_room(&self, slot: usize, arcs: &[Lag]) -> bool
        ensures { IsTrue result ↔ HasRoom self.now.lemmas slot arcs.now }
    {
        has_room(&self.lemmas, slot, arcs)
    }

    /// The places of the lines that show something new, if the lines refute these arcs beside the premises.
    pub fn refute(&mut self, arcs: &[Lag], lines: &[Line]) -> Result<Option<Vec<usize>>, AllocError>
        ensures same { self.new ≡ self.old }
        ensures refuted { IfOk result (λ found. MatchOption found
            (¬ IsRefuted self.old.project self.old.lemmas (root_arcs self.old) arcs.now lines.now)
            (λ used. IsRefuted self.old.project self.old.lemmas (root_arcs self.old) arcs.now lines.now
            × IsRefuted self.old.project self.old.lemmas (root_arcs self.old) arcs.now (picked lines.now used.items))) }
    {
        let Some(bench) = &mut self.bench else {
            if are_arcs(self.project, arcs) {
                return Ok(Some(Vec::new(self.alloc)));
            }
            return Ok(None);
        };
        bench.refute(self.alloc, self.project, &self.lemmas, arcs, lines)
    }

    /// Adds an arc to the root's.
    pub fn add_root(&mut self, arc: Lag) -> Result<(), AllocError>
        requires { IsLight (activity_count self.old.project) arc }
        ensures added { OnOk result (self.new ≡ with_roots self.old (arc ∷ [])) }
        ensures unchanged { OnErr result (self.new ≡ self.old) }
    {
        self.roots.push(arc)?;
        let Some(bench) = &mut self.bench else {
            return Ok(());
        };
        match bench.add_root(arc) {
            Ok(false) => Ok(()),
            Ok(true) => {
                self.bench = None;
                Ok(())
            }
            Err(e) => {
                self.roots.pop();
                Err(e)
            }
        }
    }

    /// Adds arcs to the root's, as many as there is memory for.
    fn add_roots(&mut self, arcs: &[Lag]) -> Result<(), AllocError>
        requires { All (IsLight (activity_count self.old.project)) arcs.now }
        ensures added { OnOk result (self.new ≡ with_roots self.old arcs.now) }
        ensures some { OnErr result ((count : ℕ) × (self.new ≡ with_roots self.old (take count arcs.now))) }
    {
        for arc in arcs {
            self.add_root(*arc)?;
        }
        Ok(())
    }

    /// Adds those arcs to the root's that another root has beyond their count. Whether both are of one project: otherwise
    /// nothing changes. Once memory runs out, the first of them are added.
    pub fn follow(&mut self, other: &Premises<'_>) -> Result<bool, AllocError>
        ensures followed { IfOk result (λ same. Follows self.old other.now same self.new) }
        ensures some { OnErr result ((count : ℕ)
            × (self.new ≡ with_roots self.old (take count (drop (length self.old.roots) other.now.roots)))) }
    {
        if !self.project.is_same(other.project) {
            return Ok(false);
        }
        let more = beyond(other.roots(), self.roots().len());
        self.add_roots(more)?;
        Ok(true)
    }

    /// Puts a lemma into a slot.
    pub fn shelve(&mut self, slot: usize, arcs: Lags) -> Result<(), AllocError>
        requires within { slot < MAX_SLOTS }
        requires are_arcs { All (IsArc self.old.project) arcs }
        ensures filled { OnOk result (self.new ≡ record self.old {
          lemmas = slice_set (with_slot self.old.lemmas slot) slot (Some arcs);
        }) }
        ensures unchanged { OnErr result (self.new ≡ self.old) }
    {
        self.lemmas.put(slot, arcs)?;
        Ok(())
    }

    /// Lets a lemma go. Whether there is one in the slot.
    pub fn let_go(&mut self, slot: usize) -> bool
        ensures { Empties self.old slot result self.new }
    {
        self.lemmas.let_go(slot)
    }

    /// The least end by the root's arcs. None where they close a walk of positive weight.
    pub fn least_end(&self) -> Option<i64>
        ensures end { MatchOption result (HasPositiveCycle (root_arcs self.now))
            (λ least. HasNoPositiveCycle (root_arcs self.now)
            × IsGreatestWeight (root_arcs self.now) 0 (end_of self.now.project) (Some least)) }
        ensures small { IfSome result (IsWithin MAX_WALK_WEIGHT) }
    {
        let bench = self.bench.as_ref()?;
        prove!(self.project.activity_count() >= 2);
        Some(bench.weight(0, self.project.activity_count() - 1))
    }
}
