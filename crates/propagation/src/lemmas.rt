//! The store of lemmas: clauses of literals, of which one holds. The first two literals of each are watched.

use crate::literal::{Literal, NEVER};
use crate::reason::{Conflict, Reason, Stop};
use crate::trail::Trail;
use instance::{Result, Table, narrow};
use std::alloc::{AllocError, Global};
use std::cmp::Reverse;
use std::mem;

/// What is known of a lemma whose literals stand at a place.
#[derive(Clone, Copy, Default)]
struct LemmaHeader {
    place: u32,
    /// How many levels its literals were of when it was learnt (the LBD of Audemard and Simon 2009).
    lbd: u32,
    /// Its number in the log of the proof.
    number: u32,
    activity: u64,
}

/// A lemma is watched; where the other literal holds, it does.
#[derive(Clone, Copy)]
struct Watch {
    place: u32,
    other: Literal,
}

/// A value of a slot that is watched, and the list of its watches.
#[derive(Clone, Copy, Default)]
struct Watched {
    value: i32,
    list: u32,
}

/// What is found of a watch whose literal is false now.
enum WatchMove {
    Stays,
    Moves,
    /// All literals are false but this one.
    Leaves(Literal),
}

/// Lemmas of so few levels stay.
const SMALL: u32 = 2;

/// What a use adds to a lemma's activity: at first, at most, and by how much all activities fall then.
const FIRST_BUMP: u64 = 1_000_000;

const LAST_BUMP: u64 = 1_000_000_000_000_000;

const SCALE: u64 = 1_000_000_000;

/// The lemmas that were learnt and are kept.
///
/// All literals stand in one list. Before those of a lemma stands a header: its length and the number of its head.
#[derive(Drop)]
pub struct Lemmas {
    alloc: Global,
    literals: Table<Literal>,
    heads: Table<LemmaHeader>,
    /// By slot: the values that are watched, rising.
    watched: Vec<Vec<Watched>>,
    lists: Vec<Vec<Watch>>,
    /// Lists that are not in use.
    spare: Vec<u32>,
    bump: u64,
}

impl Lemmas {
    /// No lemmas, over so many slots.
    pub fn new(alloc: Global, slots: u32) -> Result<Lemmas> {
        let mut watched = Vec::with_capacity(alloc, slots as usize)?;
        for _ in 0..slots {
            watched.push(Vec::new(alloc))?;
        }
        Ok(Lemmas {
            alloc,
            literals: Table::new(alloc, NEVER),
            heads: Table::new(alloc, LemmaHeader::default()),
            watched,
            lists: Vec::new(alloc),
            spare: Vec::new(alloc),
            bump: FIRST_BUMP,
        })
    }

    /// How many bytes lemmas and their watches take.
    pub fn bytes(&self) -> u64 {
        let literals = u64::from(self.literals.count()).wrapping_mul(8);
        literals.wrapping_add(u64::from(self.heads.count()).wrapping_mul(80))
    }

    /// The places of the literals of the lemma at a place.
    fn places(&self, place: u32) -> (u32, u32) {
        let from = place.wrapping_add(1);
        (from, from.wrapping_add(self.literals[place].slot))
    }

    /// The number of the head of the lemma at a place.
    fn head(&self, place: u32) -> u32 {
        self.literals[place].value.cast_unsigned()
    }

    /// The literals of the lemma at a place. The first is the one that it made hold.
    pub fn literals(&self, place: u32) -> &[Literal] {
        literals_at(&self.literals, place)
    }

    /// The number in the log of the lemma at a place.
    pub fn number(&self, place: u32) -> u32 {
        self.heads[self.head(place)].number
    }

    /// A list that is not in use.
    fn new_list(&mut self) -> Result<u32> {
        if let Some(list) = self.spare.pop() {
            return Ok(list);
        }
        self.lists.push(Vec::new(self.alloc))?;
        Ok(narrow(self.lists.len().wrapping_sub(1)))
    }

    /// The list of the watches of a literal.
    fn list_of(&mut self, literal: Literal) -> Result<u32> {
        let Literal { slot, value } = literal;
        let Some(values) = self.watched.get(slot as usize) else {
            return Ok(u32::MAX);
        };
        let at = values.partition_point(|known: &Watched| known.value < value);
        if let Some(known) = values.get(at) {
            if known.value == value {
                return Ok(known.list);
            }
        }
        let list = self.new_list()?;
        if let Some(values) = self.watched.get_mut(slot as usize) {
            if at <= values.len() && values.insert(at, Watched { value, list }).is_err() {
                return Err(AllocError);
            }
        }
        Ok(list)
    }

    /// The lemma at a place is to be looked at once a literal gets false, unless the other one holds.
    fn watch(&mut self, literal: Literal, place: u32, other: Literal) -> Result<()> {
        let list = self.list_of(!literal)?;
        if let Some(watches) = self.lists.get_mut(list as usize) {
            watches.push(Watch { place, other })?;
        }
        Ok(())
    }

    /// A lemma of two literals or more, of so many levels, with its number in the log. The first literal is to hold next,
    /// the second is of the level that was gone back to. Gives the lemma's place.
    pub fn learn(&mut self, literals: &[Literal], lbd: u32, number: u32) -> Result<u32> {
        let activity = self.bump;
        let head = LemmaHeader {
            place: 0,
            lbd,
            number,
            activity,
        };
        self.add(literals, head)
    }

    /// Adds a lemma at the end. Gives its place.
    fn add(&mut self, literals: &[Literal], head: LemmaHeader) -> Result<u32> {
        let place = self.literals.count();
        let (slot, value) = (narrow(literals.len()), self.heads.count().cast_signed());
        self.literals.push(Literal { slot, value })?;
        self.literals.items.extend_from_slice(literals)?;
        self.heads.push(LemmaHeader { place, ..head })?;
        let first = self.literals[place.wrapping_add(1)];
        let other = self.literals[place.wrapping_add(2)];
        self.watch(first, place, other)?;
        self.watch(other, place, first)?;
        Ok(place)
    }

    /// Finds another literal to watch for one that got false.
    #[inline(always)]
    fn look_at(&mut self, trail: &Trail, bad: Literal, watch: &mut Watch) -> Result<WatchMove> {
        let (from, to) = self.places(watch.place);
        let literals = self.literals.part_mut(from, to);
        if literals.len() < 2 {
            return Ok(WatchMove::Stays);
        }
        if literals[0] == bad {
            literals.swap(0, 1);
        }
        let first = literals[0];
        let was = mem::replace(&mut watch.other, first);
        if first != was && trail.holds(first) {
            return Ok(WatchMove::Stays);
        }
        let (watched, others) = literals.split_at_mut(2);
        for literal in others {
            if !trail.fails(*literal) {
                let found = mem::replace(literal, watched[1]);
                watched[1] = found;
                self.watch(found, watch.place, first)?;
                return Ok(WatchMove::Moves);
            }
        }
        Ok(WatchMove::Leaves(first))
    }

    /// Makes the literal hold that a lemma leaves.
    #[inline(always)]
    fn force(trail: &mut Trail, place: u32, left: Literal) -> Result<(), Stop> {
        if trail.fails(left) {
            return Err(Stop::Conflict(Conflict::Lemma { place }));
        }
        trail.force(left, Reason::Lemma { place })
    }

    /// Looks at the watches of a literal that got false.
    #[inline(never)]
    fn visit(&mut self, trail: &mut Trail, bad: Literal, list: u32) -> Result<(), Stop> {
        let mut watches = Vec::new(self.alloc);
        if let Some(found) = self.lists.get_mut(list as usize) {
            watches = mem::replace(found, watches);
        }
        let (mut kept, mut flow) = (0usize, Ok(()));
        for at in 0..watches.len() {
            let mut watch = watches[at];
            if flow.is_ok() && !trail.holds(watch.other) {
                match self.look_at(trail, bad, &mut watch)? {
                    WatchMove::Moves => continue,
                    WatchMove::Stays => {}
                    WatchMove::Leaves(left) => flow = Lemmas::force(trail, watch.place, left),
                }
            }
            if kept < watches.len() {
                watches[kept] = watch;
            }
            kept = kept.wrapping_add(1);
        }
        watches.truncate(kept);
        if let Some(found) = self.lists.get_mut(list as usize) {
            *found = watches;
        }
        flow
    }

    /// What is watched of a slot from a place on, up to a value.
    #[inline(always)]
    fn watched_at(&self, slot: u32, at: usize, most: i32) -> Option<Watched> {
        let found = self.watched.get(slot as usize)?.get(at)?;
        (found.value <= most).then_some(*found)
    }

    /// Takes a list away that is empty. Whether it was.
    #[inline(always)]
    fn drop_empty(&mut self, slot: u32, at: usize, list: u32) -> Result<bool> {
        let watches = self.lists.get(list as usize);
        if !watches.is_some_and(|watches| watches.is_empty()) {
            return Ok(false);
        }
        if let Some(values) = self.watched.get_mut(slot as usize) {
            if at < values.len() {
                values.remove(at);
            }
        }
        self.spare.push(list)?;
        Ok(true)
    }

    /// A slot rose from a value to another: what follows by the lemmas that watch the values between.
    #[inline(always)]
    pub fn follow(&mut self, trail: &mut Trail, slot: u32, old: i32, new: i32) -> Result<(), Stop> {
        let Some(values) = self.watched.get(slot as usize) else {
            return Ok(());
        };
        let mut at = values.partition_point(|known: &Watched| known.value <= old);
        for _ in 0..u64::MAX {
            let Some(Watched { value, list }) = self.watched_at(slot, at, new) else {
                break;
            };
            self.visit(trail, !Literal { slot, value }, list)?;
            if !self.drop_empty(slot, at, list)? {
                at = at.wrapping_add(1);
            }
        }
        Ok(())
    }

    /// An analysis has used the lemma at a place.
    pub fn touch(&mut self, place: u32) {
        let (at, bump) = (self.head(place), self.bump);
        let head = &mut self.heads[at];
        head.activity = head.activity.wrapping_add(bump);
    }

    /// Uses from now on count for more.
    pub fn age(&mut self) {
        self.bump = self.bump.wrapping_add(self.bump / 1_000);
        if self.bump > LAST_BUMP {
            for head in &mut self.heads.items {
                head.activity = head.activity / SCALE;
            }
            self.bump = self.bump / SCALE;
        }
    }

    /// Which lemmas go, by their heads: half of those that did little, and all that hold always.
    fn going(&self, trail: &Trail) -> Result<Table<bool>> {
        let mut goes = Table::new(self.alloc, false);
        let mut others = Vec::new(self.alloc);
        for head in &self.heads.items {
            let literals = self.literals(head.place);
            let holds = literals.iter().any(|literal| trail.holds(*literal));
            if !holds && head.lbd > SMALL && literals.len() > 2 {
                others.push((head.lbd, Reverse(head.activity), goes.count()))?;
            }
            goes.push(holds)?;
        }
        others.sort_unstable();
        for (_, _, at) in others.iter().skip(others.len() / 2) {
            goes[*at] = true;
        }
        Ok(goes)
    }

    /// Forgets half of the lemmas that did little, and all that hold always. At the root only, where none is a reason
    /// and all that follows is there. Gives the numbers of those that go.
    pub fn reduce(&mut self, trail: &Trail) -> Result<Vec<u32>> {
        let goes = self.going(trail)?;
        let literals = mem::replace(&mut self.literals, Table::new(self.alloc, NEVER));
        let none = LemmaHeader::default();
        let heads = mem::replace(&mut self.heads, Table::new(self.alloc, none));
        self.unwatch_all()?;
        self.take_rest(&literals, &heads.items, &goes.items, trail)
    }

    /// No literal is watched. The lists keep their places.
    fn unwatch_all(&mut self) -> Result<()> {
        for values in &mut self.watched {
            values.clear();
        }
        self.spare.clear();
        for (number, list) in (0..u32::MAX).zip(&mut self.lists) {
            list.clear();
            self.spare.push(number)?;
        }
        Ok(())
    }

    /// Takes those of old lemmas that don't go, without the literals that fail. Gives the numbers of those that go.
    fn take_rest(
        &mut self,
        old: &Table<Literal>,
        heads: &[LemmaHeader],
        goes: &[bool],
        trail: &Trail,
    ) -> Result<Vec<u32>> {
        let (mut gone, mut open) = (Vec::new(self.alloc), Vec::new(self.alloc));
        for (head, goes) in heads.iter().zip(goes) {
            if *goes {
                gone.push(head.number)?;
                continue;
            }
            open.clear();
            for literal in literals_at(old, head.place) {
                if !trail.fails(*literal) {
                    open.push(*literal)?;
                }
            }
            if open.len() > 1 {
                self.add(&open, *head)?;
            }
        }
        Ok(gone)
    }
}

/// The literals of the lemma at a place.
#[inline(always)]
fn literals_at(literals: &Table<Literal>, place: u32) -> &[Literal] {
    let from = place.wrapping_add(1);
    literals.part(from, from.wrapping_add(literals[place].slot))
}
