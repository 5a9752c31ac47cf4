//! Cliques: activities of which each two are rivals, over whatever resources, or in an order by lags. They run one at a
//! time. So their work must fit between a least start and a greatest end, and the work of those before (after) one
//! pushes its least (greatest) start.

use crate::clique_changes::{ANY_RISE, CliqueChanges, NO_CHANGE, NO_RISES, Rises, Set, Side, bit};
use crate::edges::Edges;
use crate::group_orders::GroupOrders;
use crate::pay::Pay;
use crate::windows::{Window, overload, reached, renew_all};
use crate::{BoundChange, Conflict, Literal, NEVER, Reason, Stop, Trail};
use instance::{Instance, Machine, Member, Result, Rows, Table, narrow};
use std::mem;

/// The most members of a clique that is looked at everywhere.
const MOST: usize = 64;

/// The squares of the cliques' sizes up to which they are looked at everywhere.
const WORK: u64 = 20_000;

/// A clique, and a place in it.
#[derive(Clone, Copy, Default)]
struct Seat {
    clique: u32,
    place: u32,
}

/// A clique, and the places of two members, of which one runs before the other.
#[derive(Clone, Copy, Default)]
pub struct Seats {
    pub clique: u32,
    pub one: u32,
    pub other: u32,
}

/// The cliques of a search.
#[derive(Drop)]
pub struct Cliques<'a> {
    instance: &'a Instance,
    /// The windows of each clique's members, as they went when it was looked at last; and the same with time turned round.
    pub(crate) windows: Rows<Window>,
    pub(crate) turned: Rows<Window>,
    /// So many cliques are looked at everywhere. Those after them are so at the root and below a supposed end alone.
    short: u32,
    pub members: Rows<Member>,
    /// The clique of intervals of groups, if there is one, and the orders of these.
    machine: Option<(u32, GroupOrders)>,
    /// By all members, clique after clique: the places of those that are known to run before it, and after it.
    pub(crate) before: Table<Set>,
    pub(crate) after: Table<Set>,
    /// By clique. Where there are news, it is in `todo`.
    news: Table<CliqueChanges>,
    todo: Vec<u32>,
    /// By clique: which times rose since edges were looked for. Where some did, it is in `later`.
    pub(crate) rises: Table<Rises>,
    pub(crate) later: Vec<u32>,
    /// By clique: whether to look for edges.
    pub(crate) pays: Table<Pay>,
    /// By activity, and by the slot of a pair, which says its order.
    seats: Rows<Seat>,
    pairs: Rows<Seats>,
    /// Events before this one are noticed.
    queue: u32,
}

/// How many members a clique may have that is looked at everywhere.
fn most_members(found: &Rows<u32>) -> usize {
    let mut work = 0u64;
    for clique in 0..found.count() {
        let size = found.row(clique).len().min(MOST) as u64;
        work = work.wrapping_add(size.wrapping_mul(size));
    }
    if work <= WORK { MOST } else { 0 }
}

/// Adds the cliques that have so many members.
fn add_all(
    members: &mut Rows<Member>,
    instance: &Instance,
    found: &Rows<u32>,
    least: usize,
    most: usize,
) -> Result<()> {
    for clique in 0..found.count() {
        let row = found.row(clique);
        if least <= row.len() && row.len() <= most {
            for activity in row {
                members.values.push(Member::of(instance, *activity))?;
            }
            members.close()?;
        }
    }
    Ok(())
}

/// The cliques that are looked at everywhere, of which a machine is the last, and then the long ones. Gives how many the
/// first are.
fn parted(
    instance: &Instance,
    found: &Rows<u32>,
    machine: Option<&Machine>,
) -> Result<(Rows<Member>, u32)> {
    let (most, none) = (most_members(found), Member::default());
    let mut members = Rows::new(instance.alloc, none);
    add_all(&mut members, instance, found, 0, most)?;
    if let Some(machine) = machine {
        members.push_row(&machine.members)?;
    }
    let count = members.count();
    add_all(
        &mut members,
        instance,
        found,
        most.saturating_add(1),
        usize::MAX,
    )?;
    Ok((members, count))
}

impl<'a> Cliques<'a> {
    /// Cliques of given members, which rise, and that of a machine's intervals.
    pub fn new(
        instance: &'a Instance,
        edges: &Edges,
        found: &Rows<u32>,
        machine: Option<&Machine>,
    ) -> Result<Cliques<'a>> {
        let (alloc, (members, short)) = (instance.alloc, parted(instance, found, machine)?);
        let orders = match machine {
            Some(machine) => Some(GroupOrders::new(instance, edges, machine)?),
            None => None,
        };
        let mut cliques = Cliques {
            instance,
            windows: Rows::new(alloc, Window::default()),
            turned: Rows::new(alloc, Window::default()),
            short,
            members,
            machine: orders.map(|orders: GroupOrders| (short.wrapping_sub(1), orders)),
            before: Table::new(alloc, 0),
            after: Table::new(alloc, 0),
            news: Table::new(alloc, NO_CHANGE),
            todo: Vec::new(alloc),
            rises: Table::new(alloc, NO_RISES),
            later: Vec::new(alloc),
            pays: Table::new(alloc, Pay::new()),
            seats: Rows::new(alloc, Seat::default()),
            pairs: Rows::new(alloc, Seats::default()),
            queue: 0,
        };
        cliques.make_places(edges)?;
        Ok(cliques)
    }

    /// Makes a place for each member and each clique, and fills them.
    fn make_places(&mut self, edges: &Edges) -> Result<()> {
        let (all, count) = (
            self.members.values.items.len(),
            self.members.count() as usize,
        );
        self.before.fill(all, 0)?;
        self.after.fill(all, 0)?;
        self.news.fill(count, NO_CHANGE)?;
        self.rises.fill(count, NO_RISES)?;
        self.pays.fill(count, Pay::new())?;
        self.seat_all()?;
        self.relate_all(edges)
    }

    /// Lists the windows of a clique's members, and adds their places to those of activities.
    fn seat(&mut self, clique: u32, seats: &mut Vec<(u32, Seat)>) -> Result<()> {
        for (place, member) in (0..u32::MAX).zip(self.members.row(clique)) {
            let Member {
                activity,
                at,
                length,
            } = *member;
            let window = Window {
                duration: length,
                activity,
                at,
                place,
                ..Window::default()
            };
            self.windows.values.push(window)?;
            self.turned.values.push(window)?;
            if clique < self.short {
                seats.push((activity, Seat { clique, place }))?;
            }
        }
        self.windows.close()?;
        self.turned.close()
    }

    /// Lists the windows of all members, and the cliques of each activity. All are to be looked at.
    fn seat_all(&mut self) -> Result<()> {
        let mut seats = Vec::new(self.instance.alloc);
        for clique in 0..self.members.count() {
            self.seat(clique, &mut seats)?;
            if clique < self.short {
                let count = narrow(self.members.row(clique).len());
                let all = Set::MAX.wrapping_shr(64u32.wrapping_sub(count));
                let news = self.note(clique)?;
                (news.least, news.greatest) = (Side::all(all), Side::all(all));
            }
        }
        self.seats = Rows::by_row(self.instance.alloc, seats, Seat::default())?;
        Ok(())
    }

    /// Finds how the members of each clique stand to each other: in an order by lags, or in one that a literal says.
    fn relate_all(&mut self, edges: &Edges) -> Result<()> {
        let mut pairs = Vec::new(self.instance.alloc);
        for clique in 0..self.short {
            let count = narrow(self.members.row(clique).len()).max(1);
            for at in 0..count.wrapping_mul(count) {
                let (one, other) = (at / count, at % count);
                match self.precedence(edges, clique, one, other) {
                    None => self.turn(clique, one, other),
                    Some(NEVER) => {}
                    Some(order) => pairs.push((order.slot, Seats { clique, one, other }))?,
                }
            }
        }
        self.pairs = Rows::by_row(self.instance.alloc, pairs, Seats::default())?;
        Ok(())
    }

    /// Where the bits of a place of a clique stand.
    pub(crate) fn at(&self, clique: u32, place: u32) -> u32 {
        self.members.numbers(clique).start.wrapping_add(place)
    }

    /// The member at a place.
    pub fn member(&self, clique: u32, place: u32) -> Member {
        self.members.values[self.at(clique, place)]
    }

    /// The literal by which one member ends before another one begins; none if it does so by lags.
    pub fn precedence(&self, edges: &Edges, clique: u32, one: u32, other: u32) -> Option<Literal> {
        match &self.machine {
            Some((machine, orders)) if *machine == clique => {
                return Some(orders.before(one, other));
            }
            _ => {}
        }
        let (a, b) = (self.member(clique, one), self.member(clique, other));
        edges.precedence(a.activity, b.activity)
    }

    /// Whether a clique is that of a machine's intervals.
    pub fn has_intervals(&self, clique: u32) -> bool {
        self.machine
            .as_ref()
            .is_some_and(|machine| machine.0 == clique)
    }

    /// By cliques that are looked at everywhere: the places of two members of which the literal of a slot says that the
    /// first runs before the second.
    pub fn ordered_by(&self, slot: u32) -> &[Seats] {
        self.pairs.row(slot)
    }

    /// The place of an activity's member in a clique that is looked at everywhere.
    pub fn place_of(&self, clique: u32, activity: u32) -> u32 {
        let mut seats = self.seats.row(activity).iter();
        seats
            .find(|seat| seat.clique == clique)
            .map_or(0, |seat| seat.place)
    }

    /// It gets known that one member runs before another one, or, where it was, unknown.
    fn turn(&mut self, clique: u32, first: u32, second: u32) {
        let (from, to) = (self.at(clique, first), self.at(clique, second));
        self.after[from] ^= bit(second);
        self.before[to] ^= bit(first);
    }

    /// Something changed in a clique, which is to be looked at. Gives what is noted of it.
    #[inline(always)]
    fn note(&mut self, clique: u32) -> Result<&mut CliqueChanges> {
        let news = &mut self.news[clique];
        if !news.is_noted {
            news.is_noted = true;
            self.todo.push(clique)?;
        }
        Ok(news)
    }

    /// A bound of an activity moved.
    #[inline(always)]
    fn notice_bound(&mut self, event: &BoundChange) -> Result<()> {
        let (activity, is_least) = (event.slot / 2, event.slot % 2 == 0);
        for number in self.seats.numbers(activity) {
            let Seat { clique, place } = self.seats.values[number];
            let at = self.at(clique, place);
            let beside = if is_least {
                self.after[at]
            } else {
                self.before[at]
            };
            let Member { at, length, .. } = self.member(clique, place);
            let news = self.note(clique)?;
            if is_least {
                news.least.note(
                    beside,
                    event.old.wrapping_add(at),
                    event.new.wrapping_add(at),
                );
            } else {
                let back = at.wrapping_add(length);
                let (old, new) = (event.old.wrapping_sub(back), event.new.wrapping_sub(back));
                news.greatest.note(beside, old, new);
            }
        }
        Ok(())
    }

    /// A pair got an order, by a slot.
    fn notice_order(&mut self, slot: u32) -> Result<()> {
        for number in self.pairs.numbers(slot) {
            let Seats { clique, one, other } = self.pairs.values[number];
            self.turn(clique, one, other);
            let news = self.note(clique)?;
            news.least.ordered |= bit(other);
            news.greatest.ordered |= bit(one);
        }
        Ok(())
    }

    /// The last event of the trail is taken back.
    pub fn forget(&mut self, trail: &Trail, event: &BoundChange) {
        if event.slot / 2 < self.instance.count() || trail.count() >= self.queue {
            return;
        }
        for number in self.pairs.numbers(event.slot) {
            let Seats { clique, one, other } = self.pairs.values[number];
            self.turn(clique, one, other);
        }
    }

    /// Members of a clique that run before the first of two run before the second, and those after the second after the
    /// first.
    fn close(&self, trail: &mut Trail, edges: &Edges, seats: Seats) -> Result<(), Stop> {
        let Seats { clique, one, other } = seats;
        let (at_one, at_other) = (self.at(clique, one), self.at(clique, other));
        let before = self.before[at_one] & !self.before[at_other];
        let after = self.after[at_other] & !self.after[at_one];
        let mut left = before | after;
        for _ in 0..left.count_ones() {
            let place = left.trailing_zeros();
            left = left & left.wrapping_sub(1);
            let is_before = before & bit(place) != 0;
            let (first, via, second) = match is_before {
                true => (place, one, other),
                false => (one, other, place),
            };
            let reason = Reason::Through {
                clique,
                first,
                via,
                second,
            };
            self.force_order(trail, edges, clique, first, second, reason)?;
        }
        Ok(())
    }

    /// The orders that follow from that of a slot, as no three go round.
    fn close_all(&self, trail: &mut Trail, edges: &Edges, slot: u32) -> Result<(), Stop> {
        for number in self.pairs.numbers(slot) {
            self.close(trail, edges, self.pairs.values[number])?;
        }
        Ok(())
    }

    /// One place runs before another one. Where lags say that it can't, bounds will tell once they have followed.
    pub(crate) fn force_order(
        &self,
        trail: &mut Trail,
        edges: &Edges,
        clique: u32,
        first: u32,
        second: u32,
        reason: Reason,
    ) -> Result<(), Stop> {
        match self.precedence(edges, clique, first, second) {
            None | Some(NEVER) => Ok(()),
            Some(order) => trail.force(order, reason),
        }
    }

    /// The trail went back to so many events. Nothing was left to look at then.
    pub fn go_back(&mut self, queue: u32) {
        for clique in &self.todo {
            self.news[*clique] = NO_CHANGE;
        }
        self.todo.clear();
        for clique in &self.later {
            self.rises[*clique] = NO_RISES;
        }
        self.later.clear();
        self.queue = self.queue.min(queue);
    }

    /// Takes notice of all events, those that follow from orders too.
    fn catch_up(&mut self, trail: &mut Trail, edges: &Edges) -> Result<(), Stop> {
        for _ in 0..u64::MAX {
            if self.queue >= trail.count() {
                break;
            }
            let event = trail.event(self.queue);
            self.queue = self.queue.wrapping_add(1);
            if event.slot / 2 < self.instance.count() {
                self.notice_bound(&event)?;
            } else {
                self.notice_order(event.slot)?;
                self.close_all(trail, edges, event.slot)?;
            }
        }
        Ok(())
    }

    /// What follows of all that changed. Windows also show what moved since it was noticed.
    pub fn run(&mut self, trail: &mut Trail, edges: &Edges) -> Result<(), Stop> {
        self.catch_up(trail, edges)?;
        for _ in 0..u64::MAX {
            let Some(clique) = self.todo.pop() else {
                break;
            };
            let news = mem::replace(&mut self.news[clique], NO_CHANGE);
            self.look_at(trail, clique, news)?;
        }
        Ok(())
    }

    /// The windows of a clique are as they are now.
    fn renew(&mut self, trail: &Trail, clique: u32) {
        renew_all(self.windows.row_mut(clique), trail, false);
        renew_all(self.turned.row_mut(clique), trail, true);
    }

    /// A conflict where the windows of a clique are overloaded from where least starts rose, or up to where greatest ends
    /// fell.
    fn find_overload(&self, clique: u32, rises: Rises) -> Result<(), Stop> {
        let (windows, turned) = (self.windows.row(clique), self.turned.row(clique));
        if let Some((from, to)) = overload(windows, turned, rises.least) {
            return Err(Stop::Conflict(Conflict::Clique { clique, from, to }));
        }
        match overload(turned, windows, rises.greatest) {
            Some((end, begin)) => {
                let (from, to) = (begin.wrapping_neg(), end.wrapping_neg());
                Err(Stop::Conflict(Conflict::Clique { clique, from, to }))
            }
            None => Ok(()),
        }
    }

    /// Looks for overloads of the long cliques.
    pub fn find_overloads(&mut self, trail: &Trail) -> Result<(), Stop> {
        let (least, greatest) = (ANY_RISE, NO_RISES.greatest);
        for clique in self.short..self.members.count() {
            self.renew(trail, clique);
            self.find_overload(clique, Rises { least, greatest })?;
        }
        Ok(())
    }

    /// Edges of a clique are to be looked for where times rose.
    fn note_rises(&mut self, clique: u32, new: Rises) -> Result<()> {
        let Rises { least, greatest } = self.rises[clique];
        let is_noted = least.is_some() || greatest.is_some();
        if !is_noted && (new.least.is_some() || new.greatest.is_some()) {
            self.later.push(clique)?;
        }
        self.rises[clique] = Rises {
            least: least.with(new.least),
            greatest: greatest.with(new.greatest),
        };
        Ok(())
    }

    /// Looks at what changed in a clique.
    fn look_at(&mut self, trail: &mut Trail, clique: u32, news: CliqueChanges) -> Result<(), Stop> {
        let CliqueChanges {
            least,
            greatest,
            ..
        } = news;
        let rises = Rises {
            least: least.rise,
            greatest: greatest.rise,
        };
        self.renew(trail, clique);
        self.find_overload(clique, rises)?;
        self.note_rises(clique, rises)?;
        self.push_all(trail, clique, least, true)?;
        self.push_all(trail, clique, greatest, false)
    }

    /// The least start of a member, or with time turned round its greatest end.
    #[inline(always)]
    fn bound(&self, trail: &Trail, clique: u32, place: u32, is_least: bool) -> i32 {
        let Member {
            activity,
            at,
            length,
        } = self.member(clique, place);
        if is_least {
            return trail.least(activity).wrapping_add(at);
        }
        let end = trail.greatest(activity).wrapping_add(at);
        end.wrapping_add(length).wrapping_neg()
    }

    /// When those before a member, seen from the latest on, are done at least; or those after it, seen from the earliest on:
    /// the same with time turned round. Only those above a time are looked at.
    #[inline(always)]
    fn reach(&self, clique: u32, place: u32, is_least: bool, bound: i32, above: i32) -> (i32, i32) {
        let at = self.at(clique, place);
        if is_least {
            reached(self.windows.row(clique), self.before[at], bound, above)
        } else {
            reached(self.turned.row(clique), self.after[at], bound, above)
        }
    }

    /// Looks at the bounds of some members. Where only times rose, nothing changed up to where they did.
    fn push_all(
        &self,
        trail: &mut Trail,
        clique: u32,
        side: Side,
        is_least: bool,
    ) -> Result<(), Stop> {
        let mut left = side.ordered | side.beside;
        for _ in 0..left.count_ones() {
            let place = left.trailing_zeros();
            left = left & left.wrapping_sub(1);
            let is_ordered = side.ordered & bit(place) != 0;
            let above = if is_ordered { i32::MIN } else { side.rise.old };
            self.push(trail, clique, place, above, is_least)?;
        }
        Ok(())
    }

    /// Those before a member are done when it starts, and those after it start when it has ended. Only times above one
    /// are looked at.
    #[inline(always)]
    fn push(
        &self,
        trail: &mut Trail,
        clique: u32,
        place: u32,
        above: i32,
        is_least: bool,
    ) -> Result<(), Stop> {
        let bound = self.bound(trail, clique, place, is_least);
        let (reached, time) = self.reach(clique, place, is_least, bound, above);
        if reached == bound {
            return Ok(());
        }
        let Member {
            activity,
            at,
            length,
        } = self.member(clique, place);
        if is_least {
            let reason = Reason::Pushed { clique, time };
            let least = reached.wrapping_sub(at);
            return trail.force(Literal::at_least(activity, least), reason);
        }
        let time = time.wrapping_neg();
        let latest = reached.wrapping_neg().wrapping_sub(length).wrapping_sub(at);
        let reason = Reason::Pushed { clique, time };
        trail.force(Literal::at_most(activity, latest), reason)
    }
}
