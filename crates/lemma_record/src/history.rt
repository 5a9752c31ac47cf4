//! The pieces that were taken, as a history that exists in proofs alone.

ghost use Rattle.std.specs.Prelude.{◌≡◌, ◌==◌, ◌<◌, ◌^◌, ◌++◌, ◌∷◌, [], length, IsTrue};
ghost use Rattle.lemma_record.specs.History.{head_of};

use logbook::{Gain, Offer, Plain, Play, Rule, Seen, Start, Word};
use std::marker::{Brand, Model, PhantomData};

/// The rule of the history.
pub struct Law;

impl Rule<Vec<u8>, u64> for Law {
    ghost use Rattle.std.specs.Prelude.{[]};
    ghost use base.Fml.{ftrue};
    ghost use Rattle.lemma_record.specs.History.{IsKept};

    ghost holds = { λ cells log. IsKept cells log };

    ghost first = { [] };

    ghost hinted = { λ n log. Unit {0} };

    ghost shows = { λ log. [] };

    ghost keeps = { λ names log. ftrue };

    ghost moves = { λ ask before after answer. Unit {0} };
}

/// Callers trade nothing.
pub struct Nothing;

impl Gain<Vec<u8>, u64> for Nothing {
    ghost use base.Fml.{ftrue};

    ghost after = { λ names about answer. ftrue };
}

/// A step that adds a piece.
pub struct Add;

impl Play<Vec<u8>, u64> for Add {
    ghost use Rattle.lemma_record.specs.History.{Adds};

    ghost then = { Adds };
}

/// What a step asks for: the piece.
impl Plain<Vec<u8>, Vec<u8>, u64> for Add {
    ghost use Rattle.std.specs.Prelude.{None};

    ghost ask = { λ piece. piece };

    ghost state = { λ piece. None };
}

/// Which history it is. Each call of a program picks it.
pub trait Naming {
    ghost use Rattle.logbook.specs.Pages.{Book};

    ghost book: { Book };
}

impl Naming for Brand {
    ghost book = { record { number = 0; log_name = 0; cells_name = 0 } };
}

/// An empty history, which has no name yet.
pub struct Opened {
    head: Word<Vec<u8>, u64, Law>,
    seen: Seen<Vec<u8>, u64, Law>,
    pub ghost empty: { seen.log ≡ [] },
    pub ghost head_is: { head ≡ head_of seen.book },
}

impl Opened {
    pub fn new() -> Opened {
        let (seen, mut first, _second) = Seen::open(Start::alone(), 0, 0);
        Opened {
            head: Word::tracked(0, &mut first),
            seen,
        }
    }

    /// The history's word under a name, and the front that has seen nothing.
    pub(crate) fn named<J: Naming>(self) -> (Head<J>, Front<J>)
        requires { self.seen.book ≡ J.book }
        ensures { result.1 ≡ [] }
    {
        let Opened { head, seen } = self;
        (
            Head {
                head,
                of: PhantomData,
            },
            Front {
                count: 0,
                seen,
                of: PhantomData,
            },
        )
    }
}

/// The word of a history: its length.
#[derive(Drop)]
pub(crate) struct Head<J: Naming> {
    head: Word<Vec<u8>, u64, Law>,
    of: PhantomData<J>,
    ghost head_is: { head ≡ head_of J.book },
}

/// A beginning of the history. Contracts see it as its pieces.
#[derive(Drop)]
pub(crate) struct Front<J: Naming> {
    count: u64,
    seen: Seen<Vec<u8>, u64, Law>,
    of: PhantomData<J>,
}

impl<J: Naming> Model for Front<J> {
    ghost use Rattle.std.specs.Prelude.{◌≡◌, List, length};
    ghost use Rattle.lemma_record.specs.History.{Piece};

    ghost Value = { List Piece };

    ghost view = { λ f. f.seen.log };

    ghost invariant = { λ f. (f.count ≡ length f.seen.log) × (f.seen.book ≡ J.book) };
}

impl<J: Naming> Front<J> {
    /// How many pieces it has.
    pub(crate) fn len(&self) -> u64
        ensures { result ≡ length self.now }
    {
        self.count
    }

    /// A copy.
    pub(crate) fn again(&self) -> Front<J>
        ensures { result ≡ self.now }
    {
        Front {
            count: self.count,
            seen: self.seen.again(),
            of: PhantomData,
        }
    }

    /// Whether another front has the same pieces.
    pub(crate) fn is_same(&self, other: &Front<J>) -> bool
        ensures { IsTrue result → self.now ≡ other.now }
    {
        let mut both = self.seen.again();
        both.learn(&other.seen);
        self.count == other.count
    }

    /// Adds a piece to all that was seen, and says whether it did. It did not where the history is longer: then the front
    /// is of no use.
    pub(crate) fn add(&mut self, head: &Head<J>, piece: &Vec<u8>) -> bool
        requires { length self.old < 2 ^ 62 }
        ensures { IsTrue result → self.new ≡ self.old ++ piece.now ∷ [] }
    {
        let mut offer: Offer<Vec<u8>, u64, Law, Nothing> = self
            .seen
            .plain::<Nothing, Vec<u8>, Add>(piece);
        let mut pen = self.seen.no_pen();
        let count = self.count;
        let found = head
            .head
            .compare_exchange::<Add, Nothing>(
                count,
                count + 1,
                &mut self.seen,
                &mut offer,
                &mut pen,
            );
        self.count = if found == count { count + 1 } else { found };
        found == count
    }
}
