//! A text of which a part was taken.

ghost use Rattle.std.specs.Prelude.{◌≡◌, ◌++◌, [], IfSome, IfNone, IfOk, OnErr, IsTrue};
ghost use Rattle.lemma_record.specs.Texts.{Passes, more_of, whole};

use crate::history::{Front, Head, Naming, Opened};
use std::alloc::{AllocError, Global};
use std::marker::Model;
use std::mem;

/// How many pieces can be taken.
const MOST: u64 = 1 << 32;

/// A text that grows, and lies under a lock: what was taken exists in proofs alone, and the rest is kept.
#[derive(Drop)]
pub struct Growing<J: Naming> {
    alloc: Global,
    head: Head<J>,
    taken: Front<J>,
    rest: Vec<u8>,
}

impl<J: Naming> Model for Growing<J> {
    ghost use Rattle.lemma_record.specs.Texts.{TextOf};
    ghost use Rattle.lemma_record.specs.History.{joined};

    ghost Value = { TextOf };

    ghost view = { λ s. record { taken = joined s.taken; rest = s.rest.items } };
}

/// The right to take a text's pieces, all of which one has: contracts see it as the text that they make.
#[derive(Drop)]
pub struct Taken<J: Naming> {
    pieces: Front<J>,
}

impl<J: Naming> Model for Taken<J> {
    ghost use Rattle.std.specs.Prelude.{ℕ, List};
    ghost use Rattle.lemma_record.specs.History.{joined};

    ghost Value = { List ℕ };

    ghost view = { λ s. joined s.pieces };
}

/// A text without bytes, of which nothing was taken.
#[derive(Drop)]
pub struct Blank<J: Naming> {
    text: Growing<J>,
    ghost is_empty: { whole text ≡ [] },
}

impl<J: Naming> Blank<J> {
    /// A text of that name, and the right to take it.
    pub fn new(alloc: Global, opened: Opened) -> (Blank<J>, Taken<J>)
        requires { opened.seen.book ≡ J.book }
        ensures { result.1 ≡ [] }
    {
        let (head, front) = opened.named::<J>();
        let taken = Taken {
            pieces: front.again(),
        };
        let text = Growing {
            alloc,
            head,
            taken: front,
            rest: Vec::new(alloc),
        };
        (Blank { text }, taken)
    }

    /// The text, to grow.
    pub fn text(self) -> Growing<J>
        ensures { whole result ≡ [] }
    {
        let Blank { text } = self;
        text
    }
}

impl<J: Naming> Growing<J> {
    /// The bytes that were not taken.
    pub fn rest(&self) -> &[u8]
        ensures { result.now ≡ self.now.rest }
    {
        &self.rest
    }

    /// Adds bytes.
    pub fn push(&mut self, bytes: &[u8]) -> Result<(), AllocError>
        ensures more { IfOk result (λ _. self.new ≡ more_of self.old bytes.now) }
        ensures unchanged { OnErr result (self.new ≡ self.old) }
    {
        self.rest.extend_from_slice(bytes)
    }

    /// The bytes that were not taken, which whoever has all that was taken gets. None for others.
    pub fn take(&mut self, mine: &mut Taken<J>) -> Option<Vec<u8>>
        ensures taken { IfSome result (λ piece. Passes self.old mine.old piece.items self.new mine.new) }
        ensures none { IfNone result ((self.new ≡ self.old) × (mine.new ≡ mine.old)) }
    {
        if self.taken.len() >= MOST || !mine.pieces.is_same(&self.taken) {
            return None;
        }
        let mut front = self.taken.again();
        if !front.add(&self.head, &self.rest) {
            return None;
        }
        mine.pieces = front.again();
        self.taken = front;
        Some(mem::replace(&mut self.rest, Vec::new(self.alloc)))
    }
}
