//! A list in a line of a record. Its value is that of its elements, without the memory that a `Vec` has.

use std::marker::Model;

/// Elements in the order of their line.
#[derive(Drop, Debug)]
pub struct Listed<T> {
    list: Vec<T>,
}

impl<T> Model for Listed<T> {
    ghost use Rattle.std.specs.Prelude.{List};
    ghost use base.Stored.{coded_list};

    ghost Value = { List T };

    ghost coded = { coded_list T.code };

    ghost view = { λ l. l.list.items };
}

impl<T> Listed<T> {
    ghost use Rattle.std.specs.Prelude.{◌≡◌};

    /// These elements.
    pub fn new(list: Vec<T>) -> Listed<T>
        ensures { result ≡ list.items }
    {
        Listed { list }
    }

    /// The elements as a slice.
    pub fn as_slice(&self) -> &[T]
        ensures { result.now ≡ self.now }
    {
        &self.list
    }
}

/// The members of a set, rising.
pub type Members = Listed<usize>;

/// The starts of a schedule, in periods, by activity.
pub type Starts = Listed<i64>;
