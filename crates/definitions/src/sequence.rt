//! A list in a field: a `Vec` that contracts see as the list of its items.
//! Two values with such fields are equal where these lists are.

ghost use Rattle.std.specs.Prelude.{◌≡◌, [], ◌∷◌, ◌++◌, length, OnOk, OnErr};

use std::alloc::{AllocError, Global};
use std::marker::Model;

/// A `Vec` that contracts see as the list of its items, so that two of them are equal where these are.
#[derive(Debug, Drop)]
pub struct Sequence<T> {
    items: Vec<T>,
}

impl<T> Model for Sequence<T> {
    ghost use Rattle.std.specs.Prelude.{List};
    ghost use Rattle.std.specs.Coded.{coded_list};

    ghost Value = { List T };

    ghost coded = { coded_list T.code };

    ghost view = { λ s. s.items.items };
}

impl<T> Sequence<T> {
    /// No item. It takes no memory until the first push.
    pub fn new(alloc: Global) -> Sequence<T>
        ensures empty { result ≡ [] }
    {
        Sequence {
            items: Vec::new(alloc),
        }
    }

    /// These items, in their order, with no memory taken.
    pub fn from_vec(items: Vec<T>) -> Sequence<T>
        ensures same { result ≡ items.items }
    {
        Sequence { items }
    }

    /// The items, in their order, with no memory taken.
    pub fn into_vec(self) -> Vec<T>
        ensures same { result.items ≡ self }
    {
        self.items
    }

    /// The items, in their order.
    pub fn as_slice(&self) -> &[T]
        ensures same { result.now ≡ self.now }
    {
        self.items.as_slice()
    }

    /// The number of items.
    pub fn len(&self) -> usize
        ensures count { result ≡ length self.now }
    {
        self.items.len()
    }
}

impl<T: Drop> Sequence<T> {
    /// Adds an item at the end. After `AllocError` the list is as before, and the item is given up.
    pub fn push(&mut self, item: T) -> Result<(), AllocError>
        ensures added { OnOk result (self.new ≡ self.old ++ item ∷ []) }
        ensures refused { OnErr result (self.new ≡ self.old) }
    {
        self.items.push(item)?;
        Ok(())
    }
}

impl<T: PartialEq> PartialEq for Sequence<T> {
    ghost use Rattle.std.specs.Cmp.Lexicographic.{pointwise, lists_per};

    ghost eq = { λ v w. pointwise T.eq v w };

    ghost laws = { lists_per T.laws };

    fn eq(&self, other: &Self) -> bool {
        self.as_slice() == other.as_slice()
    }
}

impl<T: Eq> Eq for Sequence<T> {
    ghost use Rattle.std.specs.Cmp.Lexicographic.{lists_equiv};

    ghost laws = { lists_equiv T.Eq.laws };
}
