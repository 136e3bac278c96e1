ghost use Rattle.std.specs.Prelude.{◌≡◌, [], ◌∷◌, OnOk};
ghost use Rattle.c_parts.specs.Chains.{IsTaken, is_nil};

use std::alloc::{AllocError, Global};
use std::marker::Model;

/// A list that grows at its front, in constant time for each item.
#[derive(Drop)]
pub struct Chain<T> {
    /// The items, the first one last.
    backwards: Vec<T>,
}

impl<T> Model for Chain<T> {
    ghost use Rattle.std.specs.Prelude.{List, reverse};

    ghost Value = { List T };

    ghost view = { λ c. reverse c.backwards.items };
}

impl<T: Drop> Chain<T> {
    /// No items.
    pub fn new(alloc: Global) -> Chain<T>
        ensures { result ≡ [] }
    {
        Chain {
            backwards: Vec::new(alloc),
        }
    }

    /// Puts an item before all others.
    pub fn put_front(&mut self, item: T) -> Result<(), AllocError>
        ensures { OnOk result (self.new ≡ item ∷ self.old) }
    {
        self.backwards.push(item)?;
        Ok(())
    }

    /// Takes the first item.
    pub fn take_front(&mut self) -> Option<T>
        ensures { IsTaken result self.old self.new }
    {
        self.backwards.pop()
    }

    /// Drops all items, and keeps the room for them.
    pub fn clear(&mut self)
        ensures { self.new ≡ [] }
    {
        self.backwards.clear();
    }

    /// Whether there are no items.
    pub fn is_empty(&self) -> bool
        ensures { result ≡ is_nil self.now }
    {
        self.backwards.is_empty()
    }

    /// The items in their order.
    pub fn into_vec(self) -> Vec<T>
        ensures { result.items ≡ self }
    {
        let mut items = self.backwards;
        items.reverse();
        items
    }
}
