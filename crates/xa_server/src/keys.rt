//! A list of keys.
ghost use Rattle.std.specs.Prelude.{◌≡◌, [], ◌∷◌, ◌++◌, true, IfOk, OnOk, OnErr, MatchOption};

use std::alloc::Global;
use std::marker::Model;
use xa_xid::{Key, NoMemory};

/// The keys of the rows that a branch holds, in the order in which it came to hold them.
#[derive(Drop)]
pub struct Keys {
    list: Vec<Key>,
}

impl Model for Keys {
    ghost use Rattle.std.specs.Prelude.{ℕ, List};

    ghost Value = { List (List ℕ) };

    ghost view = { λ keys. keys.list.items };
}

impl Keys {
    /// Makes an empty list.
    pub fn new(alloc: Global) -> Keys
        ensures { result ≡ [] }
    {
        Keys {
            list: Vec::new(alloc),
        }
    }

    /// Adds a key at the end.
    pub fn push(&mut self, key: &Key) -> Result<(), NoMemory>
        ensures ok { OnOk result (self.new ≡ self.old ++ key.now ∷ []) }
        ensures err { OnErr result (self.new ≡ self.old) }
    {
        self.list.push(key.copy())?;
        Ok(())
    }

    /// Removes and returns the last key; None if the list is empty.
    pub fn pop(&mut self) -> Option<Key>
        ensures { MatchOption result ((self.old ≡ []) × (self.new ≡ [])) (λ key. self.old ≡ self.new ++ key ∷ []) }
    {
        self.list.pop()
    }

    /// Returns true only if both have the same keys in the same order.
    pub fn is_same(&self, other: &Keys) -> bool
        ensures { result ≡ true → self.now ≡ other.now }
    {
        self.list == other.list
    }

    /// Copies the keys.
    pub fn copy(&self) -> Result<Keys, NoMemory>
        ensures { IfOk result (λ keys. keys ≡ self.now) }
    {
        Ok(Keys {
            list: self.list.clone()?,
        })
    }
}
