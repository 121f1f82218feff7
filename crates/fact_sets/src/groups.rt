//! Items that stand under keys.
ghost use Rattle.std.specs.Prelude.{◌≡◌, ◌↔◌, ◌++◌, ◌∷◌, [], Contains, IfOk, OnErr, OnOk};
ghost use Rattle.dep_nodes.specs.OnceLists.{IsOnceEach};
ghost use Rattle.fact_sets.specs.Groups.{HasIn, AddsUnder};

use dep_nodes::{Keyed, OnceList};
use jo_ids::{List, Memory};
use std::alloc::Global;
use std::marker::Model;

/// Keys in the order of their first items, each with its items in order of adding. Contracts see the list of the keys and
/// that of their lists.
#[derive(Drop)]
pub struct Groups<K: Keyed, V: Copy> {
    keys: OnceList<K>,
    lists: Vec<List<V>>,
    alloc: Global,
}

impl<K: Keyed, V: Copy> Model for Groups<K, V> {
    ghost use Rattle.std.specs.Prelude.{List as Items};
    ghost use Rattle.std.specs.Coded.{coded_list, coded×};
    ghost use Rattle.fact_sets.specs.Groups.{AreGroups};

    ghost Value = { Items K × Items (Items V) };

    ghost coded = { coded× (coded_list K.code) (coded_list (coded_list V.code)) };

    ghost view = { λ g. (g.keys, g.lists.items) };

    ghost invariant = { λ g. AreGroups g.keys g.lists.items };
}

impl<K: Keyed, V: Copy> Groups<K, V> {
    /// No items. It takes no memory.
    pub(crate) fn new(alloc: Global) -> Groups<K, V>
        ensures { result ≡ ([], []) }
    {
        Groups {
            keys: OnceList::new(alloc),
            lists: Vec::new(alloc),
            alloc,
        }
    }

    /// The items under the key, in order of adding.
    pub(crate) fn under(&self, key: &K) -> &[V]
        ensures each { (v : V) → Contains result.now v ↔ HasIn self.now key.now v }
        ensures once { IsOnceEach result.now }
    {
        match self.keys.find(key) {
            Some(place) => self.lists[place].as_slice(),
            None => &[],
        }
    }

    /// Adds an item that isn't there under the key.
    pub(crate) fn add(&mut self, key: K, item: V) -> Result<(), Memory>
        requires { HasIn self.old key item → ⊥ }
        ensures ok { OnOk result (AddsUnder self.old self.new key item) }
        ensures err { OnErr result (self.new ≡ self.old) }
    {
        let Some(place) = self.keys.find(&key) else {
            return self.add_key(key, item);
        };
        match self.lists[place].push(item) {
            Ok(()) => Ok(()),
            Err(_) => Err(Memory),
        }
    }

    /// Adds a key that isn't there, with its first item.
    fn add_key(&mut self, key: K, item: V) -> Result<(), Memory>
        requires { Contains self.old.0 key → ⊥ }
        ensures ok { OnOk result (AddsUnder self.old self.new key item) }
        ensures err { OnErr result (self.new ≡ self.old) }
    {
        let first = only(self.alloc, item)?;
        self.keys.push_new(key)?;
        match self.lists.push(first) {
            Ok(()) => Ok(()),
            Err(_) => {
                self.keys.drop_last();
                Err(Memory)
            }
        }
    }
}

/// The list of one item.
fn only<V: Copy>(alloc: Global, item: V) -> Result<List<V>, Memory>
    ensures { IfOk result (λ list. list ≡ item ∷ []) }
{
    let mut list = List::new(alloc);
    match list.push(item) {
        Ok(()) => Ok(list),
        Err(_) => Err(Memory),
    }
}
