//! Lists that hold each item once, and find an item without going over the list.
ghost use Rattle.std.specs.Prelude.{◌≡◌, ◌↔◌, ℕ, ◌+◌, ◌-◌, ◌<◌, ◌≤◌, ◌++◌, ◌∷◌, [], length, map, take, slice_get, slice_set, slice_index, Contains, IfOk, IfSome, IfNone, OnErr, OnOk, IsTrue, Some};
ghost use Rattle.dep_nodes.specs.OnceLists.{IsOnceEach, IsTable, slot_of, slots_of};

use jo_ids::Memory;
use std::alloc::Global;
use std::marker::Model;

/// How many items a list has at least where it has a table.
const FEW: usize = 8;

/// How many items a list has at most where it has a table.
const MOST: usize = 1_073_741_824;

/// What is asked of items: a key that tells most of them apart, and whether two are one.
pub trait Keyed: Copy {
    ghost key: { Self → ℕ };

    /// The key, which is spread over all numbers of 32 bits.
    fn key(&self) -> u32
        ensures { result ≡ key self.now };

    /// Whether the other is the same item.
    fn is(&self, other: &Self) -> bool
        ensures { IsTrue result ↔ (self.now ≡ other.now) };
}

/// A list that grows at its end and holds each item once. The list and the table double as they grow, so an item takes at
/// most twice its own size and 16 bytes of the table: an edge of a graph, of 8 bytes, takes at most 32.
#[derive(Drop)]
pub struct OnceList<T: Keyed> {
    items: Vec<T>,
    table: Table,
    alloc: Global,
}

/// For each slot the place of its last item, and for each place that of the item before with the same slot; each counted
/// from 1, with 0 for none. Both are empty where there is no table.
#[derive(Drop)]
pub struct Table {
    last: Vec<u32>,
    before: Vec<u32>,
}

impl Table {
    /// Notes the place as the last of its slot.
    fn note(&mut self, place: usize, slot: usize)
        requires slot { slot < length self.old.last.items }
        requires place { place < length self.old.before.items }
        requires few { place < 2147483648 }
        ensures last { self.new.last.items ≡ slice_set self.old.last.items slot (place + 1) }
        ensures before { self.new.before.items ≡ slice_set self.old.before.items place (slice_index self.old.last.items slot) }
    {
        self.before[place] = self.last[slot];
        self.last[slot] = place as u32 + 1;
    }
}

impl<T: Keyed> Model for OnceList<T> {
    ghost use Rattle.std.specs.Prelude.{List as Items};
    ghost use Rattle.std.specs.Coded.{coded_list};
    ghost use Rattle.dep_nodes.specs.OnceLists.{IsOnceList};

    ghost Value = { Items T };

    ghost coded = { coded_list T.code };

    ghost view = { λ l. l.items.items };

    ghost invariant = { λ l. IsOnceList T.key l.items.items l.table.last.items l.table.before.items };
}

impl<T: Keyed> OnceList<T> {
    /// The empty list. It takes no memory.
    pub fn new(alloc: Global) -> OnceList<T>
        ensures { result ≡ [] }
    {
        OnceList {
            items: Vec::new(alloc),
            table: Table {
                last: Vec::new(alloc),
                before: Vec::new(alloc),
            },
            alloc,
        }
    }

    /// The place of the item.
    pub fn find(&self, item: &T) -> Option<usize>
        ensures found { IfSome result (λ place. slice_get self.now place ≡ Some item.now) }
        ensures absent { IfNone result (Contains self.now item.now → ⊥) }
    {
        if self.table.last.is_empty() {
            find_in(self.items.as_slice(), item)
        } else {
            find_linked(
                self.items.as_slice(),
                self.table.last.as_slice(),
                self.table.before.as_slice(),
                item,
            )
        }
    }

    /// Whether the item is there.
    pub fn has(&self, item: &T) -> bool
        ensures { IsTrue result ↔ Contains self.now item.now }
    {
        match self.find(item) {
            Some(_) => true,
            None => false,
        }
    }

    /// Adds an item that isn't there at the end.
    pub fn push_new(&mut self, item: T) -> Result<(), Memory>
        requires { Contains self.old item → ⊥ }
        ensures ok { OnOk result (self.new ≡ self.old ++ item ∷ []) }
        ensures err { OnErr result (self.new ≡ self.old) }
    {
        self.make_room()?;
        let place = self.items.len();
        let Ok(()) = self.items.push(item) else {
            return Err(Memory);
        };
        let slots = self.table.last.len();
        if place < slots {
            let slot = slot(item.key(), slots);
            self.table.note(place, slot);
        } else {
            self.table.last.clear();
            self.table.before.clear();
        }
        Ok(())
    }

    /// Makes the table larger where the next item has no room in it. The list is as before.
    fn make_room(&mut self) -> Result<(), Memory>
        ensures { self.new ≡ self.old }
    {
        let count = self.items.len();
        if count < FEW || count < self.table.last.len() || count > MOST {
            return Ok(());
        }
        let table = table_of(self.alloc, self.items.as_slice(), 2 * count)?;
        self.table = table;
        Ok(())
    }

    /// Takes the last item off.
    pub fn drop_last(&mut self)
        ensures { self.new ≡ take (length self.old - 1) self.old }
    {
        self.items.truncate(self.items.len().saturating_sub(1));
        self.table.last.clear();
        self.table.before.clear();
    }

    /// The items, in order of adding.
    pub fn as_slice(&self) -> &[T]
        ensures items { result.now ≡ self.now }
        ensures once { IsOnceEach result.now }
    {
        self.items.as_slice()
    }
}

/// The slot of a key.
fn slot(key: u32, slots: usize) -> usize
    requires some { 0 < slots }
    requires few { slots ≤ 2147483648 }
    ensures value { result ≡ slot_of slots key }
    ensures within { result < slots }
{
    (u64::from(key) * slots as u64 / 4294967296) as usize
}

/// The place of the item, by a look at each.
fn find_in<T: Keyed>(items: &[T], item: &T) -> Option<usize>
    ensures found { IfSome result (λ place. slice_get items.now place ≡ Some item.now) }
    ensures absent { IfNone result (Contains items.now item.now → ⊥) }
{
    for (place, there) in items.iter().enumerate() {
        if there.is(item) {
            return Some(place);
        }
    }
    None
}

/// The place of the item, by a look at those with its slot.
fn find_linked<T: Keyed>(items: &[T], last: &[u32], before: &[u32], item: &T) -> Option<usize>
    requires some { 0 < length last.now }
    requires few { length last.now ≤ 2147483648 }
    requires table { IsTable (slots_of T.key (length last.now) items.now) last.now before.now }
    ensures found { IfSome result (λ place. slice_get items.now place ≡ Some item.now) }
    ensures absent { IfNone result (Contains items.now item.now → ⊥) }
{
    let start = slot(item.key(), last.len());
    let mut link = last[start];
    while link > 0 {
        let place = (link - 1) as usize;
        if items[place].is(item) {
            return Some(place);
        }
        link = before[place];
    }
    None
}

/// The table of these items with that many slots.
fn table_of<T: Keyed>(alloc: Global, items: &[T], slots: usize) -> Result<Table, Memory>
    requires some { 0 < slots }
    requires few { slots ≤ 2147483648 }
    requires room { length items.now ≤ slots }
    ensures last { IfOk result (λ table. length table.last.items ≡ slots) }
    ensures before { IfOk result (λ table. length table.before.items ≡ slots) }
    ensures table { IfOk result (λ table. IsTable (slots_of T.key slots items.now) table.last.items table.before.items) }
{
    let mut table = Table {
        last: vec![in alloc; 0; slots]?,
        before: vec![in alloc; 0; slots]?,
    };
    for (place, item) in items.iter().enumerate() {
        let slot = slot(item.key(), slots);
        table.note(place, slot);
    }
    Ok(table)
}
