ghost use Rattle.std.specs.Prelude.{◌≡◌, ◌<◌, ◌≤◌, ◌++◌, ◌∷◌, [], length};

use std::marker::Model;
use unit_trait::Kind;

/// Whose registers a command names.
#[derive(Clone, Copy, Debug, PartialEq, Eq)]
pub enum Name {
    /// The processor's, where no device is named.
    Cpu,
    Device(Kind),
}

/// How a value is compared.
#[derive(Clone, Copy, Debug, PartialEq, Eq)]
pub enum Rel {
    Eq,
    Ne,
    Lt,
    Le,
    Gt,
    Ge,
}

/// A comparison of a word with a value. A mask, where there is one, is applied to the word first. A number that is too
/// large for its reader is held as 2^64 - 1.
#[derive(Clone, Copy, Debug, PartialEq, Eq)]
pub struct Condition {
    pub mask: Option<u64>,
    pub rel: Rel,
    pub value: u64,
}

/// What an item of a list names. A number that is too large for its reader is held as 2^64 - 1.
#[derive(Clone, Copy, Debug, PartialEq, Eq)]
pub enum Item {
    /// The word at an address.
    At(u64),
    /// The words from an address to another.
    Range(u64, u64),
    /// That many words from an address.
    Count(u64, u64),
    /// All words below the size of memory.
    All,
    /// A register, by its number in the order of its device.
    Reg(u8),
    /// All registers, in their order.
    State,
    /// A name that is the name of no register.
    Unknown,
}

/// How many items a list has at most.
pub const MOST_ITEMS: usize = 16;

/// A list of up to 16 items.
#[derive(Drop)]
pub struct Items {
    /// The items; those at `count` and behind are none of the list.
    pub list: [Item; MOST_ITEMS],
    pub count: usize,
}

impl Model for Items {
    ghost use Rattle.std.specs.Prelude.{◌≤◌, List, take};
    ghost use Rattle.operand_forms.specs.declared.listing.Item.{Item};

    ghost Value = { List Item };

    ghost view = { λ i. take i.count i.list };

    ghost invariant = { λ i. i.count ≤ 16 };
}

impl Items {
    /// An empty list.
    pub fn new() -> Items
        ensures { result ≡ [] }
    {
        Items {
            list: [Item::All; MOST_ITEMS],
            count: 0,
        }
    }

    /// How many items there are.
    pub fn len(&self) -> usize
        ensures length { result ≡ length self.now }
        ensures bound { result ≤ 16 }
    {
        self.as_slice().len()
    }

    /// The items of the list.
    pub fn as_slice(&self) -> &[Item]
        ensures items { result.now ≡ self.now }
        ensures bound { length result.now ≤ 16 }
    {
        &self.list[..self.count]
    }

    /// Adds an item behind the last one.
    pub fn push(&mut self, item: Item)
        requires { length self.old < 16 }
        ensures { self.new ≡ self.old ++ item ∷ [] }
    {
        self.list[self.count] = item;
        self.count += 1;
    }
}

/// What EXAMINE and DEPOSIT work on.
#[derive(Drop)]
pub struct Listing {
    /// Whether words are written and read as symbolic text.
    pub symbolic: bool,
    pub device: Name,
    /// Which words of memory EXAMINE shows, where not all.
    pub condition: Option<Condition>,
    pub items: Items,
}

/// What ASSERT tests.
#[derive(Clone, Copy, Debug, PartialEq, Eq)]
pub struct Test {
    pub device: Name,
    pub item: Item,
    pub condition: Condition,
}
