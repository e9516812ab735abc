// The extends entries of a record, and a record that is opened.

ghost use Rattle.std.specs.Prelude.{◌≡◌, ◌≤◌, take};

use rows::ROW;

// What an extends entry leads to.
#[derive(Clone, Copy, PartialEq, Eq)]
pub enum Entry {
    // The record with the number.
    Leads(u8),
    // No record: none is found.
    Missing,
    // It starts with neither `/` nor `.`
    Bare,
    Empty,
}

// The extends entries of a record. No ArrayVec: the crates stand over std alone.
#[derive(Clone, Copy)]
pub struct Entries {
    pub all: [Entry; 8],
    pub count: usize,
    pub ghost few: { count ≤ 8 },
}

impl Entries {
    pub fn as_slice(&self) -> &[Entry]
        ensures { result.now ≡ take self.now.count self.now.all }
    {
        &self.all[..self.count]
    }
}

// A record that is opened: its extends entries and its own row.
#[derive(Clone, Copy)]
pub struct Opened {
    pub entries: Entries,
    pub row: [u8; ROW],
}
