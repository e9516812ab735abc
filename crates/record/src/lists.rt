// What a record says more than once.
ghost use Rattle.std.specs.Prelude.{◌≡◌};
ghost use Rattle.std.specs.Iterator.{item_count};
ghost use Rattle.record.specs.Lists.{strings_left, targets_left, keys_left, NextString, NextTarget, NextKey};

use crate::place::Place;
use book::{KEY, string_of};
use items::{next_item, next_target};

// The strings of a record's commands with one byte.
#[derive(Clone, Copy)]
pub struct Strings<'a, const MOST: usize> {
    pub place: Place<'a, MOST>,
    pub op: u8,
}

impl<'a, const MOST: usize> Iterator for Strings<'a, MOST> {
    type Item = &'a [u8];

    ghost next_gives = { NextString MOST };

    ghost remaining = { item_count strings_left };

    fn next(&mut self) -> Option<&'a [u8]> {
        let (c, next) = next_item(self.place.commands, self.place.at, self.op)?;
        self.place.at = next;
        Some(string_of(self.place.text, c))
    }
}

// The targets that a record goes on with.
#[derive(Clone, Copy)]
pub struct Targets<'a, const MOST: usize> {
    pub place: Place<'a, MOST>,
}

impl<'a, const MOST: usize> Iterator for Targets<'a, MOST> {
    type Item = &'a [u8];

    ghost next_gives = { NextTarget MOST };

    ghost remaining = { item_count targets_left };

    fn next(&mut self) -> Option<&'a [u8]> {
        let (c, next) = next_target(self.place.commands, self.place.at)?;
        self.place.at = next;
        Some(string_of(self.place.text, c))
    }
}

// A key of `paths`, with its targets.
#[derive(Clone, Copy)]
pub struct Key<'a, const MOST: usize> {
    pub name: &'a [u8],
    pub targets: Targets<'a, MOST>,
}

// The keys of a record.
#[derive(Clone, Copy)]
pub struct Keys<'a, const MOST: usize> {
    pub place: Place<'a, MOST>,
}

impl<'a, const MOST: usize> Iterator for Keys<'a, MOST> {
    type Item = Key<'a, MOST>;

    ghost next_gives = { NextKey MOST };

    ghost remaining = { item_count keys_left };

    fn next(&mut self) -> Option<Key<'a, MOST>> {
        let (c, next) = next_item(self.place.commands, self.place.at, KEY)?;
        self.place.at = next;
        Some(Key {
            name: string_of(self.place.text, c),
            targets: Targets { place: self.place },
        })
    }
}

impl<'a, const MOST: usize> Place<'a, MOST> {
    pub fn strings(&self, op: u8) -> Strings<'a, MOST>
        ensures place { result.place ≡ self.now }
        ensures op { result.op ≡ op }
    {
        Strings { place: *self, op }
    }

    pub fn keys(&self) -> Keys<'a, MOST>
        ensures { result.place ≡ self.now }
    {
        Keys { place: *self }
    }
}
