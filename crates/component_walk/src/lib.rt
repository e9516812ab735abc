// The components of a path one after the other: the next one, how many there are, and whether one is node_modules.
#![tactic(auto)]

ghost use Rattle.std.specs.Prelude.{◌≡◌, length, option_copied};
ghost use Rattle.std.specs.Iterator.{YieldsFirstRef, item_count};
ghost use Rattle.components.specs.Components.{split, names, trim_start, components, inside_node_modules};
ghost use Rattle.component_walk.specs.Walk.{pieces, Takes};

use components::{lead_len, piece_end};
use names::is_node_modules;
use text::{DOT, SLASH};

// s from its first component on: empty where there is none.
#[tactic(auto, using(crate::proofs::Walk::fronts))]
fn trim_start(s: &[u8]) -> &[u8]
    ensures { pieces result.now ≡ trim_start (split s.now) }
{
    // Cut until neither a slash nor a `.` leads: there are no pieces to go over.
    let mut t = s;
    loop {
        t = match t {
            [SLASH, rest @ ..] | [DOT, SLASH, rest @ ..] => rest,
            [DOT] => return &t[..0],
            _ => return t,
        };
    }
}

// The components of a path behind its lead: the names and `..`, without `.` and empty pieces.
#[derive(Clone, Copy)]
pub struct Components<'a> {
    rest: &'a [u8],
}

impl<'a> Components<'a> {
    pub fn new(s: &'a [u8]) -> Components<'a>
        ensures { result.rest.now ≡ s.now }
    {
        Components { rest: s }
    }

    // The first component of what is left, which is then what stands behind it.
    pub fn take_first(&mut self) -> Option<&'a [u8]>
        ensures names { YieldsFirstRef (λ s. names (split s.rest.now)) self.old result self.new }
        ensures takes { Takes self.old.rest.now (option_copied result) self.new.rest.now }
    {
        let s = trim_start(self.rest);
        let (first, rest) = s.split_at(piece_end(s, 0));
        self.rest = rest;
        if first.is_empty() {
            return None;
        }
        Some(first)
    }

    // What is left, from its first component on.
    pub fn as_slice(&self) -> &'a [u8]
        ensures { pieces result.now ≡ trim_start (split self.now.rest.now) }
    {
        trim_start(self.rest)
    }
}

impl<'a> Iterator for Components<'a> {
    type Item = &'a [u8];

    ghost next_gives = { YieldsFirstRef (λ s. names (split s.rest.now)) };

    ghost remaining = { item_count (λ s. names (split s.rest.now)) };

    fn next(&mut self) -> Option<&'a [u8]> {
        self.take_first()
    }
}

// Whether a component of s is `node_modules`.
pub fn inside_node_modules(s: &[u8]) -> bool
    ensures { result ≡ inside_node_modules s.now }
{
    s.split(|b| *b == SLASH).any(is_node_modules)
}

// How many components s has.
pub fn count_components(s: &[u8]) -> usize
    ensures { result ≡ length (components s.now) }
{
    lead_len(s) + Components::new(s).count()
}
