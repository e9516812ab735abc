// Question lines: what a line asks, and its fields. And an output that is filled before a question, where it is looked at which of its bytes stay.
#![tactic(auto)]

ghost use Rattle.std.specs.Prelude.{◌≡◌, length, drop, replicate, eqb};
ghost use Rattle.text.specs.Text.{each_of, before_byte, after_byte};
ghost use Rattle.asked.specs.Asked.{tab, has_tab, kind_of, pattern};

use text::{find_byte, from, part_after, part_before};

const TAB: u8 = 0x09;

// What an output is filled with.
const PATTERN: u8 = 0xA5;

// What a line asks: the kind alone, which is told before the fields are looked for.
#[derive(Clone, Copy, PartialEq, Eq)]
pub enum Kind {
    Build,
    Owner,
    Candidates,
    Tries,
}

#[tactic(auto, unfolding(crate::specs::Asked::has_tab))]
fn has_tab(s: &[u8]) -> bool
    ensures { result ≡ has_tab s.now }
{
    find_byte(s, TAB).is_some()
}

// A letter, a blank, and the letter's fields, parted by tabs. A field holds no tab where another follows.
#[tactic(auto, using(std::proofs::lemmas::Bool::Decides::nat_tests), unfolding(crate::specs::Asked::kind_of, crate::specs::Asked::by_letter))]
pub fn kind_of(line: &[u8]) -> Option<Kind>
    ensures { result ≡ kind_of line.now }
{
    match line {
        [b'B', b' ', ..] => Some(Kind::Build),
        [b'O', b' ', ..] => Some(Kind::Owner),
        [b'C', b' ', ..] if has_tab(line) => Some(Kind::Candidates),
        [b'T', b' ', ..] if has_tab(part_after(line, TAB)) => Some(Kind::Tries),
        _ => None,
    }
}

// The fields of a line, after its letter and blank.
pub fn fields(line: &[u8]) -> &[u8]
    ensures { result.now ≡ drop 2 line.now }
{
    from(line, 2)
}

// The first of some fields.
pub fn first_field(fields: &[u8]) -> &[u8]
    ensures { result.now ≡ before_byte tab fields.now }
{
    part_before(fields, TAB)
}

// The fields after the first.
pub fn other_fields(fields: &[u8]) -> &[u8]
    ensures { result.now ≡ after_byte tab fields.now }
{
    part_after(fields, TAB)
}

// Fills an output.
pub fn fill(room: &mut [u8])
    ensures { room.new ≡ replicate (length room.old) pattern }
{
    room.fill(PATTERN);
}

// Whether all of s is still as it was filled.
pub fn is_kept(s: &[u8]) -> bool
    ensures { result ≡ each_of (eqb pattern) s.now }
{
    s.iter().all(|x| *x == PATTERN)
}
