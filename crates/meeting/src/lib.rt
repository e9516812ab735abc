// Whether a string meets one of those before it: a path that is another or its ancestor, a key that is another.
#![tactic(auto)]

ghost use Rattle.std.specs.Prelude.{ℕ, ◌≡◌, true, false, cond, not, [], ◌∷◌, ◌++◌, ◌+◌, ◌≤◌, ◌<◌, length, get_or, take, drop, eqb};
ghost use Rattle.std.specs.Int.{bit_at};
ghost use Rattle.text.specs.Text.{some_of};
ghost use Rattle.compare.specs.Compare.{digest_of};
ghost use Rattle.book.specs.State.{texts, AllSeen, meets};
ghost use Rattle.meeting.specs.Admitted.{FilesWith};
ghost use Rattle.meeting.specs.Files.{file_above, no_file_above, file_path};

use book::{MOST_RECORDS, Seen, piece};
use compare::{covers, digest};
use std::marker::Model;
use std::simd::prelude::*;
use text::{LANES, SLASH};

// Whether two paths meet: one is the other or its ancestor. Only the shorter can cover the longer, and of two of one length either.
fn do_meet(a: &[u8], b: &[u8]) -> bool
    ensures { result ≡ meets true a.now b.now }
{
    if a.len() < b.len() {
        covers(a, b)
    } else {
        covers(b, a)
    }
}

// A string and its digest are handed on apart: the digest is computed where the string is at hand, and kept without it.

// Whether two paths may meet, by their lengths and digests: of two of one length, only where the digests are the same.
fn may_meet(size: usize, len: usize, mark: u8, other: u8) -> bool
    ensures { result ≡ cond (eqb size len) (eqb mark other) true }
{
    size != len || mark == other
}

// Whether one of the rows' paths meets s, whose digest is given. The last row is looked at first. That the rows are seen is asked here and of keys, which have no
// text; `Paths` has it.
pub fn is_met(text: &[u8], rows: &[Seen], s: &[u8], mark: u8) -> bool
    requires seen { AllSeen text.now rows.now }
    requires mark_value { mark ≡ digest_of s.now }
    ensures { result ≡ some_of (meets true s.now) (texts text.now rows.now) }
{
    rows.iter().rev().any(|row| {
        may_meet(s.len(), row.len, mark, row.mark) && do_meet(s, piece(text, row.start, row.len))
    })
}

// Whether one of the rows' keys is s, whose digest is given. The last row is looked at first.
pub fn is_known(text: &[u8], rows: &[Seen], s: &[u8], mark: u8) -> bool
    requires seen { AllSeen text.now rows.now }
    requires mark_value { mark ≡ digest_of s.now }
    ensures { result ≡ some_of (meets false s.now) (texts text.now rows.now) }
{
    rows.iter().rev().any(|row| row.mark == mark && s == piece(text, row.start, row.len))
}

// The keys of a record that were seen, 32 at most. No ArrayVec: the crates stand over std alone.
// The marks stand also by themselves, where one look tells that a digest is none of them: without that a check at the limits takes 7 in 100 more instructions.
#[derive(Drop)]
pub struct Keys {
    rows: [Seen; 32],
    marks: [u8; 32],
    len: usize,
}

impl Model for Keys {
    ghost use Rattle.std.specs.Prelude.{List, ◌≡◌, ◌≤◌, take, map};
    ghost use Rattle.book.specs.declared.Seen.{Seen};

    ghost Value = { List Seen };

    ghost view = { λ k. take k.len k.rows };

    ghost invariant = { λ k. (k.len ≤ 32) × (take k.len k.marks ≡ map (λ r. r.mark) (take k.len k.rows)) };
}

impl Keys {
    pub fn new() -> Self
        ensures { result ≡ [] }
    {
        Keys {
            rows: [Seen::NONE; 32],
            marks: [0; 32],
            len: 0,
        }
    }

    pub fn clear(&mut self)
        ensures { self.new ≡ [] }
    {
        self.len = 0;
    }

    pub fn push(&mut self, row: Seen)
        requires { length self.old < 32 }
        ensures { self.new ≡ self.old ++ row ∷ [] }
    {
        self.rows[self.len] = row;
        self.marks[self.len] = row.mark;
        self.len += 1;
    }

    // Whether s, whose digest is given, is one of the keys.
    pub fn is_known(&self, text: &[u8], s: &[u8], mark: u8) -> bool
        requires seen { AllSeen text.now self.now }
        requires mark_value { mark ≡ digest_of s.now }
        ensures { result ≡ some_of (meets false s.now) (texts text.now self.now) }
    {
        self.marks.contains(&mark) && is_known(text, &self.rows[..self.len], s, mark)
    }
}

// Where one path lies under another that ends in `son`, as those of configs do by their `.json`, it has `son/`. So of paths that end in it and have `son/` nowhere,
// here called paths of files, none lies under another.

// The three bytes of `son`.
const FIRST: u8 = b's';

const MIDDLE: u8 = b'o';

const LAST: u8 = b'n';

// The bytes that a block reads: its places, and the three bytes behind the last. A shorter path has no block.
const REACH: usize = LANES + 3;

// Where x stands among the sixteen bytes of s from a place on, a bit for each.
#[inline(always)]
fn places_of(s: &[u8], at: usize, x: u8) -> u64
    requires { at + 16 ≤ length s.now }
    ensures { (j : ℕ) → j < 16 → get_or s.now (at + j) 0 ≡ x → bit_at result j ≡ 1 }
{
    u8x16::from_slice(&s[at..])
        .simd_eq(u8x16::splat(x))
        .to_bitmask()
}

// Whether `son/` stands at none of the sixteen places from one on. Its last two bytes are looked for first: most blocks have no place with both.
#[inline(always)]
fn has_none_in_block(s: &[u8], at: usize) -> bool
    requires { at + 19 ≤ length s.now }
    ensures { result ≡ true → (j : ℕ) → j < 16 → file_above s.now (at + j) ≡ false }
{
    let ends = places_of(s, at + 2, LAST) & places_of(s, at + 3, SLASH);
    ends == 0 || ends & places_of(s, at, FIRST) & places_of(s, at + 1, MIDDLE) == 0
}

// Whether a short path has `son/` nowhere.
fn has_none_in_short(s: &[u8]) -> bool
    ensures { result ≡ true → no_file_above s.now ≡ true }
{
    for i in 3..s.len() {
        if s[i] == SLASH && s[i - 1] == LAST && s[i - 2] == MIDDLE && s[i - 3] == FIRST {
            return false;
        }
    }
    true
}

// Whether `son/` stands nowhere. The last block ends where the last three bytes begin, and may lie over a part of the one before.
fn has_no_file_above(s: &[u8]) -> bool
    ensures { result ≡ true → no_file_above s.now ≡ true }
{
    if s.len() < REACH {
        return has_none_in_short(s);
    }
    let n = s.len() - REACH;
    for i in (0..n).step_by(LANES) {
        if !has_none_in_block(s, i) {
            return false;
        }
    }
    has_none_in_block(s, n)
}

// Whether s is the path of a file.
fn is_file_path(s: &[u8]) -> bool
    ensures { result ≡ true → file_path s.now ≡ true }
{
    let n = s.len();
    if n < 3 || s[n - 3] != FIRST || s[n - 2] != MIDDLE || s[n - 1] != LAST {
        return false;
    }
    has_no_file_above(s)
}

// The paths of the records before, 64 at most, in a book's text: a row for each, whether a path has the digest, and whether all are known to be paths of files.
// With these most paths are told to meet none before without a look at each.
#[derive(Drop)]
pub struct Paths<'t> {
    text: &'t [u8],
    rows: [Seen; MOST_RECORDS],
    count: usize,
    noted: [bool; 256],
    are_files: bool,
}

impl<'t> Model for Paths<'t> {
    ghost use Rattle.std.specs.Prelude.{◌≤◌, take};
    ghost use Rattle.meeting.specs.Admitted.{Admitted, Keeps};

    ghost Value = { Admitted };

    ghost view = { λ k. record { text = k.text.now; rows = take k.count k.rows } };

    ghost invariant = { λ k. (k.count ≤ 64) × Keeps k.text.now (take k.count k.rows) k.noted k.are_files };
}

impl<'t> Paths<'t> {
    pub fn new(text: &'t [u8]) -> Self
        ensures { result ≡ record { text = text.now; rows = [] } }
    {
        Paths {
            text,
            rows: [Seen::NONE; MOST_RECORDS],
            count: 0,
            noted: [false; 256],
            are_files: true,
        }
    }

    // How many they are, 64 at most. Each stands in the text.
    pub fn len(&self) -> usize
        ensures count { result ≡ length self.now.rows }
        ensures few { length self.now.rows ≤ 64 }
        ensures seen { AllSeen self.now.text self.now.rows }
    {
        self.count
    }

    // Whether s and all paths before are known to be those of files.
    fn are_files_with(&self, s: &[u8]) -> bool
        ensures { result ≡ true → FilesWith self.now.text self.now.rows s.now }
    {
        self.are_files && is_file_path(s)
    }

    // Whether s, whose digest is given, meets one of the paths before. Of files one meets another only where they are the same, so most are told by the digest alone.
    fn is_met(&self, s: &[u8], mark: u8, are_files: bool) -> bool
        requires mark_value { mark ≡ digest_of s.now }
        requires files { are_files ≡ true → FilesWith self.now.text self.now.rows s.now }
        ensures { result ≡ some_of (meets true s.now) (texts self.now.text self.now.rows) }
    {
        let before = &self.rows[..self.count];
        if are_files {
            self.noted[usize::from(mark)] && is_known(self.text, before, s, mark)
        } else {
            is_met(self.text, before, s, mark)
        }
    }

    // Admits the path that stands in the text at that place, behind those before, unless it meets one of them. Whether it was admitted.
    pub fn admit(&mut self, start: usize, len: usize) -> bool
        requires within { start + len ≤ length self.old.text }
        requires room { length self.old.rows < 64 }
        ensures admitted { result ≡ not (some_of (meets true (take len (drop start self.old.text))) (texts self.old.text self.old.rows)) }
        ensures rows_after { self.new ≡ record { text = self.old.text; rows = cond result (self.old.rows ++ record { start = start; len = len; mark = digest_of (take len (drop start self.old.text)) } ∷ []) self.old.rows } }
    {
        let s = &self.text[start..start + len];
        let mark = digest(s);
        let are_files = self.are_files_with(s);
        if self.is_met(s, mark, are_files) {
            return false;
        }
        self.rows[self.count] = Seen { start, len, mark };
        self.noted[usize::from(mark)] = true;
        self.are_files = are_files;
        self.count += 1;
        true
    }
}
