// What is wrong with a command, given those before it.
#![tactic(auto)]

ghost use Rattle.std.specs.Prelude.{ℕ, ◌≡◌, List, [], ◌∷◌, ◌++◌, Some, true, false, not, ◌&&◌, ◌||◌, ◌+◌, ◌<◌, ◌≤◌, length, get_or, set, take, drop, replicate, eqb, leb, IfOk};
ghost use Rattle.strings.specs.Strings.{plain_byte, string_rule};
ghost use Rattle.patterns.specs.Patterns.{pattern_rule};
ghost use Rattle.strings.specs.Scan.{tame_text};
ghost use Rattle.book.specs.Command.{begin, key, target};
ghost use Rattle.book.specs.Rules.{slot, openers, limits, in_order, too_many, text_of, own_rule, good_string, fault_of};
ghost use Rattle.book.specs.Refusals.{told};
ghost use Rattle.book.specs.State.{slotted, entry, has, pushed, texts, row_of};
ghost use Rattle.text.specs.Bytes.{Text};
ghost use Rattle.text.specs.Text.{each_of};
ghost use Rattle.faults.specs.Parts.{part_of};

use book::{
    BEGIN, BEGIN_SLOT, Cmd, EXCLUDE_ITEM, EXTENDS, FILE, FLAG, FLAG_SLOTS, Fault, INCLUDE_ITEM,
    KEY, LAST_FLAG, LAST_TEXT, MOST_RECORDS, REFERENCE, ROOT_DIR, SLOTS, TARGET, TARGET_SLOT,
    TEXT_OPTION, TEXT_SLOTS, piece,
};
use meeting::Paths;
use path_rules::{is_record_path_of, obeys_lead};
use patterns::{has_stars_apart_at, is_pattern, is_pattern_of};
use strings::{LONGEST, is_string};

// The least that a limit is.
const FEWEST: u8 = 8;

// How many parts of as many bytes as a string may have the longest text has, and one more: a string may end where the last of them does.
pub const PARTS: usize = 129;

// Where a text ends at the latest.
const TEXT_END: usize = 65536;

// A book's text, and what is known of it: whether all of it is plain, so that a string breaks none of the rules of all strings but by its length; whether all of it is
// tame, so that no string has a bracket or a `!` either; and else which parts of it are.
#[derive(Clone, Copy)]
pub struct BookText<'a> {
    pub bytes: &'a [u8],
    pub plain: bool,
    pub tame: bool,
    pub parts: [bool; PARTS],
    pub ghost known_plain: { plain ≡ true → each_of plain_byte bytes.now ≡ true },
    pub ghost known: { tame ≡ true → tame_text bytes.now ≡ true },
    pub ghost known_parts: { (i : ℕ) → get_or parts i false ≡ true → tame_text (part_of bytes.now i) ≡ true },
}

// Whether s keeps the rule of its own that a command with the byte op has for its string, where it may be known that s is tame.
fn own_rule(op: u8, tame: bool, s: &[u8]) -> bool
    requires { tame ≡ true → tame_text s.now ≡ true }
    ensures { result ≡ own_rule op s.now }
{
    match op {
        BEGIN => is_record_path_of(tame, s),
        INCLUDE_ITEM | EXCLUDE_ITEM => is_pattern_of(tame, s),
        EXTENDS | REFERENCE => obeys_lead(s),
        _ => true,
    }
}

impl<'a> BookText<'a> {
    // Whether it is known that a string of the text is tame: all of the text is, or the part in which the string begins and the one in which it ends, which have all
    // of it.
    #[inline(always)]
    fn is_tame_at(&self, start: usize, len: usize) -> bool
        ensures { result ≡ true → tame_text (take len (drop start self.now.bytes.now)) ≡ true }
    {
        if self.tame {
            return true;
        }
        if LONGEST < len || TEXT_END <= start {
            return false;
        }
        self.parts[start / LONGEST] && self.parts[(start + len) / LONGEST]
    }

    // Whether s, a part of the text, keeps the rules of all strings.
    #[inline(always)]
    #[tactic(auto, unfolding(strings::specs::Strings::string_rule))]
    pub fn is_string(&self, s: &[u8]) -> bool
        requires { self.now.plain ≡ true → each_of plain_byte s.now ≡ true }
        ensures { result ≡ string_rule s.now }
    {
        s.len() <= LONGEST && (self.plain || is_string(s))
    }

    // Whether a string of the text may be an item of include or exclude: where it is known to be tame, it is looked at where it stands.
    #[inline(always)]
    pub fn is_pattern_at(&self, start: usize, len: usize) -> bool
        ensures { result ≡ pattern_rule (take len (drop start self.now.bytes.now)) }
    {
        if self.is_tame_at(start, len) {
            has_stars_apart_at(self.bytes, start, len)
        } else {
            is_pattern(piece(self.bytes, start, len))
        }
    }

    // Whether a command's string lies in the text and keeps the rules of all strings.
    #[inline(always)]
    fn is_held(&self, c: Cmd) -> bool
        ensures { result ≡ (leb (c.start + c.len) (length self.now.bytes.now) && string_rule (text_of self.now.bytes.now c)) }
    {
        c.start <= self.bytes.len()
            && c.len <= self.bytes.len() - c.start
            && self.is_string(&self.bytes[c.start..c.start + c.len])
    }

    // Whether a command's string lies in the text and keeps its rules: refusal 4 where not. Inlined, and `is_held` too: by a call a record costs 25 instructions more.
    #[inline(always)]
    fn is_good(&self, c: Cmd) -> bool
        ensures { result ≡ good_string self.now.bytes.now c }
    {
        self.is_held(c)
            && own_rule(
                c.op,
                self.is_tame_at(c.start, c.len),
                &self.bytes[c.start..c.start + c.len],
            )
    }

    // What is wrong with a record's first command, if anything is: it must be BEGIN, and its path must meet none of those before. Where nothing is, its path
    // stands behind those.
    pub fn begin(&self, paths: &mut Paths<'_>, c: Cmd) -> Result<(), Fault>
        requires byte { c.op < 21 }
        requires same_text { paths.old.text ≡ self.now.bytes.now }
        ensures fault { told result ≡ fault_of self.now.bytes.now (λ k. 0) 0 (length paths.old.rows) [] (texts self.now.bytes.now paths.old.rows) c }
        ensures rows_after { IfOk result (λ u. (c.op ≡ begin) × (paths.new ≡ record { text = paths.old.text; rows = paths.old.rows ++ row_of self.now.bytes.now c ∷ [] })) }
    {
        if c.op != BEGIN {
            return Err(Fault::OutOfOrder);
        }
        if !self.is_good(c) {
            return Err(Fault::BadString);
        }
        if MOST_RECORDS <= paths.len() {
            return Err(Fault::TooMany);
        }
        if !paths.admit(c.start, c.len) {
            return Err(Fault::GivenBefore);
        }
        Ok(())
    }

    // The slot of a command in which nothing is wrong, behind the BEGIN of its record, or its lowest refusal. A key is not held against those before.
    pub fn fault_of(&self, tally: &Tally, c: Cmd) -> Result<usize, Fault>
        requires byte { c.op < 21 }
        requires begun { has tally.now.counts begin ≡ 0 → ⊥ }
        ensures fault { (n : ℕ) (paths : List Text) → told result ≡ fault_of self.now.bytes.now (has tally.now.counts) tally.now.last n [] paths c }
        ensures in_slot { IfOk result (λ k. slotted c ≡ Some k) }
    {
        let k = slot_of(c).ok_or(Fault::OutOfOrder)?;
        if !tally.in_order(c, k) {
            return Err(Fault::OutOfOrder);
        }
        if !self.is_good(c) {
            return Err(Fault::BadString);
        }
        if tally.is_too_many(c, k) {
            return Err(Fault::TooMany);
        }
        Ok(k)
    }
}

// What a command counts as, where its id and value are in range. That the byte is below 21 is asked here and of what looks it up in a table: a type for it would
// have to be opened at each.
pub fn slot_of(c: Cmd) -> Option<usize>
    requires { c.op < 21 }
    ensures { result ≡ slotted c }
{
    match c.op {
        FLAG if c.id <= LAST_FLAG && c.value <= 1 => Some(FLAG_SLOTS + usize::from(c.id)),
        TEXT_OPTION if c.id <= LAST_TEXT => Some(TEXT_SLOTS + usize::from(c.id)),
        FLAG | TEXT_OPTION => None,
        op => Some(usize::from(op)),
    }
}

// What a command must come after in its record: where it is one of a list, what opens the list, whose byte is the one before. Only BEGIN comes after nothing.
fn opener_of(op: u8) -> Option<u8>
    requires { op < 21 }
    ensures opener { result ≡ entry (get_or openers op 0) }
    ensures bound { get_or openers op 0 < 21 }
{
    match op {
        BEGIN => None,
        TARGET => Some(KEY),
        FILE | INCLUDE_ITEM | EXCLUDE_ITEM | KEY | ROOT_DIR => Some(op - 1),
        _ => Some(BEGIN),
    }
}

// How many of a command a record may have, of targets a key, where it may repeat.
fn limit_of(op: u8) -> Option<u8>
    requires { op < 21 }
    ensures { result ≡ entry (get_or limits op 0) }
{
    match op {
        FILE | INCLUDE_ITEM | EXCLUDE_ITEM => Some(64),
        EXTENDS | TARGET | ROOT_DIR => Some(8),
        KEY => Some(32),
        REFERENCE => Some(16),
        _ => None,
    }
}

// The command is the first of its slot, of which there are n before, or may repeat.
fn is_fresh(op: u8, n: u8) -> bool
    requires { op < 21 }
    ensures { result ≡ (not (eqb (get_or limits op 0) 0) || eqb n 0) }
{
    n == 0 || limit_of(op).is_some()
}

// What stands of a record: how many commands of each slot, of targets those of the last key, and the byte of the last command.
#[derive(Drop)]
pub struct Tally {
    pub counts: [u8; SLOTS],
    pub last: u8,
}

impl Tally {
    // Of a record of which BEGIN alone stands.
    pub fn begun() -> Self
        ensures { (result.counts ≡ set (replicate 39 0) begin 1) × (result.last ≡ begin) }
    {
        let mut counts = [0; SLOTS];
        counts[BEGIN_SLOT] = 1;
        Tally {
            counts,
            last: BEGIN,
        }
    }

    // Whether a command of the slot stands.
    pub fn has(&self, k: usize) -> bool
        requires { k < 39 }
        ensures { result ≡ not (eqb (has self.now.counts k) 0) }
    {
        self.counts[k] != 0
    }

    // What the command must come after is there.
    fn is_opened(&self, op: u8) -> bool
        requires { op < 21 }
        ensures { result ≡ (eqb (get_or openers op 0) 0 || not (eqb (has self.now.counts (get_or openers op 0)) 0)) }
    {
        opener_of(op).is_none_or(|opener| self.has(usize::from(opener)))
    }

    // A target comes after its key with only targets between.
    pub fn does_follow(&self, op: u8) -> bool
        ensures { result ≡ (not (eqb op target) || (eqb self.now.last key || eqb self.now.last target)) }
    {
        op != TARGET || self.last == KEY || self.last == TARGET
    }

    // Whether a command, whose slot is k, keeps the rules of order: refusal 3 where not.
    fn in_order(&self, c: Cmd, k: usize) -> bool
        requires { (c.op < 21) × (slotted c ≡ Some k) }
        ensures { result ≡ in_order (has self.now.counts) self.now.last c }
    {
        self.is_opened(c.op) && is_fresh(c.op, self.counts[k]) && self.does_follow(c.op)
    }

    // Whether a command, whose slot is k and which is no BEGIN, is one too many: refusal 5. Of none that may repeat may there be fewer than 8.
    fn is_too_many(&self, c: Cmd, k: usize) -> bool
        requires { (c.op < 21) × ((slotted c ≡ Some k) × (c.op ≡ begin → ⊥)) }
        ensures { (n : ℕ) → result ≡ too_many (has self.now.counts) 0 c n }
    {
        let m = self.counts[k];
        if m < FEWEST {
            return false;
        }
        limit_of(c.op).is_some_and(|most| most <= m)
    }

    // One command more, whose slot is k; a key counts its targets anew.
    pub fn push(&mut self, c: Cmd, k: usize)
        requires { (k < 39) × (has self.old.counts k < 255) }
        ensures counts_after { self.new.counts ≡ pushed self.old.counts c k }
        ensures last_after { self.new.last ≡ c.op }
    {
        self.counts[k] += 1;
        if c.op == KEY {
            self.counts[TARGET_SLOT] = 0;
        }
        self.last = c.op;
    }
}
