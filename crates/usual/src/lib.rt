// Usual commands, taken in passing where nothing is wrong with them: one that is a byte alone, a flag, a text option, a key, or, in a text that is
// known to be plain, one with a string and those of its kind behind it. All else the record checker looks at: END, and what is wrong.
#![tactic(auto)]

ghost use Rattle.std.specs.Prelude.{◌≡◌, List, Bool, true, not, cond, ℕ, ◌+◌, ◌*◌, ◌≤◌, ◌<◌, length, get_or, take, drop, set, eqb};
ghost use Rattle.book.specs.Command.{begin, key, flag, text_option, end, width_of};
ghost use Rattle.book.specs.Rules.{own_rule};
ghost use Rattle.book.specs.State.{has, AllSeen};
ghost use Rattle.usual.specs.Usual.{Open, Passed, Keyed, Taken};

use book::{
    BASE_URL, DECLARATION_DIR, EXCLUDE, EXCLUDE_ITEM, EXTENDS, FILE, FILES, FLAG, FLAG_SLOTS,
    INCLUDE, INCLUDE_ITEM, KEY, KEY_SLOT, LAST_FLAG, LAST_TEXT, OUT_DIR, PATHS, PATHS_SLOT,
    REFERENCE, ROOT_DIR, ROOT_DIRS, STRIDE, Seen, TARGET, TEXT_OPTION, TEXT_SLOTS, piece,
    read_span, word_at,
};
use compare::digest;
use faults::{BookText, Tally};
use meeting::Keys;
use path_rules::obeys_lead;
use strings::LONGEST;
use text::from;

// The bytes of a flag, and of a text option.
const FLAG_STRIDE: usize = 3;

const TEXT_STRIDE: usize = 6;

// As many as `Keys` has room for.
const MOST_KEYS: u8 = 32;

// What is asked of a string that has no rule of its own.
fn is_any(_start: usize, _len: usize) -> bool
    ensures { result ≡ true }
{
    true
}

// Takes the commands with the byte op from the offset on, one behind the other, as many as fit: each has a string that lies in the text, is short enough and keeps
// its rule, and a record may have so many of them at most. The rule is handed in, so that the loop is compiled by itself for each.
// In a plain text alone: with the other rules of strings the loop would be long.
// The offset after them; where none fits it is the same, and no Option, here and below: the next command is looked at from it in either case. Commands, offset and
// tally are handed on by themselves, here and below: the tally alone is changed, and the record checker goes on with each of the three.
#[inline(always)]
#[tactic(auto, using(crate::specs::Usual::still))]
fn pass_run<R: Fn(usize, usize) -> bool>(
    text: &BookText<'_>,
    part: &[u8],
    at: usize,
    tally: &mut Tally,
    op: u8,
    most: u8,
    keeps: R,
) -> usize
    requires place { at ≤ length part.now }
    requires callable { R.IsAlwaysCallable keeps }
    requires open { Open tally.old.counts tally.old.last op most }
    requires rule { (start len : ℕ) (r : Bool) → start + len ≤ length text.now.bytes.now → R.post keeps start len r → r ≡ own_rule op (take len (drop start text.now.bytes.now)) }
    ensures { Passed part.now text.now.bytes.now tally.old.counts tally.old.last at tally.new.counts tally.new.last result }
{
    if !text.plain {
        return at;
    }
    let k = usize::from(op);
    let mut to = at;
    while tally.counts[k] < most && to + STRIDE <= part.len() && part[to] == op {
        let start = word_at(part, to + 1);
        let len = word_at(part, to + 3);
        if LONGEST < len || text.bytes.len() < start + len || !keeps(start, len) {
            return to;
        }
        tally.counts[k] += 1;
        tally.last = op;
        to += STRIDE;
    }
    to
}

// Takes the commands with a string from the offset on, where they may come now; a key is none of them. For each kind its opener, its limit and its rule stand here as
// constants, at one match on the byte: each is known where its run is compiled. What `faults` has as openers and limits stands here once more: looked up, they
// would be no constants.
#[inline(always)]
#[tactic(auto, using(crate::specs::Usual::still))]
fn pass_strings(text: &BookText<'_>, part: &[u8], at: usize, tally: &mut Tally, op: u8) -> usize
    requires place { at ≤ length part.now }
    requires begun { has tally.old.counts begin ≡ 0 → ⊥ }
    ensures { Passed part.now text.now.bytes.now tally.old.counts tally.old.last at tally.new.counts tally.new.last result }
{
    let stars = |start, len| text.is_pattern_at(start, len);
    let lead = |start, len| obeys_lead(piece(text.bytes, start, len));
    match op {
        FILE if tally.has(usize::from(FILES)) => pass_run(text, part, at, tally, op, 64, is_any),
        INCLUDE_ITEM | EXCLUDE_ITEM if tally.has(usize::from(op - 1)) => {
            pass_run(text, part, at, tally, op, 64, stars)
        }
        ROOT_DIR if tally.has(usize::from(ROOT_DIRS)) => {
            pass_run(text, part, at, tally, op, 8, is_any)
        }
        EXTENDS => pass_run(text, part, at, tally, op, 8, lead),
        REFERENCE => pass_run(text, part, at, tally, op, 16, lead),
        BASE_URL | OUT_DIR | DECLARATION_DIR => pass_run(text, part, at, tally, op, 1, is_any),
        TARGET if tally.does_follow(TARGET) && tally.has(KEY_SLOT) => {
            pass_run(text, part, at, tally, op, 8, is_any)
        }
        _ => at,
    }
}

// Takes a command that comes once, by its slot, where it comes for the first time. The offset after it, which is handed in.
fn pass_once(at: usize, next: usize, tally: &mut Tally, op: u8, k: usize) -> usize
    requires { k < 39 }
    ensures value { result ≡ cond (eqb (has tally.old.counts k) 0) next at }
    ensures counts_after { tally.new.counts ≡ cond (eqb (has tally.old.counts k) 0) (set tally.old.counts k 1) tally.old.counts }
    ensures last_after { tally.new.last ≡ cond (eqb (has tally.old.counts k) 0) op tally.old.last }
{
    if tally.has(k) {
        return at;
    }
    tally.counts[k] = 1;
    tally.last = op;
    next
}

// Takes the flag at the offset, where its id and its value are in range and it comes for the first time. The offset after it.
fn pass_flag(part: &[u8], at: usize, tally: &mut Tally) -> usize
    requires at_in_bounds { (at < length part.now) × (get_or part.now at 0 ≡ flag) }
    requires begun { has tally.old.counts begin ≡ 0 → ⊥ }
    ensures { (text : List ℕ) → Passed part.now text tally.old.counts tally.old.last at tally.new.counts tally.new.last result }
{
    if part.len() - at < FLAG_STRIDE || LAST_FLAG < part[at + 1] || 1 < part[at + 2] {
        return at;
    }
    let k = FLAG_SLOTS + usize::from(part[at + 1]);
    pass_once(at, at + FLAG_STRIDE, tally, FLAG, k)
}

// Takes the text option at the offset, where its id is in range, its string lies in the text and keeps the rules of all strings, and it comes for the first time. The
// offset after it.
fn pass_text(text: &BookText<'_>, part: &[u8], at: usize, tally: &mut Tally) -> usize
    requires at_in_bounds { (at < length part.now) × (get_or part.now at 0 ≡ text_option) }
    requires begun { has tally.old.counts begin ≡ 0 → ⊥ }
    ensures { Passed part.now text.now.bytes.now tally.old.counts tally.old.last at tally.new.counts tally.new.last result }
{
    if part.len() - at < TEXT_STRIDE || LAST_TEXT < part[at + 1] {
        return at;
    }
    let start = word_at(part, at + 2);
    let len = word_at(part, at + 4);
    if text.bytes.len() < start + len || !text.is_string(&text.bytes[start..start + len]) {
        return at;
    }
    let k = TEXT_SLOTS + usize::from(part[at + 1]);
    pass_once(at, at + TEXT_STRIDE, tally, TEXT_OPTION, k)
}

// Takes the key at the offset, where nothing is wrong with it. The offset after it.
fn pass_key(
    text: &BookText<'_>,
    part: &[u8],
    at: usize,
    tally: &mut Tally,
    keys: &mut Keys,
) -> usize
    requires at_in_bounds { (at < length part.now) × (get_or part.now at 0 ≡ key) }
    requires seen { AllSeen text.now.bytes.now keys.old }
    requires count { has tally.old.counts key ≡ length keys.old }
    ensures { Keyed part.now text.now.bytes.now tally.old.counts tally.old.last at keys.old tally.new.counts tally.new.last result keys.new }
{
    if part.len() - at < STRIDE || !tally.has(PATHS_SLOT) || MOST_KEYS <= tally.counts[KEY_SLOT] {
        return at;
    }
    let c = read_span(from(part, at));
    if text.bytes.len() < c.start + c.len {
        return at;
    }
    let s = &text.bytes[c.start..c.start + c.len];
    if !text.is_string(s) {
        return at;
    }
    let mark = digest(s);
    if keys.is_known(text.bytes, s, mark) {
        return at;
    }
    keys.push(Seen {
        start: c.start,
        len: c.len,
        mark,
    });
    tally.push(c, KEY_SLOT);
    at + STRIDE
}

// Takes what opens a list at the offset, where it comes for the first time, and the list's items behind it, whose byte is the next.
#[inline(always)]
fn pass_list(text: &BookText<'_>, part: &[u8], at: usize, tally: &mut Tally, op: u8) -> usize
    requires at_in_bounds { (at < length part.now) × (get_or part.now at 0 ≡ op) }
    requires alone { (width_of op ≡ 0) × (op ≡ end → ⊥) }
    requires begun { has tally.old.counts begin ≡ 0 → ⊥ }
    ensures { Passed part.now text.now.bytes.now tally.old.counts tally.old.last at tally.new.counts tally.new.last result }
{
    let next = pass_once(at, at + 1, tally, op, usize::from(op));
    if next == at {
        return at;
    }
    pass_strings(text, part, next, tally, op + 1)
}

// Takes the usual commands at the offset: none, one, or a run of one kind, with what opens its list or with its key before it. The offset after them. What is known of
// the keys is asked: it is a fact about the text and about the tally too, and `Keys` has neither. Each list has an arm of its own: its loop is compiled there.
pub fn pass(
    text: &BookText<'_>,
    part: &[u8],
    at: usize,
    tally: &mut Tally,
    keys: &mut Keys,
) -> usize
    requires begun { has tally.old.counts begin ≡ 0 → ⊥ }
    requires seen { AllSeen text.now.bytes.now keys.old }
    requires count { has tally.old.counts key ≡ length keys.old }
    ensures { Taken part.now text.now.bytes.now tally.old.counts tally.old.last at keys.old tally.new.counts tally.new.last result keys.new }
{
    // The record checker asks at the end too, where nothing is left to take.
    if part.len() <= at {
        return at;
    }
    let op = part[at];
    match op {
        KEY => {
            let next = pass_key(text, part, at, tally, keys);
            if next == at {
                return at;
            }
            pass_strings(text, part, next, tally, TARGET)
        }
        FLAG => pass_flag(part, at, tally),
        TEXT_OPTION => pass_text(text, part, at, tally),
        FILES => pass_list(text, part, at, tally, FILES),
        INCLUDE => pass_list(text, part, at, tally, INCLUDE),
        EXCLUDE => pass_list(text, part, at, tally, EXCLUDE),
        ROOT_DIRS => pass_list(text, part, at, tally, ROOT_DIRS),
        PATHS => pass_once(at, at + 1, tally, PATHS, PATHS_SLOT),
        _ => pass_strings(text, part, at, tally, op),
    }
}
