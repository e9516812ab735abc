// The rules of strings by their bytes: what refusal 4 tests in each string of a book, and 7 in a question.
#![tactic(auto)]

ghost use Rattle.std.specs.Prelude.{ℕ, ◌≡◌, [], ◌∷◌, ◌≤◌, Bool, true, ◌&&◌, eqb, length, take};
ghost use Rattle.text.specs.Bytes.{bytes};
ghost use Rattle.text.specs.Text.{some_of, each_of};
ghost use Rattle.strings.specs.Strings.{none_of, plain_byte, string_rule};
ghost use Rattle.strings.specs.Scan.{flag, tame_byte, tame_text, seen_tame};

use std::simd::prelude::*;

// The most bytes that a string has. That a string or a directory is no longer, and a base, a buffer or a book as long as it may be, is asked in clauses: a type
// for each would be wrapped at each call and unwrapped at each use. What a config or a record has brings its bound with it.
pub const LONGEST: usize = 512;

const LOWEST: u8 = 0x20;

const HIGHEST: u8 = 0x7E;

// The byte after space and `!`.
const LOWEST_TAME: u8 = 0x22;

const BACKSLASH: u8 = 0x5C;

const OPEN_BRACE: u8 = b'{';

const CLOSE_BRACE: u8 = b'}';

const OPEN_BRACKET: u8 = b'[';

const CLOSE_BRACKET: u8 = b']';

// What a brace has and its bracket lacks.
const BRACE_BIT: u8 = 0x20;

const BANG: u8 = b'!';

// Added to a byte, it raises the highest tame one to FF, the highest of all, so that one test tells whether a byte is in the range of the tame ones. A
// bracket and its brace still differ in the same bit.
const RAISE: u8 = 0xFF - HIGHEST;

// What the lowest tame byte is raised to.
const RAISED_LOWEST: u8 = LOWEST_TAME + RAISE;

// What an open brace is raised to.
const RAISED_BRACE: u8 = OPEN_BRACE + RAISE;

// How far the closing brace lies behind the open one.
const BRACES: u8 = CLOSE_BRACE - OPEN_BRACE;

// The bytes that are looked at in one step: four vectors.
const BLOCK: usize = 64;

// 1 where x and y are the same byte, else 0. Nothing calls it: it stays with its must-fail edit.
pub fn same(x: u8, y: u8) -> u8
    ensures { result ≡ flag (eqb x y) }
{
    u8::from(x == y)
}

// Whether ok holds of each byte of s. It never leaves early: such a loop works on many bytes at a time. The verdict is gathered in a byte, since
// where it is a bool and a caller tests it, the compiled loop goes byte by byte, in five times the instructions.
fn holds_of_each<F: Fn(u8) -> bool>(s: &[u8], ok: F) -> bool
    requires { F.IsAlwaysCallable ok }
    ensures { (test : ℕ → Bool) → ((x : ℕ) (r : Bool) → F.post ok x r → r ≡ test x) → result ≡ each_of test s.now }
{
    s.iter().fold(0, |bad, x| bad | u8::from(!ok(*x))) == 0
}

// Whether a string may have the byte x.
fn is_plain_byte(x: u8) -> bool
    ensures { result ≡ plain_byte x }
{
    (LOWEST..=HIGHEST).contains(&x) && x != BACKSLASH
}

// Whether s is a string: short enough, and each byte plain.
pub fn is_string(s: &[u8]) -> bool
    ensures { result ≡ string_rule s.now }
{
    s.len() <= LONGEST && holds_of_each(s, is_plain_byte)
}

// Whether x is none of `{ } [ ] !`. Brace and bracket of a kind differ in one bit: side by side they cost one test.
#[tactic(auto, unfolding(text::specs::Text::some_of))]
fn is_bare_byte(x: u8) -> bool
    ensures { result ≡ none_of (bytes "{}[]!") x }
{
    x != OPEN_BRACE && x != OPEN_BRACKET && x != CLOSE_BRACE && x != CLOSE_BRACKET && x != BANG
}

// Whether s has none of `{ } [ ] !`.
pub fn lacks_brackets(s: &[u8]) -> bool
    ensures { result ≡ each_of (none_of (bytes "{}[]!")) s.now }
{
    holds_of_each(s, is_bare_byte)
}

// Whether x is one of three bytes, by tests side by side, for loops that never leave early.
#[tactic(auto, unfolding(text::specs::Text::some_of))]
fn one_of(x: u8, a: u8, b: u8, c: u8) -> bool
    ensures { result ≡ some_of (eqb x) (a ∷ b ∷ c ∷ []) }
{
    x == a || x == b || x == c
}

// Whether s has none of three bytes. Two are asked for by naming one again.
pub fn lacks(s: &[u8], a: u8, b: u8, c: u8) -> bool
    ensures { result ≡ each_of (none_of (a ∷ b ∷ c ∷ [])) s.now }
{
    holds_of_each(s, |x| !one_of(x, a, b, c))
}

// The rules of the strings of one text. Where the text is tame, as most are, each byte that no string or no pattern may have is known to be
// missing, and only the rest is tested.

// Whether x is tame. A bracket and its brace differ in one bit: with it set, one range holds both.
fn is_tame_byte(x: u8) -> bool
    ensures { result ≡ tame_byte x }
{
    (LOWEST_TAME..=HIGHEST).contains(&x) && !(OPEN_BRACE..=CLOSE_BRACE).contains(&(x | BRACE_BIT))
}

// What is seen of some bytes, lane by lane, each of them raised: the least of them; and with the brace bit set, the least distance above a raised open
// brace, where what is below one counts as far above it. That is all that a loop over a text need keep: the tests are made once, behind it. The loop of
// `holds_of_each`, which makes them at each byte, takes 34 instructions for 32 bytes, and that over blocks 29 for 64.
#[derive(Drop)]
struct Seen {
    least: u8x16,
    above: u8x16,
    // What a vector in a struct does not say of itself.
    ghost full: { (length least ≡ 16) × (length above ≡ 16) },
}

// What is seen of the first sixteen bytes of s.
#[inline(always)]
fn seen_in(s: &[u8]) -> Seen
    requires { 16 ≤ length s.now }
    ensures { seen_tame result.least result.above ≡ tame_text (take 16 s.now) }
{
    let raised = u8x16::from_slice(s) + u8x16::splat(RAISE);
    let above = (raised | u8x16::splat(BRACE_BIT)) - u8x16::splat(RAISED_BRACE);
    Seen {
        least: raised,
        above,
    }
}

// What is seen where a and b are.
#[inline(always)]
fn seen_in_both(a: Seen, b: Seen) -> Seen
    ensures { seen_tame result.least result.above ≡ seen_tame a.least a.above && seen_tame b.least b.above }
{
    Seen {
        least: a.least.simd_min(b.least),
        above: a.above.simd_min(b.above),
    }
}

// What is seen of the first block of s.
#[inline(always)]
fn seen_in_block(s: &[u8]) -> Seen
    requires { 64 ≤ length s.now }
    ensures { seen_tame result.least result.above ≡ tame_text (take 64 s.now) }
{
    let a = seen_in_both(seen_in(s), seen_in(&s[16..]));
    let b = seen_in_both(seen_in(&s[32..]), seen_in(&s[48..]));
    seen_in_both(a, b)
}

// Whether all that is seen is tame.
#[inline(always)]
fn is_seen_tame(seen: Seen) -> bool
    ensures { result ≡ seen_tame seen.least seen.above }
{
    let low = seen.least.simd_lt(u8x16::splat(RAISED_LOWEST));
    let bracket = seen.above.simd_le(u8x16::splat(BRACES));
    !(low | bracket).any()
}

// Whether s, which has a block at least, is tame, in one pass by whole blocks: no byte is looked at alone. The last block ends where s does, and may
// lie over a part of the one before. It is the first that is looked at, so that there is something seen to begin with.
fn is_tame_by_blocks(s: &[u8]) -> bool
    requires { 64 ≤ length s.now }
    ensures { result ≡ tame_text s.now }
{
    let n = s.len() - BLOCK;
    let mut seen = seen_in_block(&s[n..]);
    let mut i = 0;
    while i < n {
        seen = seen_in_both(seen, seen_in_block(&s[i..]));
        i += BLOCK;
    }
    is_seen_tame(seen)
}

// Whether s is tame.
pub fn is_tame(s: &[u8]) -> bool
    ensures { result ≡ tame_text s.now }
{
    if BLOCK <= s.len() {
        return is_tame_by_blocks(s);
    }
    holds_of_each(s, is_tame_byte)
}

// Whether s is a string, where the text that it is a part of may be known to be tame: a fact about that text, and not about s. Nothing calls it: it stays with its must-fail
// edit.
#[tactic(auto, using(crate::proofs::Tame::tame_string), unfolding(crate::specs::Strings::string_rule))]
pub fn is_string_of(tame: bool, s: &[u8]) -> bool
    requires { tame ≡ true → tame_text s.now ≡ true }
    ensures { result ≡ string_rule s.now }
{
    s.len() <= LONGEST && (tame || holds_of_each(s, is_plain_byte))
}
