// The rule of the items of include and exclude: what refusal 4 tests in a pattern.
#![tactic(auto)]

ghost use Rattle.std.specs.Prelude.{◌≡◌, ◌≤◌, ◌+◌, ◌&&◌, true, leb, length, take, drop};
ghost use Rattle.text.specs.Bytes.{star};
ghost use Rattle.strings.specs.Scan.{tame_text};
ghost use Rattle.patterns.specs.Patterns.{pattern_text, pattern_rule};
ghost use Rattle.patterns.specs.Scan.{crowded, stars_apart, crowd_bits};

use names::strip_config_dir;
use std::simd::prelude::*;
use strings::lacks_brackets;
use text::{LANES, SLASH, STAR, from, upto};

// Below this length a text is looked at byte by byte where most bytes need but one test.
const SHORT: usize = 48;

// The bytes that a block reads: its places, and the two bytes behind the last.
const REACH: usize = LANES + 2;

// Whether a star between x and z has another beside it, and no slash. The slashes have a branch of their own: one expression of the four tests
// takes a third more instructions on a short text of stars.
fn is_crowded(x: u8, z: u8) -> bool
    ensures { result ≡ crowded x star z }
{
    if x == SLASH || z == SLASH {
        return false;
    }
    x == STAR || z == STAR
}

// Whether two adjacent stars are a whole component wherever they stand in s, star by star: for a short text.
fn has_few_apart(s: &[u8]) -> bool
    ensures { result ≡ stars_apart s.now }
{
    // By the place: the middle byte of three is looked at first, and mostly alone.
    for i in 2..s.len() {
        if s[i - 1] == STAR && is_crowded(s[i - 2], s[i]) {
            return false;
        }
    }
    true
}

// The same for a long text: each three bytes in a row are looked at, and the loop never leaves early, so that it works on many at a time.
fn has_many_apart(s: &[u8]) -> bool
    ensures { result ≡ stars_apart s.now }
{
    let mut crowd = false;
    for i in 2..s.len() {
        crowd |= (s[i - 1] == STAR) & is_crowded(s[i - 2], s[i]);
    }
    !crowd
}

// Whether two adjacent stars are a whole component wherever they stand in s.
fn has_stars_apart(s: &[u8]) -> bool
    ensures { result ≡ stars_apart s.now }
{
    if s.len() < SHORT {
        has_few_apart(s)
    } else {
        has_many_apart(s)
    }
}

// Which of the first sixteen places of s are crowded, a bit for each: three bytes in a row with a star in the middle, a star beside it and no
// slash. By vectors, for a loop over the places is unrolled byte by byte where it stands in another loop.
#[inline(always)]
fn crowds(s: &[u8]) -> u64
    requires { 18 ≤ length s.now }
    ensures { result ≡ crowd_bits s.now }
{
    let x = u8x16::from_slice(s);
    let y = u8x16::from_slice(&s[1..]);
    let z = u8x16::from_slice(&s[2..]);
    let star = u8x16::splat(STAR);
    let slash = u8x16::splat(SLASH);
    let stars = y.simd_eq(star) & (x.simd_eq(star) | z.simd_eq(star));
    (stars & x.simd_ne(slash) & z.simd_ne(slash)).to_bitmask()
}

// Whether none of the first sixteen places of s is crowded whose three bytes are among the first n: the bytes behind those are another text's.
#[inline(always)]
fn is_block_apart(s: &[u8], n: usize) -> bool
    requires { (3 ≤ n) × (18 ≤ length s.now) }
    ensures { stars_apart (take n s.now) ≡ result && stars_apart (drop 16 (take n s.now)) }
{
    let bits = crowds(s);
    bits == 0 || n - 2 <= bits.trailing_zeros() as usize
}

// Whether two adjacent stars are a whole component wherever they stand in the first len bytes of s, by blocks that may reach behind those.
#[inline(always)]
fn has_blocks_apart(s: &[u8], len: usize) -> bool
    requires { (3 ≤ len) × (len + 18 ≤ length s.now) }
    ensures { result ≡ stars_apart (take len s.now) }
{
    for i in (0..len - 2).step_by(LANES) {
        if !is_block_apart(&s[i..], len - i) {
            return false;
        }
    }
    true
}

// Whether a text of n bytes has as many as a block reads behind the len bytes from start on.
fn reaches(n: usize, start: usize, len: usize) -> bool
    ensures { result ≡ leb (start + len + 18) n }
{
    start <= n && len <= n - start && REACH <= n - start - len
}

// Whether two adjacent stars are a whole component wherever they stand in the len bytes of a text from start on, with no look behind those: for
// the last pieces of a text. A function of its own, so that the loops that the other is inlined into stay small.
#[cold]
#[inline(never)]
fn has_piece_apart(text: &[u8], start: usize, len: usize) -> bool
    ensures { result ≡ stars_apart (take len (drop start text.now)) }
{
    has_stars_apart(upto(from(text, start), len))
}

// Whether two adjacent stars are a whole component wherever they stand in the len bytes of a text from start on. Sixteen places are looked at in
// one step also where the piece is shorter, as long as the text goes on behind it.
#[inline(always)]
pub fn has_stars_apart_at(text: &[u8], start: usize, len: usize) -> bool
    ensures { result ≡ stars_apart (take len (drop start text.now)) }
{
    if len < 3 {
        return true;
    }
    if reaches(text.len(), start, len) {
        return has_blocks_apart(&text[start..], len);
    }
    has_piece_apart(text, start, len)
}

// Whether s, which a leading `${configDir}` is no part of, may be an item of include or exclude.
fn is_pattern_text(s: &[u8]) -> bool
    ensures { result ≡ pattern_text s.now }
{
    lacks_brackets(s) && has_stars_apart(s)
}

// Whether s may be an item of include or exclude.
pub fn is_pattern(s: &[u8]) -> bool
    ensures { result ≡ pattern_rule s.now }
{
    is_pattern_text(strip_config_dir(s).unwrap_or(s))
}

// The same for a part of a text that may be known to be tame, a fact about that text: then it has no bracket, and so no `${configDir}`.
pub fn is_pattern_of(tame: bool, s: &[u8]) -> bool
    requires { tame ≡ true → tame_text s.now ≡ true }
    ensures { result ≡ pattern_rule s.now }
{
    if tame {
        has_stars_apart(s)
    } else {
        is_pattern(s)
    }
}
