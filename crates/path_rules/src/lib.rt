// The rules of paths: what refusal 4 tests in a record's path, an extends entry and a reference, and 7 in a path that is asked about.
#![tactic(auto)]

ghost use Rattle.std.specs.Prelude.{ℕ, ◌≡◌, ◌≤◌, ◌<◌, ◌+◌, true, length};
ghost use Rattle.text.specs.Bytes.{bytes};
ghost use Rattle.text.specs.Text.{each_of};
ghost use Rattle.strings.specs.Strings.{none_of};
ghost use Rattle.strings.specs.Scan.{tame_text};
ghost use Rattle.path_rules.specs.Paths.{record_path, lead_rule, asked_path};
ghost use Rattle.path_rules.specs.Scan.{plain_behind};

use components::is_absolute;
use normal::is_normal;
use std::simd::prelude::*;
use strings::{is_string, lacks, lacks_brackets};
use text::{LANES, QUESTION, SLASH, STAR};

const HASH: u8 = b'#';

// A block's places, and the byte before the first. A shorter path has no block.
const REACH: usize = LANES + 1;

// The bits that a dot and a slash lack of a `?`.
const LACKED: u8 = 0x11;

// Whether each of the sixteen bytes behind a place is none of `* ? #`, and behind a slash neither a slash nor a dot. It says no of a few others
// too, which few paths have: one test finds each byte up to `*`, as `#` is, and the other finds `?` and what becomes one by the bits that each
// byte behind a slash is given.
#[inline(always)]
fn is_block_plain(s: &[u8], at: usize) -> bool
    requires { at + 17 ≤ length s.now }
    ensures { result ≡ true → (j : ℕ) → j < 16 → plain_behind s.now (at + j) ≡ true }
{
    let x = u8x16::from_slice(&s[at..]);
    let y = u8x16::from_slice(&s[at + 1..]);
    let given = x
        .simd_eq(u8x16::splat(SLASH))
        .select(u8x16::splat(LACKED), u8x16::splat(0));
    let found = y.simd_le(u8x16::splat(STAR)) | (y | given).simd_eq(u8x16::splat(QUESTION));
    found.to_bitmask() == 0
}

// The same of each byte of s but the first. The last block ends where s does, and may lie over a part of the one before. By `while`: with `step_by`
// each turn takes three instructions more.
fn has_plain_blocks(s: &[u8]) -> bool
    requires { 17 ≤ length s.now }
    ensures { result ≡ true → (k : ℕ) → k + 1 < length s.now → plain_behind s.now k ≡ true }
{
    let n = s.len() - REACH;
    let mut at = 0;
    while at < n {
        if !is_block_plain(s, at) {
            return false;
        }
        at += LANES;
    }
    is_block_plain(s, n)
}

// Whether s, which has none of `{ } [ ] !`, is known at one look to be the path of a record, as most are: a long one, where no name begins with a
// dot. What it says no of may still be one.
fn is_plain_path(s: &[u8]) -> bool
    requires { each_of (none_of (bytes "{}[]!")) s.now ≡ true }
    ensures { result ≡ true → record_path s.now ≡ true }
{
    REACH <= s.len() && is_absolute(s) && s[s.len() - 1] != SLASH && has_plain_blocks(s)
}

// Whether s, which has none of `{ } [ ] !`, may be the path of a record, rule by rule. A function of its own, which is seldom called: where it is
// inlined, the check of a book takes more instructions.
#[cold]
#[inline(never)]
fn keeps_each_rule(s: &[u8]) -> bool
    requires { each_of (none_of (bytes "{}[]!")) s.now ≡ true }
    ensures { result ≡ record_path s.now }
{
    1 < s.len() && lacks(s, STAR, QUESTION, HASH) && is_normal(s)
}

// The same, at one look where that is enough.
fn is_bare_path(s: &[u8]) -> bool
    requires { each_of (none_of (bytes "{}[]!")) s.now ≡ true }
    ensures { result ≡ record_path s.now }
{
    is_plain_path(s) || keeps_each_rule(s)
}

// Whether s may be the path of a record. Called by host/strings_bench alone, which measures it.
pub fn is_record_path(s: &[u8]) -> bool
    ensures { result ≡ record_path s.now }
{
    lacks_brackets(s) && is_bare_path(s)
}

// The same for a part of a text that may be known to be tame, a fact about that text: then no bracket is looked for.
pub fn is_record_path_of(tame: bool, s: &[u8]) -> bool
    requires { tame ≡ true → tame_text s.now ≡ true }
    ensures { result ≡ record_path s.now }
{
    (tame || lacks_brackets(s)) && is_bare_path(s)
}

// Whether s may be an extends entry or a reference: from the root, it is normal.
#[tactic(auto, unfolding(crate::specs::Paths::lead_rule))]
pub fn obeys_lead(s: &[u8]) -> bool
    ensures { result ≡ lead_rule s.now }
{
    !is_absolute(s) || is_normal(s)
}

// Whether s may be asked about.
#[tactic(auto, using(crate::proofs::Ways::asked_by))]
pub fn is_asked_path(s: &[u8]) -> bool
    ensures { result ≡ asked_path s.now }
{
    is_string(s) && lacks(s, QUESTION, HASH, HASH) && is_normal(s)
}
