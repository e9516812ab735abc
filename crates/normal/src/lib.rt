// Whether a path is normal. The pieces are not split: each four bytes in a row are looked at.
#![tactic(auto)]

ghost use Rattle.std.specs.Prelude.{◌≡◌, ◌&&◌, get_or, eqb};
ghost use Rattle.text.specs.Bytes.{slash};
ghost use Rattle.path.specs.Path.{normal};
ghost use Rattle.normal.specs.Scan.{nameless, names_behind};

use components::is_absolute;
use text::{DOT, SLASH};

// Below this length a path is looked at slash by slash: it is too short for a loop that works on many bytes at a time.
const SHORT: usize = 19;

// Whether w is a slash and no name stands behind it, but nothing, `.` or `..`; x, y and z are the next bytes. Each test is made, with no branch:
// a loop over it then works on many bytes at a time.
fn no_name(w: u8, x: u8, y: u8, z: u8) -> bool
    ensures { result ≡ eqb w slash && nameless x y z }
{
    (w == SLASH) & ((x == SLASH) | (x == DOT) & ((y == SLASH) | (y == DOT) & (z == SLASH)))
}

// Whether what begins with s is nothing, `.` or `..`, up to the next slash.
fn is_nameless(s: &[u8]) -> bool
    ensures { result ≡ nameless (get_or s.now 0 slash) (get_or s.now 1 slash) (get_or s.now 2 slash) }
{
    matches!(
        s,
        [] | [SLASH, ..] | [DOT] | [DOT, SLASH, ..] | [DOT, DOT] | [DOT, DOT, SLASH, ..]
    )
}

// Whether a name stands behind each slash of s, slash by slash: for a short path, and the few bytes at an end.
fn ends_in_names(s: &[u8]) -> bool
    ensures { result ≡ names_behind s.now }
{
    // By its place: what stands behind a slash is the rest from there on.
    for i in 0..s.len() {
        if s[i] == SLASH && is_nameless(&s[i + 1..]) {
            return false;
        }
    }
    true
}

// The same for a long path: each four bytes in a row are looked at by a loop that never leaves early, so that it works on many at a time, and then
// the last three.
fn has_many_names(s: &[u8]) -> bool
    ensures { result ≡ names_behind s.now }
{
    let mut bad = false;
    for i in 3..s.len() {
        bad |= no_name(s[i - 3], s[i - 2], s[i - 1], s[i]);
    }
    !bad && ends_in_names(&s[s.len().saturating_sub(3)..])
}

// Whether a name stands behind each slash of s.
fn has_names(s: &[u8]) -> bool
    ensures { result ≡ names_behind s.now }
{
    if s.len() < SHORT {
        ends_in_names(s)
    } else {
        has_many_names(s)
    }
}

// Whether s is a normal path: from the root, each piece a name, no final slash; or the root itself.
#[tactic(auto, using(crate::proofs::Names::normal_by))]
pub fn is_normal(s: &[u8]) -> bool
    ensures { result ≡ normal s.now }
{
    is_absolute(s) && (s.len() == 1 || has_names(s))
}
