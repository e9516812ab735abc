// The end of a path: its last piece, its last component, and the path without it.
#![tactic(auto)]

ghost use Rattle.std.specs.Prelude.{◌≡◌, ◌+◌, ◌-◌, length, drop};
ghost use Rattle.emit.specs.Emit.{Holds};
ghost use Rattle.components.specs.Components.{split};
ghost use Rattle.ends.specs.Ends.{joined, trim_end, parent_of, last_piece};

use components::{lead_len, leads_dot};
use text::{DOT, SLASH, find_last, from, upto};

// Where the last piece of s begins.
pub fn last_start(s: &[u8]) -> usize
    ensures { result ≡ length s.now - length (last_piece s.now) }
{
    let Some(i) = find_last(s, SLASH) else {
        return 0;
    };
    i + 1
}

// What follows the last slash of s.
pub fn last_piece(s: &[u8]) -> &[u8]
    ensures { result.now ≡ last_piece s.now }
{
    from(s, last_start(s))
}

// s up to the end of its last component: empty where there is none. Looked for from the end.
#[tactic(auto, using(crate::proofs::Ends::tails))]
pub fn trim_end(s: &[u8]) -> &[u8]
    ensures { result.now ≡ joined (trim_end (split s.now)) }
{
    // Cut until neither a slash nor a `.` ends it: there are no pieces to go over.
    let mut t = s;
    loop {
        t = match t {
            [rest @ .., SLASH] | [rest @ .., SLASH, DOT] => rest,
            [DOT] => return &t[..0],
            _ => return t,
        };
    }
}

// Where the last component of what stands from a on ends: at a where there is none.
pub fn component_end(s: &[u8], a: usize) -> usize
    ensures { result ≡ a + length (joined (trim_end (split (drop a s.now)))) }
{
    a + trim_end(from(s, a)).len()
}

// Where a path without its last component ends.
pub fn parent_len(s: &[u8]) -> usize
    ensures { Holds result s.now (parent_of s.now) }
{
    let a = lead_len(s);
    let body = trim_end(&s[a..]);
    if body.is_empty() {
        // Nothing is dropped at `/` or in the empty path, and a `.` alone goes.
        return if leads_dot(s) { 0 } else { s.len() };
    }
    let Some(i) = find_last(body, SLASH) else {
        return a;
    };
    a + trim_end(&body[..i]).len()
}

// A path without its last component: Path::parent. It is also the directory of a record's path.
pub fn parent(s: &[u8]) -> &[u8]
    ensures { result.now ≡ parent_of s.now }
{
    upto(s, parent_len(s))
}
