// The pieces of a path between its slashes: what each is, where it ends, and the `/` or `.` in front.
#![tactic(auto)]

ghost use Rattle.std.specs.Prelude.{◌≡◌, length};
ghost use Rattle.text.specs.Bytes.{slash};
ghost use Rattle.components.specs.Components.{piece_of, is_skip, is_name, starts, leads_dot, lead_of};
ghost use Rattle.components.specs.Places.{piece_end};

use text::{DOT, SLASH, find_byte, from};

// What a piece between slashes is.
#[derive(Clone, Copy, PartialEq, Eq)]
pub enum Piece {
    // Nothing, or `.`
    Skip,
    // `..`
    Up,
    Name,
}

#[tactic(auto, using(crate::proofs::Pieces::kinds))]
pub fn piece_kind(p: &[u8]) -> Piece
    ensures { result ≡ piece_of p.now }
{
    match p {
        [] | [DOT] => Piece::Skip,
        [DOT, DOT] => Piece::Up,
        _ => Piece::Name,
    }
}

// Whether a piece is no component: nothing, or `.` Nothing calls it: it stays with its must-fail edit.
pub fn is_skipped(p: &[u8]) -> bool
    ensures { result ≡ is_skip (piece_of p.now) }
{
    piece_kind(p) == Piece::Skip
}

// Where the piece that begins at `at` ends.
pub fn piece_end(s: &[u8], at: usize) -> usize
    ensures { result ≡ piece_end at s.now }
{
    let Some(i) = find_byte(from(s, at), SLASH) else {
        return s.len().max(at);
    };
    at + i
}

// Whether a piece is a name: neither skipped nor `..`
pub fn is_name(p: &[u8]) -> bool
    ensures { result ≡ is_name (piece_of p.now) }
{
    piece_kind(p) == Piece::Name
}

// Whether s is a path from the root. `mapping` looks for a dot so: each is a test of one byte, by its name.
#[tactic(auto, using(crate::proofs::Components::firsts))]
pub fn is_absolute(s: &[u8]) -> bool
    ensures { result ≡ starts slash s.now }
{
    matches!(s, [SLASH, ..])
}

// Whether s is `.` or begins `./`
#[tactic(auto, using(crate::proofs::Components::leads))]
pub fn leads_dot(s: &[u8]) -> bool
    ensures { result ≡ leads_dot s.now }
{
    matches!(s, [DOT] | [DOT, SLASH, ..])
}

// How long the `/` or the `.` is that s begins with: 0 or 1.
pub fn lead_len(s: &[u8]) -> usize
    ensures { result ≡ length (lead_of s.now) }
{
    usize::from(is_absolute(s) || leads_dot(s))
}
