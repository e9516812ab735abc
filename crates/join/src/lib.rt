// Joining paths: `Path::join`, and `normalize_with` of src/path.rs.
#![tactic(auto)]

ghost use Rattle.std.specs.Prelude.{◌≡◌, ◌++◌, ◌+◌, ◌≤◌, length};
ghost use Rattle.emit.specs.Emit.{Room};
ghost use Rattle.emit.specs.Output.{Puts, Becomes, text_of};
ghost use Rattle.components.specs.Components.{split};
ghost use Rattle.join.specs.Join.{joint, push_of, join_of, step_of, walk_of, normalize_with, slash_if};
ghost use Rattle.join.specs.Plain.{opens_name, plain_names};

use components::{Piece, is_absolute, piece_kind};
use emit::Output;
use ends::parent_len;
use text::{DOT, SLASH};

// Whether a slash has to stand between a path and a name joined to it.
#[tactic(auto, using(crate::proofs::Buffer::joints))]
pub fn wants_slash(s: &[u8]) -> bool
    ensures { joint s.now ≡ slash_if result }
{
    !matches!(s, [] | [.., SLASH])
}

// Writes a slash, where it is to stand apart, and then s. A flag says which, since the path is borrowed while it is asked whether it wants a slash.
fn put_joined(out: &mut Output, apart: bool, s: &[u8])
    requires { Room out.old.at (slash_if apart ++ s.now) }
    ensures { Puts (slash_if apart ++ s.now) out.old out.new }
{
    if apart {
        out.put(SLASH);
    }
    out.put_text(s);
}

// Writes sub joined to base: Path::join
pub fn join(out: &mut Output, base: &[u8], sub: &[u8])
    requires { Room out.old.at (join_of base.now sub.now) }
    ensures { Puts (join_of base.now sub.now) out.old out.new }
{
    let replaces = is_absolute(sub);
    if replaces {
        out.put_text(sub);
        return;
    }
    out.put_text(base);
    put_joined(out, wants_slash(base), sub);
}

// Joins a name to the path that was written.
fn push(path: &mut Output, name: &[u8])
    requires { path.old.at + 1 + length name.now ≤ length path.old.bytes.now }
    ensures { Becomes (push_of (text_of path.old) name.now) path.old path.new }
{
    let apart = wants_slash(path.text());
    put_joined(path, apart, name);
}

// One piece of a subpath, from the path that was written: push_normalized_component
fn step(path: &mut Output, piece: &[u8])
    requires { path.old.at + 1 + length piece.now ≤ length path.old.bytes.now }
    ensures { Becomes (step_of (text_of path.old) piece.now) path.old path.new }
{
    match piece_kind(piece) {
        Piece::Skip => {}
        Piece::Up => {
            let end = parent_len(path.text());
            path.truncate(end);
        }
        Piece::Name => push(path, piece),
    }
}

// The pieces of a subpath one after the other.
fn push_pieces(path: &mut Output, sub: &[u8])
    requires { path.old.at + 1 + length sub.now ≤ length path.old.bytes.now }
    ensures { Becomes (walk_of (text_of path.old) (split sub.now)) path.old path.new }
{
    for piece in sub.split(|x| *x == SLASH) {
        step(path, piece);
    }
}

// Whether a byte begins a name, where a piece begins: neither the slash behind an empty piece nor a dot.
#[inline(always)]
fn opens_name(x: u8) -> bool
    ensures { result ≡ opens_name x }
{
    (x != SLASH) & (x != DOT)
}

// Whether each piece of s is told at once to be a name. (A name that begins with a dot is left to the way piece by piece.) The loop never leaves early, so that it works on
// many bytes at a time.
fn has_plain_names(s: &[u8]) -> bool
    ensures { result ≡ plain_names s.now }
{
    if s.is_empty() {
        return false;
    }
    if !opens_name(s[0]) {
        return false;
    }
    let mut plain = true;
    for i in 1..s.len() {
        plain &= (s[i - 1] != SLASH) | opens_name(s[i]);
    }
    plain & (s[s.len() - 1] != SLASH)
}

// `base` with `sub` joined to it piece by piece, written to output of which nothing is written. It is inlined, so that where the output is the caller's own its count of bytes
// stands in a register.
#[inline(always)]
pub fn normalize(path: &mut Output, base: &[u8], sub: &[u8])
    requires empty { path.old.at ≡ 0 }
    requires room { length base.now + 1 + length sub.now ≤ length path.old.bytes.now }
    ensures { Becomes (normalize_with base.now sub.now) path.old path.new }
{
    if sub.is_empty() {
        return;
    }
    if is_absolute(sub) {
        path.put_text(sub);
        return;
    }
    path.put_text(base);
    if has_plain_names(sub) {
        push(path, sub);
        return;
    }
    push_pieces(path, sub);
}

// The same, in a buffer. `values` and `matching` have three such lines too: what is between differs.
pub fn normalize_with<'a>(base: &[u8], sub: &[u8], buffer: &'a mut [u8]) -> &'a [u8]
    requires { length base.now + 1 + length sub.now ≤ length buffer.old }
    ensures { result.now ≡ normalize_with base.now sub.now }
{
    let mut path = Output::new(buffer);
    normalize(&mut path, base, sub);
    path.into_text()
}
