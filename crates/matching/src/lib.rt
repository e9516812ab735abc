// Whether an item of files, include or exclude, built in a directory, matches a path; the extensions that a config takes in.
#![tactic(auto)]

ghost use Rattle.std.specs.Prelude.{◌≡◌, not, ◌&&◌, ◌||◌, ◌+◌, ◌≤◌, length};
ghost use Rattle.text.specs.Bytes.{star};
ghost use Rattle.text.specs.Text.{some_of};
ghost use Rattle.ends.specs.Ends.{extension};
ghost use Rattle.path.specs.Path.{same_path};
ghost use Rattle.glob.specs.Glob.{glob_of};
ghost use Rattle.tsconfig.specs.Build.{adjusted};
ghost use Rattle.tsconfig.specs.Claims.{allowed, outside, ends, is_special, implied, matched};

use emit::Output;
use ends::last_piece;
use file_names::extension;
use matcher::matches;
use names::{is_js_extension, is_ts_extension};
use path::same_path;
use text::{DOT, QUESTION, SLASH, STAR, same_text};
use values::adjust;

// The length of a buffer that is long enough for most items, and of one that is for all. A buffer is set to zero first: most items take a short
// one (DECISIONS 6).
const SHORT: usize = 256;

const LONG: usize = 1100;

// Whether a config takes in the path's extension, where js says whether JavaScript's are allowed.
pub fn is_allowed(js: bool, path: &[u8]) -> bool
    ensures { result ≡ allowed js (extension path.now) }
{
    extension(path).is_some_and(|own| is_ts_extension(own) || js && is_js_extension(own))
}

// Whether the path is no program's input: it has no extension, or JavaScript's where that is not allowed.
pub fn is_outside(js: bool, path: &[u8]) -> bool
    ensures { result ≡ outside js (extension path.now) }
{
    extension(path).is_none_or(|own| !js && is_js_extension(own))
}

// Whether the last byte of s is b.
fn ends_with(s: &[u8], b: u8) -> bool
    ensures { result ≡ ends b s.now }
{
    s.ends_with(&[b])
}

fn is_special(b: u8) -> bool
    ensures { result ≡ is_special b }
{
    matches!(b, DOT | STAR | QUESTION)
}

fn has_special(s: &[u8]) -> bool
    ensures { result ≡ some_of is_special s.now }
{
    s.iter().any(|b| is_special(*b))
}

// The pattern with the implicit `/**/*` behind it, where its last piece asks for it.
fn imply<'a>(p: &'a [u8], buffer: &'a mut [u8]) -> &'a [u8]
    requires { length p.now + 5 ≤ length buffer.old }
    ensures { result.now ≡ implied p.now }
{
    if has_special(last_piece(p)) {
        return p;
    }
    let mut pattern = Output::new(buffer);
    pattern.put_text(p);
    pattern.put_text(if ends_with(p, SLASH) {
        b"**/*"
    } else {
        b"/**/*"
    });
    pattern.into_text()
}

// Whether a pattern with nothing implied matches the path: one that ends in a star only where the extension is taken in.
fn is_matched_by(js: bool, path: &[u8], p: &[u8]) -> bool
    ensures { result ≡ ((not (ends star p.now) || allowed js (extension path.now)) && glob_of p.now path.now) }
{
    (!ends_with(p, STAR) || is_allowed(js, path)) && matches(p, path)
}

// Whether the pattern matches the path.
fn is_matched<const N: usize>(js: bool, path: &[u8], p: &[u8]) -> bool
    requires room { length p.now + 5 ≤ N }
    requires few { N ≤ 1100 }
    ensures { result ≡ matched js path.now p.now }
{
    if same_text(p, path) {
        return true;
    }
    let mut buffer = [0u8; N];
    is_matched_by(js, path, imply(p, &mut buffer))
}

// Two and two of the four that follow differ in the one function that they call. It takes other things: handed on as a closure its promise would stand in
// the clauses and at each call. Whether JavaScript is taken in is a datum here and above: an option of the config.

// Whether an item of include or exclude, built in the directory, matches the path, where the built item is within N bytes.
fn is_item_matched_within<const N: usize>(js: bool, path: &[u8], dir: &[u8], s: &[u8]) -> bool
    requires room { length dir.now + length s.now + 6 ≤ N }
    requires few { N ≤ 1100 }
    ensures { result ≡ matched js path.now (adjusted dir.now dir.now s.now) }
{
    let mut buffer = [0u8; N];
    is_matched::<N>(js, path, adjust(dir, dir, s, &mut buffer))
}

// Whether an item of include or exclude, built in the directory, matches the path.
pub fn is_item_matched(js: bool, path: &[u8], dir: &[u8], s: &[u8]) -> bool
    requires { (length dir.now ≤ 512) × (length s.now ≤ 512) }
    ensures { result ≡ matched js path.now (adjusted dir.now dir.now s.now) }
{
    if dir.len() + s.len() < SHORT - 6 {
        is_item_matched_within::<SHORT>(js, path, dir, s)
    } else {
        is_item_matched_within::<LONG>(js, path, dir, s)
    }
}

// Whether an item of files, built in the directory, is the path, where the built item is within N bytes.
fn is_file_within<const N: usize>(path: &[u8], dir: &[u8], s: &[u8]) -> bool
    requires room { length dir.now + length s.now + 6 ≤ N }
    requires few { N ≤ 1100 }
    ensures { result ≡ same_path (adjusted dir.now dir.now s.now) path.now }
{
    let mut buffer = [0u8; N];
    same_path(adjust(dir, dir, s, &mut buffer), path)
}

// Whether an item of files, built in the directory, is the path.
pub fn is_file(path: &[u8], dir: &[u8], s: &[u8]) -> bool
    requires { (length dir.now ≤ 512) × (length s.now ≤ 512) }
    ensures { result ≡ same_path (adjusted dir.now dir.now s.now) path.now }
{
    if dir.len() + s.len() < SHORT - 6 {
        is_file_within::<SHORT>(path, dir, s)
    } else {
        is_file_within::<LONG>(path, dir, s)
    }
}
