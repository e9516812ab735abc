// The built forms of a record's strings, in lent buffers.
#![tactic(auto)]

ghost use Rattle.std.specs.Prelude.{◌≡◌, ◌+◌, ◌≤◌, length};
ghost use Rattle.ends.specs.Ends.{parent_of};
ghost use Rattle.join.specs.Join.{normalize_with};
ghost use Rattle.emit.specs.Output.{Becomes};
ghost use Rattle.book.specs.Record.{single, record_path_of};
ghost use Rattle.book.specs.Command.{base_url};
ghost use Rattle.record.specs.Read.{read};
ghost use Rattle.tsconfig.specs.Parsed.{placed, own_base};
ghost use Rattle.tsconfig.specs.Build.{without_slashes, in_config_dir, substituted, adjusted};

use book::BASE_URL;
use emit::Output;
use join::{join, normalize, normalize_with};
use names::has_config_dir;
use record::Record;
use text::{SLASH, from};

// How many bytes `${configDir}` has: dropped where it was seen to lead, and not looked for again.
const CONFIG_DIR_LEN: usize = 12;

// s without the slashes that it begins with.
fn without_slashes(s: &[u8]) -> &[u8]
    ensures { result.now ≡ without_slashes s.now }
{
    // A `match`, and no method of Option: a closure would have to say once more that the place lies in s.
    match s.iter().position(|x| *x != SLASH) {
        Some(i) => &s[i..],
        None => b"",
    }
}

// What follows the `${configDir}` of s, joined to the directory in output of which nothing is written.
fn put_in_config_dir(path: &mut Output, dir: &[u8], s: &[u8])
    requires empty { path.old.at ≡ 0 }
    requires room { length dir.now + 1 + length s.now ≤ length path.old.bytes.now }
    ensures { Becomes (in_config_dir dir.now s.now) path.old path.new }
{
    join(path, dir, without_slashes(from(s, CONFIG_DIR_LEN)));
}

// The same, in a buffer. Buffers are of fixed length, here and above: nothing takes memory from a heap. What fills them and gives what it holds is three lines in
// each, and what is between them differs.
fn in_config_dir<'a>(dir: &[u8], s: &[u8], buffer: &'a mut [u8]) -> &'a [u8]
    requires { length dir.now + 1 + length s.now ≤ length buffer.old }
    ensures { result.now ≡ in_config_dir dir.now s.now }
{
    let mut path = Output::new(buffer);
    put_in_config_dir(&mut path, dir, s);
    path.into_text()
}

// s as it is, in a buffer.
fn copy<'a>(s: &[u8], buffer: &'a mut [u8]) -> &'a [u8]
    requires { length s.now ≤ length buffer.old }
    ensures { result.now ≡ s.now }
{
    let mut text = Output::new(buffer);
    text.put_text(s);
    text.into_text()
}

// s with a leading `${configDir}` replaced by the directory.
pub fn substitute<'a>(dir: &[u8], s: &[u8], buffer: &'a mut [u8]) -> &'a [u8]
    requires { length dir.now + 1 + length s.now ≤ length buffer.old }
    ensures { result.now ≡ substituted dir.now s.now }
{
    if has_config_dir(s) {
        return in_config_dir(dir, s, buffer);
    }
    copy(s, buffer)
}

// s as it is where `${configDir}` leads, else read from the directory.
pub fn place<'a>(dir: &[u8], s: &[u8], buffer: &'a mut [u8]) -> &'a [u8]
    requires { length dir.now + 1 + length s.now ≤ length buffer.old }
    ensures { result.now ≡ placed dir.now s.now }
{
    if has_config_dir(s) {
        return copy(s, buffer);
    }
    normalize_with(dir, s, buffer)
}

// s with a leading `${configDir}` replaced by the directory, else read from the base.
pub fn adjust<'a>(dir: &[u8], base: &[u8], s: &[u8], buffer: &'a mut [u8]) -> &'a [u8]
    requires dir { length dir.now + 1 + length s.now ≤ length buffer.old }
    requires base { length base.now + 1 + length s.now ≤ length buffer.old }
    ensures { result.now ≡ adjusted dir.now base.now s.now }
{
    if has_config_dir(s) {
        return in_config_dir(dir, s, buffer);
    }
    normalize_with(base, s, buffer)
}

// s placed in a record's own directory, where a `${configDir}` leads what that gives: what follows it, joined to the built config's directory.
fn put_led(path: &mut Output, dir: &[u8], own: &[u8], s: &[u8])
    requires empty { path.old.at ≡ 0 }
    requires own { length own.now ≤ 512 }
    requires s { length s.now ≤ 512 }
    requires room { length dir.now + length own.now + length s.now + 2 ≤ length path.old.bytes.now }
    ensures { Becomes (in_config_dir dir.now (placed own.now s.now)) path.old path.new }
{
    let mut buffer = [0u8; 1100];
    let placed = place(own, s, &mut buffer);
    put_in_config_dir(path, dir, placed);
}

// s as it is where `${configDir}` leads, else read from a record's own directory; and a leading `${configDir}` of that replaced by the built
// config's directory. A buffer of its own is only needed where one leads what was read.
pub fn build_place<'a>(dir: &[u8], own: &[u8], s: &[u8], buffer: &'a mut [u8]) -> &'a [u8]
    requires own { length own.now ≤ 512 }
    requires s { length s.now ≤ 512 }
    requires room { length dir.now + length own.now + length s.now + 2 ≤ length buffer.old }
    ensures { result.now ≡ substituted dir.now (placed own.now s.now) }
{
    if has_config_dir(s) {
        return in_config_dir(dir, s, buffer); // The built config's, whatever the record's own.
    }
    let mut path = Output::new(buffer);
    normalize(&mut path, own, s);
    if has_config_dir(path.text()) {
        path.truncate(0);
        put_led(&mut path, dir, own, s);
    }
    path.into_text()
}

// The paths base that a record sets by itself, as the config in the directory is built: its baseUrl, else its directory.
pub fn base_of<'a>(record: &Record, dir: &[u8], buffer: &'a mut [u8]) -> &'a [u8]
    requires dir { length dir.now ≤ 512 }
    requires room { 1600 ≤ length buffer.old }
    ensures value { result.now ≡ substituted dir.now (own_base (parent_of (record_path_of record.now.text.now (read record.now.commands.now record.now.at))) (single record.now.text.now base_url (read record.now.commands.now record.now.at))) }
    ensures short { length result.now ≤ 1600 }
{
    let own = record.dir();
    // A `match`, and no method of Option: the buffer is lent to the one arm or the other.
    match record.string(BASE_URL) {
        Some(url) => build_place(dir, own, url, buffer),
        None => substitute(dir, own, buffer),
    }
}
