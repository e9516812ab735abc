// The lines of a listing, written to lent output: a name and a value, and the items of one record, a line each.
#![tactic(auto)]

ghost use Rattle.std.specs.Prelude.{◌+◌, ◌≤◌, length};
ghost use Rattle.text.specs.Bytes.{bytes};
ghost use Rattle.emit.specs.Emit.{Room};
ghost use Rattle.emit.specs.Output.{Puts};
ghost use Rattle.book.specs.Command as command;
ghost use Rattle.book.specs.Record.{strings};
ghost use Rattle.record.specs.Read.{read};
ghost use Rattle.record.specs.Lists.{key_of};
ghost use Rattle.tsconfig.specs.Build.{adjusted};
ghost use Rattle.tsconfig.specs.Listing.{row, rows, key_rows};
ghost use Rattle.lines.specs.Lines.{ended, valued, built_place, built_strings, built_roots, built_keys, key_text, built_key};

use book::{REFERENCE, ROOT_DIR};
use emit::Output;
use record::{Key, Place, Record};
use values::{adjust, build_place};

// The length of a buffer that is long enough for most values.
const SHORT: usize = 256;

// The length of a buffer that is long enough for each value that is read from a base.
const LONG: usize = 2200;

// The same, of each that is read from a record's own directory.
const LONG_PLACE: usize = 1600;

// Writes s and the end of its line.
pub fn put_line(out: &mut Output, s: &[u8])
    requires { Room out.old.at (ended s.now) }
    ensures { Puts (ended s.now) out.old out.new }
{
    out.put_text(s);
    out.put(b'\n');
}

// Writes what follows a name in its line.
pub fn put_value(out: &mut Output, v: &[u8])
    requires { Room out.old.at (valued v.now) }
    ensures { Puts (valued v.now) out.old out.new }
{
    out.put(b'=');
    put_line(out, v);
}

// Writes a name, `=` and a value as a line.
pub fn put_row(out: &mut Output, name: &[u8], v: &[u8])
    requires { Room out.old.at (row name.now v.now) }
    ensures { Puts (row name.now v.now) out.old out.new }
{
    out.put_text(name);
    put_value(out, v);
}

// Directory and base are handed on apart, here and above: what is read from the directory alone has no base. Three pairs of the functions that follow differ in the one function that they call. It takes other things: handed on as a closure its promise would stand in the
// clauses and at each call.

// Writes a string, as built in N bytes from the directory or from the base, as a line with the name.
fn put_built_within<const N: usize>(
    out: &mut Output,
    name: &[u8],
    dir: &[u8],
    base: &[u8],
    s: &[u8],
)
    requires room { Room out.old.at (row name.now (adjusted dir.now base.now s.now)) }
    requires dir { length dir.now + 1 + length s.now ≤ N }
    requires base { length base.now + 1 + length s.now ≤ N }
    requires within { N ≤ 2200 }
    ensures { Puts (row name.now (adjusted dir.now base.now s.now)) out.old out.new }
{
    let mut buffer = [0u8; N];
    put_row(out, name, adjust(dir, base, s, &mut buffer));
}

// Writes a string, as built from the directory or from the base, as a line with the name. Most need a short buffer only, which is set to zero
// sooner (DECISIONS 6).
pub fn put_built(out: &mut Output, name: &[u8], dir: &[u8], base: &[u8], s: &[u8])
    requires room { Room out.old.at (row name.now (adjusted dir.now base.now s.now)) }
    requires dir { length dir.now ≤ 512 }
    requires base { length base.now ≤ 1600 }
    requires s { length s.now ≤ 512 }
    ensures { Puts (row name.now (adjusted dir.now base.now s.now)) out.old out.new }
{
    if dir.len() + base.len() + s.len() < SHORT {
        put_built_within::<SHORT>(out, name, dir, base, s);
    } else {
        put_built_within::<LONG>(out, name, dir, base, s);
    }
}

// Writes a string, as built in N bytes from its record's own directory, as a line with the name.
fn put_placed_within<const N: usize>(
    out: &mut Output,
    name: &[u8],
    dir: &[u8],
    own: &[u8],
    s: &[u8],
)
    requires room { Room out.old.at (row name.now (built_place dir.now own.now s.now)) }
    requires own { length own.now ≤ 512 }
    requires s { length s.now ≤ 512 }
    requires long { length dir.now + length own.now + length s.now + 2 ≤ N }
    requires within { N ≤ 1600 }
    ensures { Puts (row name.now (built_place dir.now own.now s.now)) out.old out.new }
{
    let mut buffer = [0u8; N];
    put_row(out, name, build_place(dir, own, s, &mut buffer));
}

// Writes a string, as built from its record's own directory, as a line with the name. Most need a short buffer only, as above.
pub fn put_placed(out: &mut Output, name: &[u8], dir: &[u8], own: &[u8], s: &[u8])
    requires room { Room out.old.at (row name.now (built_place dir.now own.now s.now)) }
    requires dir { length dir.now ≤ 512 }
    requires own { length own.now ≤ 512 }
    requires s { length s.now ≤ 512 }
    ensures { Puts (row name.now (built_place dir.now own.now s.now)) out.old out.new }
{
    if dir.len() + own.len() + s.len() < SHORT - 1 {
        put_placed_within::<SHORT>(out, name, dir, own, s);
    } else {
        put_placed_within::<LONG_PLACE>(out, name, dir, own, s);
    }
}

// Writes the record's items with the byte, a line each.
pub fn put_strings(out: &mut Output, record: &Record, op: u8, name: &[u8], dir: &[u8])
    requires room { Room out.old.at (rows name.now (built_strings record.now dir.now op)) }
    requires dir { length dir.now ≤ 512 }
    ensures { Puts (rows name.now (built_strings record.now dir.now op)) out.old out.new }
{
    for s in record.strings(op) {
        put_built(out, name, dir, dir, s);
    }
}

// Writes the references from the place on as they are given.
pub fn put_references<const MOST: usize>(out: &mut Output, place: &Place<MOST>)
    requires { Room out.old.at (rows (bytes "reference") (strings place.now.text.now command.reference (read place.now.commands.now place.now.at))) }
    ensures { Puts (rows (bytes "reference") (strings place.now.text.now command.reference (read place.now.commands.now place.now.at))) out.old out.new }
{
    for s in place.strings(REFERENCE) {
        put_row(out, b"reference", s);
    }
}

// Writes the record's root dirs, read from its own directory, a line each.
pub fn put_root_rows(out: &mut Output, record: &Record, dir: &[u8], own: &[u8])
    requires room { Room out.old.at (rows (bytes "rootDir") (built_roots record.now dir.now own.now)) }
    requires dir { length dir.now ≤ 512 }
    requires own { length own.now ≤ 512 }
    ensures { Puts (rows (bytes "rootDir") (built_roots record.now dir.now own.now)) out.old out.new }
{
    for s in record.strings(ROOT_DIR) {
        put_placed(out, b"rootDir", dir, own, s);
    }
}

// Writes a key and its targets.
fn put_key(out: &mut Output, key: &Key<512>, dir: &[u8], base: &[u8])
    requires room { Room out.old.at (key_text dir.now base.now (key_of key.now)) }
    requires dir { length dir.now ≤ 512 }
    requires base { length base.now ≤ 1600 }
    ensures { Puts (key_text dir.now base.now (key_of key.now)) out.old out.new }
{
    put_row(out, b"key", key.name);
    for s in key.targets {
        put_built(out, b"target", dir, base, s);
    }
}

// Writes the record's keys, each with its targets.
pub fn put_keys(out: &mut Output, record: &Record, dir: &[u8], base: &[u8])
    requires room { Room out.old.at (key_rows (built_keys record.now dir.now base.now)) }
    requires dir { length dir.now ≤ 512 }
    requires base { length base.now ≤ 1600 }
    ensures { Puts (key_rows (built_keys record.now dir.now base.now)) out.old out.new }
{
    for key in record.keys() {
        put_key(out, &key, dir, base);
    }
}
