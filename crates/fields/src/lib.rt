// The lines of one field, written to lent output: what its supplier says, as built, or nothing where it has none.
#![tactic(auto)]

ghost use Rattle.std.specs.Prelude.{◌≤◌, length};
ghost use Rattle.emit.specs.Emit.{Room};
ghost use Rattle.emit.specs.Output.{Puts};
ghost use Rattle.fields.specs.Fields.{list_at, roots_at, url_at, place_at, mapping_at};

use book::{BASE_URL, KEY, ROOT_DIR};
use emit::Output;
use lines::{put_built, put_keys, put_line, put_placed, put_root_rows, put_strings};
use record::Record;

// The five, and the `match` of each, differ in what writes their lines, and each of these takes other things: handed on as a closure its promise stands in the clauses of the
// one function and again at each call, which is no plainer.

// Writes files, include or exclude, if it has a supplier: its items, or its name alone where there are none.
pub fn put_list(out: &mut Output, found: Option<Record>, op: u8, name: &[u8], dir: &[u8])
    requires room { Room out.old.at (list_at name.now dir.now op found) }
    requires dir { length dir.now ≤ 512 }
    ensures { Puts (list_at name.now dir.now op found.entry) out.old out.new }
{
    let Some(record) = found else {
        return;
    };
    match record.string(op) {
        Some(_) => put_strings(out, &record, op, name, dir),
        None => put_line(out, name),
    }
}

// Writes rootDirs, if it has a supplier: its items, or their name alone where there are none.
pub fn put_roots(out: &mut Output, found: Option<Record>, dir: &[u8])
    requires room { Room out.old.at (roots_at dir.now found) }
    requires dir { length dir.now ≤ 512 }
    ensures { Puts (roots_at dir.now found.entry) out.old out.new }
{
    let Some(record) = found else {
        return;
    };
    match record.string(ROOT_DIR) {
        Some(_) => put_root_rows(out, &record, dir, record.dir()),
        None => put_line(out, b"rootDir"),
    }
}

// Writes paths, if it has a supplier: its keys, or its name alone where there are none.
pub fn put_mapping(out: &mut Output, found: Option<Record>, dir: &[u8], base: &[u8])
    requires room { Room out.old.at (mapping_at dir.now base.now found) }
    requires dir { length dir.now ≤ 512 }
    requires base { length base.now ≤ 1600 }
    ensures { Puts (mapping_at dir.now base.now found.entry) out.old out.new }
{
    let Some(record) = found else {
        return;
    };
    match record.string(KEY) {
        Some(_) => put_keys(out, &record, dir, base),
        None => put_line(out, b"paths"),
    }
}

// Writes baseUrl, if it has a supplier.
pub fn put_url(out: &mut Output, found: Option<Record>, dir: &[u8])
    requires room { Room out.old.at (url_at dir.now found) }
    requires dir { length dir.now ≤ 512 }
    ensures { Puts (url_at dir.now found.entry) out.old out.new }
{
    let Some(record) = found else {
        return;
    };
    if let Some(url) = record.string(BASE_URL) {
        put_built(out, b"baseUrl", dir, dir, url);
    }
}

// Writes outDir or declarationDir, if it has a supplier.
pub fn put_place(out: &mut Output, found: Option<Record>, op: u8, name: &[u8], dir: &[u8])
    requires room { Room out.old.at (place_at name.now dir.now op found) }
    requires dir { length dir.now ≤ 512 }
    ensures { Puts (place_at name.now dir.now op found.entry) out.old out.new }
{
    let Some(record) = found else {
        return;
    };
    if let Some(place) = record.string(op) {
        let own = record.dir();
        put_placed(out, name, dir, own, place);
    }
}
