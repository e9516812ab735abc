// The extends entries of a record: what each leads to, and whether one is refused as it is read.
#![tactic(auto)]

ghost use Rattle.std.specs.Prelude.{◌≡◌, [], ◌∷◌, cond, ◌+◌, ◌≤◌, ◌<◌, length, take, drop, None, option_map, IfOk, IfErr};
ghost use Rattle.ends.specs.Ends.{parent_of};
ghost use Rattle.join.specs.Join.{normalize_with, push_of};
ghost use Rattle.book.specs.Find.{find, locate as locate_of};
ghost use Rattle.book.specs.Index.{index_at, path_in};
ghost use Rattle.book.specs.Refusals.{number_of};
ghost use Rattle.records.specs.Tables.{paths_in};
ghost use Rattle.tsconfig_resolver.specs.Load.{unread as unread_of};
ghost use Rattle.rows.specs.Checked.{records_in};
ghost use Rattle.entries.specs.Entries.{is_beside, entry_of, entries_of, entry_at, EntriesOf};
ghost use Rattle.entries.specs.Opens.{OpenedAs, RefusedAs};

mod lists;

use book::{EXTENDS, Fault, Refusal};
use ends::parent;
use join::normalize_with;
pub use lists::{Entries, Entry, Opened};
use records::PathTable;
use rows::{CheckedBook, own_row};
use text::{DOT, SLASH, find_byte, from};

// Room for a path that is read from a directory: where the two are short, and for any two.
const SHORT: usize = 128;

const LONG: usize = 1100;

// Whether s is `./` and one name that does not begin with a dot. That it is, and the name, are two steps: an Option of the name would be taken apart by a
// third.
#[tactic(auto, using(crate::proofs::Beside::besides))]
fn is_beside(s: &[u8]) -> bool
    ensures { result ≡ is_beside s.now }
{
    let [DOT, SLASH, first, ..] = s else {
        return false;
    };
    let hidden = *first == DOT;
    !hidden && find_byte(from(s, 2), SLASH).is_none()
}

// The record that a path of `./` and one name means in a directory. The two are not joined for it.
fn find_beside(paths: &PathTable<'_>, dir: &[u8], s: &[u8]) -> Option<usize>
    ensures { result ≡ cond (is_beside s.now) (find (push_of dir.now (drop 2 s.now)) (paths_in paths.now)) None }
{
    if !is_beside(s) {
        return None;
    }
    let name = from(s, 2);
    paths.named_in(dir, name)
}

// The record that a path read from a directory means, by a buffer of N bytes.
fn find_joined<const N: usize>(paths: &PathTable<'_>, dir: &[u8], s: &[u8]) -> Option<usize>
    requires { (length dir.now + 1 + length s.now ≤ N) × (N ≤ 1100) }
    ensures { result ≡ locate_of (paths_in paths.now) (normalize_with dir.now s.now) }
{
    let mut buffer = [0u8; N];
    paths.locate(normalize_with(dir, s, &mut buffer))
}

// The record that a path read from a directory means. Where the two are short, what is written to is small: a buffer is set to zero first
// (DECISIONS 6).
pub fn find_meant(paths: &PathTable<'_>, dir: &[u8], s: &[u8]) -> Option<usize>
    requires { (length dir.now ≤ 512) × (length s.now ≤ 512) }
    ensures { result ≡ locate_of (paths_in paths.now) (normalize_with dir.now s.now) }
{
    // A `match`, and no `or_else`: of three ways each has its condition in an arm.
    match find_beside(paths, dir, s) {
        Some(i) => Some(i),
        None if dir.len() + s.len() < SHORT => find_joined::<SHORT>(paths, dir, s),
        None => find_joined::<LONG>(paths, dir, s),
    }
}

// The directory of the record c, by its row of the table of paths: its commands are not read for it.
pub fn record_dir<'a>(paths: &PathTable<'a>, c: usize) -> &'a [u8]
    requires { c < length paths.now.rows.now }
    ensures { result.now ≡ parent_of (path_in paths.now.text.now (index_at paths.now.rows.now c)) }
{
    parent(paths.path(c))
}

// What an extends entry that stands in a directory leads to.
fn read_entry(checked: &CheckedBook<'_>, dir: &[u8], s: &[u8]) -> Entry
    requires { (length dir.now ≤ 512) × (length s.now ≤ 512) }
    ensures { entry_of result ≡ entry_at (paths_in checked.now.book.paths) dir.now s.now }
{
    match s {
        [] => Entry::Empty,
        // A `match` and no method of Option, as below: the number is a record's, which is told of what is found.
        [SLASH | DOT, ..] => match find_meant(&checked.book.paths, dir, s) {
            Some(i) => Entry::Leads(i as u8),
            None => Entry::Missing,
        },
        _ => Entry::Bare,
    }
}

// The extends entries of the record c.
fn read_entries(checked: &CheckedBook<'_>, c: usize) -> Entries
    requires { c < length checked.now.book.paths.rows.now }
    ensures { EntriesOf (records_in checked.now.book) c result }
{
    let book = &checked.book;
    let dir = record_dir(&book.paths, c);
    let mut all = [Entry::Empty; 8];
    // Counted as they are read: how many there are stands beside an array of fixed length.
    let mut count = 0;
    for s in book.record_at(c).strings(EXTENDS) {
        all[count] = read_entry(checked, dir, s);
        count += 1;
    }
    Entries { all, count }
}

// Why the first entry that is refused as it is read is refused.
fn unread(entries: &[Entry]) -> Option<Fault>
    ensures { option_map number_of result ≡ unread_of (entries_of entries.now) }
{
    // A loop and no `find_map`: the two that are refused and the two that are not stand side by side.
    for entry in entries {
        match entry {
            Entry::Empty => return Some(Fault::EmptyEntry),
            Entry::Bare => return Some(Fault::BareEntry),
            Entry::Missing | Entry::Leads(_) => {}
        }
    }
    None
}

// Opens the record c: its extends entries, none of which is refused as it is read, and its own row.
pub fn open_record(checked: &CheckedBook<'_>, c: usize) -> Result<Opened, Refusal>
    requires { c < length checked.now.book.paths.rows.now }
    ensures ok { IfOk result (OpenedAs (records_in checked.now.book) c) }
    ensures err { IfErr result (RefusedAs (records_in checked.now.book) c) }
{
    let entries = read_entries(checked, c);
    if let Some(fault) = unread(entries.as_slice()) {
        return Err(Refusal { fault, place: c });
    }
    let book = &checked.book;
    let row = own_row(book.commands, book.paths.rows[c].begin, c as u8);
    Ok(Opened { entries, row })
}
