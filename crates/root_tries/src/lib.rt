// A path with its like in the other root dirs of a record.
#![tactic(auto)]

ghost use Rattle.std.specs.Prelude.{◌≤◌, length, Some};
ghost use Rattle.ends.specs.Ends.{parent_of};
ghost use Rattle.book.specs.Record.{record_path_of};
ghost use Rattle.record.specs.Read.{read};
ghost use Rattle.tsconfig.specs.Mapping.{in_roots, root_tries};
ghost use Rattle.targets.specs.Targets.{Lists};
ghost use Rattle.roots.specs.Roots.{roots_of};

use book::ROOT_DIR;
use emit::Output;
use path::{same_path, strip_prefix};
use record::Record;
use roots::best_root;
use targets::{put_path, put_read};
use values::build_place;

// Writes the rest in each root dir of the record that is not the one given, and gives how many they are.
fn put_in_roots(
    out: &mut Output,
    record: &Record,
    dir: &[u8],
    own: &[u8],
    root: &[u8],
    rest: &[u8],
) -> usize
    requires dir { length dir.now ≤ 512 }
    requires own { length own.now ≤ 512 }
    requires book { length record.now.commands.now ≤ 32768 }
    requires rest { length rest.now ≤ 1100 }
    requires near { out.old.at ≤ 100000 }
    ensures { Lists (in_roots root.now (Some rest.now) (roots_of record.now.commands.now record.now.text.now dir.now own.now record.now.at)) out.old out.new result }
{
    // Counted as they are written: some root dirs are passed over.
    let mut count = 0;
    for s in record.strings(ROOT_DIR) {
        // Of fixed length, here and below: nothing takes memory from a heap.
        let mut buffer = [0u8; 1600];
        let other = build_place(dir, own, s, &mut buffer);
        if !same_path(other, root) {
            put_read(out, other, rest);
            count += 1;
        }
    }
    count
}

// Writes p itself, then its rest in the other root dirs of the record, and gives how many they are: none where p lies under none of them.
pub fn put_root_tries(out: &mut Output, record: &Record, dir: &[u8], p: &[u8]) -> usize
    requires dir { length dir.now ≤ 512 }
    requires book { length record.now.commands.now ≤ 32768 }
    requires p { length p.now ≤ 1100 }
    requires near { out.old.at ≤ 65536 }
    ensures { Lists (root_tries p.now (Some (roots_of record.now.commands.now record.now.text.now dir.now (parent_of (record_path_of record.now.text.now (read record.now.commands.now record.now.at))) record.now.at))) out.old out.new result }
{
    let own = record.dir();
    let Some(s) = best_root(record, dir, own, p) else {
        return 0;
    };
    let mut buffer = [0u8; 1600];
    let root = build_place(dir, own, s, &mut buffer);
    put_path(out, p);
    // A `match`, and no method of Option: an arm writes to the output.
    match strip_prefix(p, root) {
        Some(rest) => 1 + put_in_roots(out, record, dir, own, root, rest),
        None => 1,
    }
}
