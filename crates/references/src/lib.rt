// The load of a config with its extends and its references.
#![tactic(auto)]

ghost use Rattle.std.specs.Prelude.{◌+◌, ◌≤◌, ◌<◌, length};
ghost use Rattle.tsconfig_resolver.specs.Find.{seen, meant, record_at};
ghost use Rattle.tsconfig_resolver.specs.References.{refer as refer_of};
ghost use Rattle.tsconfig_resolver.specs.Project.{refer_to, references_of};
ghost use Rattle.rows.specs.Checked.{records_in};
ghost use Rattle.load.specs.Loads.{records_of, state, reach, Tells};
ghost use Rattle.references.specs.References.{Refers, Lists, WholeAs, ReferPre, nobody};

use book::{Fault, MOST_RECORDS, REFERENCE, Refusal};
use entries::{Opened, find_meant, open_record, record_dir};
use load::Loads;
use rows::{ABSENT, CheckedBook, ROW};

const REFERENCES: usize = 16;

// A config that is loaded with its references: its row, theirs and how many they are, and the config's merges. No ArrayVec: the crates stand over
// std alone.
#[derive(Clone, Copy)]
pub struct Project {
    pub row: [u8; ROW],
    pub references: [[u8; ROW]; REFERENCES],
    pub count: usize,
    pub merges: usize,
}

// Loads the reference r of the record c: its own row and its parents, by a chain that starts empty. It is not put into the table.
fn refer(loads: &mut Loads<'_>, c: usize, r: usize) -> Result<[u8; ROW], Refusal>
    requires { ReferPre loads.old r }
    ensures { Tells loads.old nobody r (8 + reach nobody loads.old) (refer_of (seen (records_of loads.old)) c r (state loads.old)) loads.new result }
{
    if r == c {
        return Err(Refusal {
            fault: Fault::RefersToItself,
            place: c,
        });
    }
    let Opened { entries, row } = open_record(loads.checked, r)?;
    loads.walk([false; MOST_RECORDS], r, entries.as_slice(), row)
}

// Loads the reference s of the record c.
fn refer_to(loads: &mut Loads<'_>, c: usize, s: &[u8]) -> Result<[u8; ROW], Refusal>
    requires { ReferPre loads.old c × (length s.now ≤ 512) }
    ensures { Refers loads.old (8 + reach nobody loads.old) (refer_to (records_of loads.old) c (meant (records_of loads.old) c s.now) (state loads.old)) loads.new result }
{
    let paths = &loads.checked.book.paths;
    let dir = record_dir(paths, c);
    let Some(r) = find_meant(paths, dir, s) else {
        return Err(Refusal {
            fault: Fault::NotFound,
            place: c,
        });
    };
    refer(loads, c, r)
}

// Loads the references of the record c, in order, each to its row. Gives how many.
fn load_references(
    loads: &mut Loads<'_>,
    c: usize,
    refs: &mut [[u8; ROW]; REFERENCES],
) -> Result<usize, Refusal>
    requires { ReferPre loads.old c × (reach nobody loads.old ≤ 512) }
    ensures { Lists (records_of loads.old) (references_of (records_of loads.old) c (record_at (records_of loads.old) c).references (state loads.old)) refs.new result }
{
    // Counted as they are loaded: how many there are stands beside rows of fixed length.
    let mut count = 0;
    for s in loads.checked.book.record_at(c).strings(REFERENCE) {
        refs[count] = refer_to(loads, c, s)?;
        count += 1;
    }
    Ok(count)
}

// Loads the record c as the asked config: its extends, and its references, each to its row.
pub fn load_record(checked: &CheckedBook<'_>, c: usize) -> Result<Project, Refusal>
    requires { c < length checked.now.book.paths.rows.now }
    ensures { WholeAs (records_in checked.now.book) c result }
{
    let mut loads = Loads {
        checked,
        table: [None; MOST_RECORDS],
        merges: 0,
    };
    let row = loads.load([false; MOST_RECORDS], c)?;
    let merges = loads.merges;
    let mut references = [[ABSENT; ROW]; REFERENCES];
    let count = load_references(&mut loads, c, &mut references)?;
    Ok(Project {
        row,
        references,
        count,
        merges,
    })
}
