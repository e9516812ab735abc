// The load of a config with its extends.
#![tactic(auto)]

ghost use Rattle.std.specs.Prelude.{◌≡◌, ◌+◌, length, Some, IfOk};
ghost use Rattle.tsconfig_resolver.specs.Load.{load as load_of, recall};
ghost use Rattle.tsconfig_resolver.specs.Find.{seen};
ghost use Rattle.rows.specs.Rows.{config_of};
ghost use Rattle.load.specs.Loads.{on_of, held, records_of, state, reach, ParentAs, Tells, LoadPre, WalkPre, BringPre, walks as walks_of};

use book::{Fault, MOST_RECORDS, Refusal};
use entries::{Entry, Opened, open_record};
use merge::merge_row;
use rows::{CheckedBook, ROW};

// The rows of the records that are loaded: of fixed length, since nothing takes memory from a heap.
pub type Table = [Option<[u8; ROW]>; MOST_RECORDS];

// What is loaded of a book so far: the rows of its records, and how many merges are made.
#[derive(Drop)]
pub struct Loads<'a> {
    pub checked: &'a CheckedBook<'a>,
    pub table: Table,
    pub merges: usize,
}

// The record that an extends entry of the record c leads to. `unread` of `entries` has two of the faults too, for of those it knows it is asked before.
fn parent_of(entry: Entry, c: usize) -> Result<usize, Refusal>
    ensures { ParentAs c entry result }
{
    let fault = match entry {
        Entry::Leads(v) => return Ok(usize::from(v)),
        Entry::Missing => Fault::NotFound,
        Entry::Bare => Fault::BareEntry,
        Entry::Empty => Fault::EmptyEntry,
    };
    Err(Refusal { fault, place: c })
}

impl Loads<'_> {
    // Loads the record c, which is not in the table, under the chain, and puts its row into the table. Gives the row.
    #[cycle(bring_load_walk)]
    pub fn load(&mut self, on: [bool; MOST_RECORDS], c: usize) -> Result<[u8; ROW], Refusal>
        requires { LoadPre self.old on c }
        ensures told { Tells self.old on c (reach on self.old) (load_of (seen (records_of self.old)) (on_of on) c (state self.old)) self.new result }
        ensures put { IfOk result (λ row. held self.new.table c ≡ Some row) }
    {
        if on[c] {
            return Err(Refusal {
                fault: Fault::Circular,
                place: c,
            });
        }
        let Opened { entries, row } = open_record(self.checked, c)?;
        let mut longer = on;
        longer[c] = true;
        let merged = self.walk(longer, c, entries.as_slice(), row)?;
        self.table[c] = Some(merged);
        Ok(merged)
    }

    // Loads the parents of the record c, by its extends entries, last first, and merges each into its row. Gives the row.
    #[cycle(bring_load_walk)]
    pub fn walk(
        &mut self,
        on: [bool; MOST_RECORDS],
        c: usize,
        entries: &[Entry],
        own: [u8; ROW],
    ) -> Result<[u8; ROW], Refusal>
        requires { WalkPre self.old on c entries.now own }
        ensures { Tells self.old on c (length entries.now + reach on self.old) (walks_of (records_of self.old) on c entries.now (config_of (records_of self.old) own) (state self.old)) self.new result }
    {
        let mut left = entries;
        let mut row = own;
        // The list is cut at its end: what is left of it is what the rest of the walk is about.
        while let [rest @ .., entry] = left {
            let v = parent_of(*entry, c)?;
            let far = self.bring(on, v)?;
            merge_row(&mut row, &far);
            self.merges += 1;
            left = rest;
        }
        Ok(row)
    }

    // Brings the record v: it is in the table, or it is loaded into it under the chain. Gives its row.
    #[cycle(bring_load_walk)]
    fn bring(&mut self, on: [bool; MOST_RECORDS], v: usize) -> Result<[u8; ROW], Refusal>
        requires { BringPre self.old on v }
        ensures { Tells self.old on v (reach on self.old) (recall ((state self.old).table v) (load_of (seen (records_of self.old)) (on_of on) v) (state self.old)) self.new result }
    {
        // A `match`, and no method of Option: a closure would hold the whole load.
        match self.table[v] {
            Some(row) => Ok(row),
            None => self.load(on, v),
        }
    }
}
