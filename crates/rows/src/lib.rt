// Rows of suppliers: a merged config as 28 numbers, the record that supplies each field and the base, and the record itself.
#![tactic(auto)]

ghost use Rattle.std.specs.Prelude.{◌≡◌, ◌<◌, length, get_or, unwrap_or, option_map, IfSome};
ghost use Rattle.book.specs.Index.{begin_of, record_at};
ghost use Rattle.rows.specs.Records.{Records, Paths};
ghost use Rattle.rows.specs.Rows.{begin_at};
ghost use Rattle.rows.specs.Sets.{Records-prop};
ghost use Rattle.rows.specs.Own.{slot_of, marked, OwnRow};

use book::{
    BASE_URL, Cmd, DECLARATION_DIR, EXCLUDE, FILES, FLAG, INCLUDE, IndexRow, OUT_DIR, PATHS,
    ROOT_DIRS, TEXT_OPTION, command_at,
};
use items::Commands;
use record::Record;
use records::PathTable;

pub mod places;

// Stands for no record: there are at most 64. An Option for each of 28 places would be twice as long, and rows are copied at each merge.
pub const ABSENT: u8 = 255;

// How many places a row has.
pub const ROW: usize = 28;

// An accepted book: its commands, and the records' paths, with the text and the rows of its index, which say where the records begin.
#[derive(Clone, Copy)]
pub struct Book<'a> {
    pub commands: &'a [u8],
    pub paths: PathTable<'a>,
    pub ghost records: { Records commands.now paths.text.now paths.rows.now } by { Records-prop commands.now paths.text.now paths.rows.now },
}

// An accepted book whose index says the records' paths too, and has no row beyond.
#[derive(Clone, Copy)]
pub struct CheckedBook<'a> {
    pub book: Book<'a>,
    pub ghost listed: { Paths book.commands.now book.paths.text.now book.paths.rows.now },
}

// The place of the field that a command names.
#[tactic(auto, unfolding(crate::specs::Own::slot_of))]
fn slot_of(c: Cmd) -> Option<usize>
    ensures place { unwrap_or result 28 ≡ slot_of c }
    ensures inside { IfSome result (λ k. k < 26) }
{
    match c.op {
        FILES => Some(places::FILES),
        INCLUDE => Some(places::INCLUDE),
        EXCLUDE => Some(places::EXCLUDE),
        BASE_URL => Some(places::BASE_URL),
        PATHS => Some(places::PATHS),
        ROOT_DIRS => Some(places::ROOT_DIRS),
        OUT_DIR => Some(places::OUT_DIR),
        DECLARATION_DIR => Some(places::DECLARATION_DIR),
        FLAG if c.id < places::FLAG_IDS => Some(places::FLAGS + usize::from(c.id)),
        TEXT_OPTION if c.id < places::TEXT_IDS => Some(places::TEXTS + usize::from(c.id)),
        _ => None,
    }
}

// Puts c at the place of each field that the record at rec names.
fn mark_fields(commands: &[u8], rec: usize, c: u8, row: &mut [u8; ROW])
    ensures { row.new ≡ marked c (record_at commands.now rec) row.old }
{
    for (x, _) in (Commands { commands, at: rec }) {
        if let Some(k) = slot_of(x) {
            row[k] = c;
        }
    }
}

// The row of the record c, which begins at rec, by itself: it supplies each field that it names.
pub fn own_row(commands: &[u8], rec: usize, c: u8) -> [u8; ROW]
    ensures { OwnRow c (record_at commands.now rec) result }
{
    let mut row = [ABSENT; ROW];
    mark_fields(commands, rec, c, &mut row);
    row[places::BASE] = c;
    row[places::OWN] = c;
    row
}

// Where the record that stands at a place of the row begins in the commands. A row is lent as any bytes here and in `sites`, with its length where that is needed:
// `load` and `merge` have it as an array.
pub fn begin_at(rows: &[IndexRow], row: &[u8], k: usize) -> Option<usize>
    requires { (k < length row.now) × ((get_or row.now k 255 ≡ 255 → ⊥) → get_or row.now k 255 < length rows.now) }
    ensures { result ≡ begin_at rows.now row.now k }
{
    let c = row[k];
    if c == ABSENT {
        return None;
    }
    Some(rows[usize::from(c)].begin)
}

impl<'a> Book<'a> {
    ghost use Rattle.rows.specs.Checked.{records_in};

    // The record c.
    pub fn record_at(&self, c: usize) -> Record<'a>
        requires { c < length (records_in self.now) }
        ensures at { result.at ≡ begin_of self.now.paths.rows.now c }
        ensures commands { result.commands.now ≡ self.now.commands.now }
        ensures text { result.text.now ≡ self.now.paths.text.now }
    {
        Record {
            commands: self.commands,
            text: self.paths.text,
            at: self.paths.rows[c].begin,
        }
    }

    // The record that stands at a place of the row.
    pub fn supplier(&self, row: &[u8], k: usize) -> Option<Record<'a>>
        requires place { k < length row.now }
        requires there { (get_or row.now k 255 ≡ 255 → ⊥) → get_or row.now k 255 < length (records_in self.now) }
        ensures at { option_map (λ r. r.at) result ≡ begin_at self.now.paths.rows.now row.now k }
        ensures commands { IfSome result (λ r. r.commands.now ≡ self.now.commands.now) }
        ensures text { IfSome result (λ r. r.text.now ≡ self.now.paths.text.now) }
    {
        let at = begin_at(self.paths.rows, row, k)?;
        Some(Record {
            commands: self.commands,
            text: self.paths.text,
            at,
        })
    }
}
