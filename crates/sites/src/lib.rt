// The config of a row of a book's records, and its built base.
#![tactic(auto)]

ghost use Rattle.std.specs.Prelude.{◌≡◌, ◌≤◌, ◌<◌, length};
ghost use Rattle.ends.specs.Ends.{parent_of};
ghost use Rattle.rows.specs.Rows.{number_of, Row};
ghost use Rattle.rows.specs.Checked.{records_in};
ghost use Rattle.sites.specs.Configs.{site_at, Supplied};
ghost use Rattle.sites.specs.Sets.{Row-prop};

use record::Record;
use rows::{Book, places};
use values::base_of;

// The number of the row's own record.
pub fn site_number(row: &[u8]) -> usize
    requires { length row.now ≡ 28 }
    ensures { result ≡ number_of row.now }
{
    usize::from(row[places::OWN])
}

// The directory of the row's own record, in which its config is built.
pub fn site_dir<'a>(book: &Book<'a>, row: &[u8]) -> &'a [u8]
    requires { Row (records_in book.now) row.now }
    ensures value { result.now ≡ parent_of (site_at book.now row.now).path }
    ensures short { length result.now ≤ 512 }
{
    // A `match` here and below, and no method of Option: what the arm calls is told of the record, which of a closure would have to be shown once more.
    match book.supplier(row, places::OWN) {
        Some(own) => own.dir(),
        None => b"",
    }
}

// The config of a row of a book's records, with the directory of its record, in which it is built.
#[derive(Clone, Copy)]
pub struct Config<'a> {
    pub book: &'a Book<'a>,
    pub row: &'a [u8],
    pub dir: &'a [u8],
    pub ghost named: { Row (records_in book.now) row.now } by { Row-prop (records_in book.now) row.now },
    pub ghost place: { dir.now ≡ parent_of (site_at book.now row.now).path },
    pub ghost short: { length dir.now ≤ 512 },
}

impl<'a> Config<'a> {
    ghost use Rattle.sites.specs.Sites.{site_in};

    pub fn new(book: &'a Book<'a>, row: &'a [u8]) -> Config<'a>
        requires { Row (records_in book.now) row.now }
        ensures book { result.book.now ≡ book.now }
        ensures row { result.row.now ≡ row.now }
    {
        Config {
            book,
            row,
            dir: site_dir(book, row),
        }
    }

    // The record that stands at a place of the row.
    pub fn supplier(&self, k: usize) -> Option<Record<'a>>
        requires { k < 28 }
        ensures { Supplied self.now.book.now self.now.row.now k result }
    {
        self.book.supplier(self.row, k)
    }

    // The built base.
    pub fn base<'b>(&self, buffer: &'b mut [u8]) -> &'b [u8]
        requires { 1600 ≤ length buffer.old }
        ensures value { result.now ≡ (site_in self.now).config.base }
        ensures short { length result.now ≤ 1600 }
    {
        match self.supplier(places::BASE) {
            Some(supplier) => base_of(&supplier, self.dir, buffer),
            None => b"",
        }
    }
}

// A config with its built base.
#[derive(Clone, Copy)]
pub struct Built<'a> {
    pub config: Config<'a>,
    pub base: &'a [u8],
    pub ghost value: { base.now ≡ (site_at config.book.now config.row.now).config.base },
    pub ghost short: { length base.now ≤ 1600 },
}

impl<'a> Built<'a> {
    // A config, the base of which is built in the buffer.
    pub fn new(config: Config<'a>, buffer: &'a mut [u8]) -> Built<'a>
        requires { 1600 ≤ length buffer.old }
        ensures book { result.config.book.now ≡ config.entry.book.now }
        ensures row { result.config.row.now ≡ config.entry.row.now }
    {
        Built {
            config,
            base: config.base(buffer),
        }
    }
}
