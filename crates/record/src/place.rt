// Where commands are read, and what they say once.
ghost use Rattle.std.specs.Prelude.{◌≡◌, ◌≤◌, true, length, option_copied, IfSome};
ghost use Rattle.text.specs.Text.{each_of, some_of};
ghost use Rattle.ends.specs.Ends.{parent_of};
ghost use Rattle.book.specs.Record.{is, single, record_path_of, option_of, flag_of};
ghost use Rattle.record.specs.Read.{is_short, read};

use book::{BEGIN, FLAG, TEXT_OPTION, string_of};
use ends::parent;
use items::{next_item, next_option};

// How long a string of any text is at most.
pub const ANY: usize = usize::MAX;

// A place in any commands, with their text: those up to the next END are read, no string of which is longer than MOST bytes.
#[derive(Clone, Copy)]
pub struct Place<'a, const MOST: usize> {
    pub commands: &'a [u8],
    pub text: &'a [u8],
    pub at: usize,
    pub ghost short: { each_of (is_short MOST text.now) (read commands.now at) ≡ true },
}

// A record of a checked book: the book, and the offset at which the record begins. From a later offset on it is the rest of the record.
pub type Record<'a> = Place<'a, 512>;

impl<'a> Place<'a, ANY> {
    // A place in any commands.
    pub fn new(commands: &'a [u8], text: &'a [u8], at: usize) -> Self
        ensures at { result.at ≡ at }
        ensures commands { result.commands.now ≡ commands.now }
        ensures text { result.text.now ≡ text.now }
    {
        Place { commands, text, at }
    }
}

impl<'a, const MOST: usize> Place<'a, MOST> {
    // The string of the first command with the byte op.
    pub fn string(&self, op: u8) -> Option<&'a [u8]>
        ensures value { option_copied result ≡ single self.now.text.now op (read self.now.commands.now self.now.at) }
        ensures short { IfSome result (λ s. length s.now ≤ MOST) }
    {
        let (c, _) = next_item(self.commands, self.at, op)?;
        Some(string_of(self.text, c))
    }

    // Its path.
    pub fn path(&self) -> &'a [u8]
        ensures value { result.now ≡ record_path_of self.now.text.now (read self.now.commands.now self.now.at) }
        ensures short { length result.now ≤ MOST }
    {
        self.string(BEGIN).unwrap_or(b"")
    }

    // Its directory.
    pub fn dir(&self) -> &'a [u8]
        ensures value { result.now ≡ parent_of (record_path_of self.now.text.now (read self.now.commands.now self.now.at)) }
        ensures short { length result.now ≤ MOST }
    {
        parent(self.path())
    }

    // The value of the flag.
    pub fn flag(&self, id: u8) -> Option<bool>
        ensures { result ≡ flag_of id (read self.now.commands.now self.now.at) }
    {
        let (c, _) = next_option(self.commands, self.at, FLAG, id)?;
        Some(c.value == 1)
    }

    // The value of the text option.
    pub fn text_option(&self, id: u8) -> Option<&'a [u8]>
        ensures value { option_copied result ≡ option_of self.now.text.now id (read self.now.commands.now self.now.at) }
        ensures short { IfSome result (λ s. length s.now ≤ MOST) }
    {
        let (c, _) = next_option(self.commands, self.at, TEXT_OPTION, id)?;
        Some(string_of(self.text, c))
    }
}
