// The book: its commands, read one after the other.
#![tactic(auto)]

ghost use Rattle.std.specs.Prelude.{◌≡◌, false, ◌+◌, ◌*◌, ◌<◌, length, take, drop, eqb};
ghost use Rattle.book.specs.Command.{width_of, word, operands};
ghost use Rattle.book.specs.Refusals.{number_of};
ghost use Rattle.book.specs.Rules.{text_of};
ghost use Rattle.book.specs.Steps.{width_told, step_at};

use text::{from, upto};

// The commands, by their byte: the definitions speak of the byte, as document 01 does, and what is asked of a command is a match over it. An enum would add a way
// there and back, each with its proof.

pub const BEGIN: u8 = 0x01;

pub const FILES: u8 = 0x02;

pub const FILE: u8 = 0x03;

pub const INCLUDE: u8 = 0x04;

pub const INCLUDE_ITEM: u8 = 0x05;

pub const EXCLUDE: u8 = 0x06;

pub const EXCLUDE_ITEM: u8 = 0x07;

pub const EXTENDS: u8 = 0x08;

pub const BASE_URL: u8 = 0x09;

pub const PATHS: u8 = 0x0A;

pub const KEY: u8 = 0x0B;

pub const TARGET: u8 = 0x0C;

pub const REFERENCE: u8 = 0x0D;

pub const ROOT_DIRS: u8 = 0x0E;

pub const ROOT_DIR: u8 = 0x0F;

pub const OUT_DIR: u8 = 0x10;

pub const DECLARATION_DIR: u8 = 0x11;

pub const FLAG: u8 = 0x12;

pub const TEXT_OPTION: u8 = 0x13;

pub const END: u8 = 0x14;

// The bytes of a string's start and length.
const SPAN: usize = 4;

// The bytes of a command and its string.
pub const STRIDE: usize = 5;

// What a command counts as, its slot, is its byte, but each flag id and each text id counts by itself: the slots that are looked at by name, and the first of the flags.
pub const BEGIN_SLOT: usize = BEGIN as usize;

pub const PATHS_SLOT: usize = PATHS as usize;

pub const KEY_SLOT: usize = KEY as usize;

pub const TARGET_SLOT: usize = TARGET as usize;

pub const END_SLOT: usize = END as usize;

pub const FLAG_SLOTS: usize = 21;

// The first slot of the text options, and how many slots there are.
pub const TEXT_SLOTS: usize = 32;

pub const SLOTS: usize = 39;

// The most records that a book has.
pub const MOST_RECORDS: usize = 64;

// The last id of a flag, and that of a text option.
pub const LAST_FLAG: u8 = 10;

pub const LAST_TEXT: u8 = 6;

// A command: its byte, the id and value of a flag, the id of a text option, and start and length of its string. What it has not is 0:
// an enum of operands would be taken apart wherever a string's start and length are asked.
#[derive(Clone, Copy)]
pub struct Cmd {
    pub op: u8,
    pub id: u8,
    pub value: u8,
    pub start: usize,
    pub len: usize,
}

// Why no command is read. Two cases and no Option: the definitions tell them apart.
#[derive(Clone, Copy, PartialEq, Eq)]
pub enum Stop {
    // An unknown byte, or operands cut short.
    Broken,
    End,
}

// Whether a command's operands are a string and nothing else, as most commands' are.
pub fn is_spanned(op: u8) -> bool
    ensures { result ≡ eqb (width_of op) 4 }
{
    matches!(
        op,
        BEGIN
            | FILE
            | INCLUDE_ITEM
            | EXCLUDE_ITEM
            | EXTENDS
            | BASE_URL
            | KEY
            | TARGET
            | REFERENCE
            | ROOT_DIR
            | OUT_DIR
            | DECLARATION_DIR
    )
}

// The operand bytes of any other command, if it is one.
fn width(op: u8) -> Option<usize>
    requires { eqb (width_of op) 4 ≡ false }
    ensures { result ≡ width_told (width_of op) }
{
    match op {
        FILES | INCLUDE | EXCLUDE | PATHS | ROOT_DIRS | END => Some(0),
        FLAG => Some(2),
        TEXT_OPTION => Some(5),
        _ => None,
    }
}

// Two bytes that are there, low first. `lists` has the like for bytes that may be missing.
pub fn word_at(s: &[u8], at: usize) -> usize
    requires { at + 1 < length s.now }
    ensures { result ≡ word s.now at }
{
    usize::from(s[at]) + usize::from(s[at + 1]) * 256
}

// The command at the head of s, whose operands are a string, which is there.
pub fn read_span(s: &[u8]) -> Cmd
    requires { 4 < length s.now }
    ensures { result ≡ operands 4 s.now }
{
    Cmd {
        op: s[0],
        id: 0,
        value: 0,
        start: word_at(s, 1),
        len: word_at(s, 3),
    }
}

// The command at the head of s, whose w operand bytes are there, where they are not a string alone.
fn read(s: &[u8], w: usize) -> Cmd
    requires { (w < length s.now) × (w ≡ 4 → ⊥) }
    ensures { result ≡ operands w s.now }
{
    let op = s[0];
    match w {
        5 => Cmd {
            op,
            id: s[1],
            value: 0,
            start: word_at(s, 2),
            len: word_at(s, 4),
        },
        2 => Cmd {
            op,
            id: s[1],
            value: s[2],
            start: 0,
            len: 0,
        },
        _ => Cmd {
            op,
            id: 0,
            value: 0,
            start: 0,
            len: 0,
        },
    }
}

// The command at a place, and the place after it.
pub fn command_at(commands: &[u8], at: usize) -> Result<(Cmd, usize), Stop>
    ensures { result ≡ step_at commands.now at }
{
    if commands.len() <= at {
        return Err(Stop::End);
    }
    let op = commands[at];
    if is_spanned(op) {
        if commands.len() - at <= SPAN {
            return Err(Stop::Broken);
        }
        return Ok((read_span(from(commands, at)), at + SPAN + 1));
    }
    let w = width(op).ok_or(Stop::Broken)?;
    if commands.len() - at <= w {
        return Err(Stop::Broken);
    }
    Ok((read(from(commands, at), w), at + w + 1))
}

// len bytes of s from start on, as far as s reaches.
pub fn piece(s: &[u8], start: usize, len: usize) -> &[u8]
    ensures { result.now ≡ take len (drop start s.now) }
{
    upto(from(s, start), len)
}

// A command's string.
pub fn string_of(text: &[u8], c: Cmd) -> &[u8]
    ensures { result.now ≡ text_of text.now c }
{
    piece(text, c.start, c.len)
}

// Why a book, a question or a load is refused, by the refusals' numbers.
#[derive(Clone, Copy, PartialEq, Eq)]
pub enum Fault {
    // A slice is over its size.
    TooLarge = 1,
    // An unknown byte, operands cut short, or a record left open.
    Broken = 2,
    // Out of order, repeated, or an id or value out of range.
    OutOfOrder = 3,
    // A string breaks its rule or leaves the text.
    BadString = 4,
    // One too many.
    TooMany = 5,
    // A path or a key given before, or a path that is an ancestor of another's.
    GivenBefore = 6,
    // What is asked about breaks its rule.
    BadQuestion = 7,
    // No such config.
    NotFound = 8,
    // A config met again on its own chain.
    Circular = 9,
    // A config references itself.
    RefersToItself = 10,
    // An empty extends entry.
    EmptyEntry = 11,
    // An extends entry starts with neither `/` nor `.`
    BareEntry = 12,
    // The answer is longer than the output.
    NoRoom = 13,
}

impl Fault {
    // Its number in the table of document 01.
    pub fn number(self) -> u32
        ensures { result ≡ number_of self }
    {
        self as u32
    }
}

// A refusal: why, and the place.
#[derive(Clone, Copy, PartialEq, Eq)]
pub struct Refusal {
    pub fault: Fault,
    pub place: usize,
}

// A record that was read to its END: where its commands end, and its path's start and length. A start and a length stand so in a command too, and in the two rows
// below: a type for the two would be opened wherever one of them is asked.
#[derive(Clone, Copy)]
pub struct Closed {
    pub end: usize,
    pub start: usize,
    pub len: usize,
}

// A path or a key that was seen: where it stands in the text, and its digest.
#[derive(Clone, Copy)]
pub struct Seen {
    pub start: usize,
    pub len: usize,
    pub mark: u8,
}

impl Seen {
    // A row that says nothing yet: a constant, so that an array is made of it.
    pub const NONE: Seen = Seen {
        start: 0,
        len: 0,
        mark: 0,
    };
}

// A row of a book's index: where a record begins in the commands, and its path's start and length in the text.
#[derive(Clone, Copy)]
pub struct IndexRow {
    pub begin: usize,
    pub start: usize,
    pub len: usize,
}

impl IndexRow {
    // A row that says nothing yet: a constant, so that an array is made of it.
    pub const NONE: IndexRow = IndexRow {
        begin: 0,
        start: 0,
        len: 0,
    };
}
