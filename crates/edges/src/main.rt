// Holds the check of a book to fixed verdicts, which stand in data/books.bin; host/edges says how they are made and what an entry of the
// file is. Writes for each group its name, its entries, the books judged, the entries that disagree, and the number of the first of these,
// 0 where there is none.
#![tactic(auto)]

ghost use Rattle.std.specs.Prelude.{◌<◌, ◌≤◌};

use book::{IndexRow, MOST_RECORDS};
use checker::check_book;
use lists::{Tally, byte_at, long_at, triple_at, word_at};
use streams::{fail, read_file, say, say_number};
use text::{from, upto};

// What an entry is, by its first byte.
#[derive(Clone, Copy, PartialEq, Eq)]
enum Kind {
    // A name: a group begins.
    Group,
    // A book begins, empty.
    Book,
    // How often, and bytes: more commands.
    Commands,
    // How often, and bytes: more text.
    Text,
    // How much of the commands and of the text is judged, and the verdict.
    Verdict,
    // A place in the commands, and the sum of the verdicts with each byte there.
    BadCommand,
    // A place in the text, and the sum of the verdicts with each byte there.
    BadText,
}

impl TryFrom<usize> for Kind {
    type Error = ();

    fn try_from(byte: usize) -> Result<Kind, ()> {
        match byte {
            0 => Ok(Kind::Group),
            1 => Ok(Kind::Book),
            2 => Ok(Kind::Commands),
            3 => Ok(Kind::Text),
            4 => Ok(Kind::Verdict),
            5 => Ok(Kind::BadCommand),
            6 => Ok(Kind::BadText),
            _ => Err(()),
        }
    }
}

// Sums are taken by this number, a prime.
const PRIME: usize = 4294967291;

// A sum with one number more.
fn fold(sum: usize, x: usize) -> usize {
    ((sum % PRIME) * 131 + x % PRIME) % PRIME
}

// What the check says of a book: the refusal's number and place; where it is accepted 0, 0, its records and the sum of their index. Four numbers and no Result: so the
// list has them, and so they are summed.
#[derive(Clone, Copy, PartialEq, Eq)]
struct Verdict {
    number: usize,
    place: usize,
    count: usize,
    index: usize,
}

impl Verdict {
    // A sum with one verdict more.
    fn folded(self, sum: usize) -> usize {
        let sum = fold(fold(sum, self.number), self.place);
        fold(fold(sum, self.count), self.index)
    }
}

// The sum of the rows of an index.
fn index_sum(rows: &[IndexRow]) -> usize {
    rows.iter().fold(1, |sum, row| {
        fold(fold(fold(sum, row.begin), row.start), row.len)
    })
}

// What the check says of commands and text, which are made apart.
fn judge(commands: &[u8], text: &[u8]) -> Verdict {
    let mut index = [IndexRow::NONE; MOST_RECORDS];
    match check_book(commands, text, &mut index) {
        Ok(count) => Verdict {
            number: 0,
            place: 0,
            count,
            index: index_sum(&index[..count.min(MOST_RECORDS)]),
        },
        Err(refusal) => Verdict {
            number: refusal.fault.number() as usize,
            place: refusal.place,
            count: 0,
            index: 0,
        },
    }
}

// The verdict that an entry gives: number, place, records, index.
fn listed(body: &[u8]) -> Verdict {
    Verdict {
        number: byte_at(body, 6),
        place: word_at(body, 7),
        count: byte_at(body, 9),
        index: long_at(body, 10),
    }
}

// The sum of the verdicts with each byte, from the highest down, at a place of s. The byte is put back.
fn bad_sum<F: Fn(&[u8]) -> Verdict>(s: &mut [u8], at: usize, verdict: F) -> usize
    requires { F.IsAlwaysCallable verdict }
{
    if s.len() <= at {
        return 0;
    }
    let old = s[at];
    let mut sum = 1;
    for x in (0..=255u8).rev() {
        s[at] = x;
        sum = verdict(s).folded(sum);
    }
    s[at] = old;
    sum
}

// Appends what a body says, how often and bytes, to the first n bytes, as far as there is room; how many there are then. The place is counted
// by hand: a zip with the room has to be begun again for each time, and is no plainer.
fn grow(out: &mut [u8], n: usize, body: &[u8]) -> usize {
    let mut k = n;
    for _ in 0..word_at(body, 0) {
        for x in from(body, 2) {
            if out.len() <= k {
                return k;
            }
            out[k] = *x;
            k += 1;
        }
    }
    k
}

// How the entries of a group fared, of how many books, and how many bytes of commands and of text the book has so far.
#[derive(Clone, Copy, Default)]
struct Progress {
    tally: Tally,
    books: u64,
    commands: usize,
    text: usize,
}

impl Progress {
    // One entry more, of some books.
    fn with(self, agrees: bool, books: u64) -> Progress {
        Progress {
            tally: self.tally.with(agrees),
            books: self.books.saturating_add(books),
            ..self
        }
    }
}

fn write_progress(rt: &(impl Print + Eprint), progress: Progress) {
    say_number(rt, progress.tally.entries);
    say_number(rt, progress.books);
    say_number(rt, progress.tally.wrong);
    say_number(rt, progress.tally.first);
    say(rt, b"\n");
}

// Whether the check of the first bytes of both gives the verdict that a body says.
fn is_judged(commands: &[u8], text: &[u8], body: &[u8]) -> bool {
    let commands = upto(commands, triple_at(body, 0));
    judge(commands, upto(text, triple_at(body, 3))) == listed(body)
}

// A group begins: what came of the group before is written, if there is one, then the name.
fn begin_group(rt: &(impl Print + Eprint), earlier: Option<Progress>, name: &[u8]) -> Progress {
    if let Some(group) = earlier {
        write_progress(rt, group);
    }
    say(rt, name);
    Progress {
        tally: Tally::new(),
        books: 0,
        ..earlier.unwrap_or_default()
    }
}

// One entry, after those before it, if there are any.
fn turn(
    rt: &(impl Print + Eprint),
    earlier: Option<Progress>,
    entry: &[u8],
    commands: &mut [u8],
    text: &mut [u8],
) -> Progress {
    let body = upto(from(entry, 3), word_at(entry, 1));
    let before = earlier.unwrap_or_default();
    let Ok(kind) = Kind::try_from(byte_at(entry, 0)) else {
        return before;
    };
    match kind {
        Kind::Group => begin_group(rt, earlier, body),
        Kind::Book => Progress {
            commands: 0,
            text: 0,
            ..before
        },
        Kind::Commands => Progress {
            commands: grow(commands, before.commands, body),
            ..before
        },
        Kind::Text => Progress {
            text: grow(text, before.text, body),
            ..before
        },
        Kind::Verdict => before.with(is_judged(commands, text, body), 1),
        Kind::BadCommand => {
            let judged = upto(text, before.text);
            let size = before.commands;
            let sum = bad_sum(commands, word_at(body, 0), |s| judge(upto(s, size), judged));
            before.with(sum == long_at(body, 2), 256)
        }
        Kind::BadText => {
            let judged = upto(commands, before.commands);
            let size = before.text;
            let sum = bad_sum(text, word_at(body, 0), |s| judge(judged, upto(s, size)));
            before.with(sum == long_at(body, 2), 256)
        }
    }
}

// The entries of a list in turn. A book is made in the lent commands and text.
fn replay(
    rt: &(impl Print + Eprint),
    list: &[u8],
    commands: &mut [u8],
    text: &mut [u8],
) -> Progress {
    let mut progress = None;
    // An entry says its own length: the rest begins behind it.
    let mut rest = list;
    while !rest.is_empty() {
        progress = Some(turn(rt, progress, rest, commands, text));
        rest = from(rest, word_at(rest, 1) + 3);
    }
    progress.unwrap_or_default()
}

fn main(rt: HostRuntime) {
    // Room of fixed length: no program takes memory from a heap.
    let mut list = [0u8; 524288];
    let mut commands = [0u8; 33000];
    let mut text = [0u8; 66000];
    let size = match read_file(&rt, "books.bin", &mut list) {
        Ok(size) => size,
        Err(error) => {
            fail(&rt, "books.bin", error);
            return;
        }
    };
    let progress = replay(&rt, &list[..size], &mut commands, &mut text);
    write_progress(&rt, progress);
    say(&rt, b"books.bin");
    say_number(&rt, size as u64);
    say(&rt, b"\n");
}
