// The check of a book: its records in turn, and their index.
#![tactic(auto)]

ghost use Rattle.std.specs.Prelude.{◌≡◌, ◌≤◌, length};
ghost use Rattle.book.specs.Index.{JudgedAs};

use book::{Fault, IndexRow, MOST_RECORDS, Refusal, piece};
use faults::{BookText, PARTS};
use meeting::{Keys, Paths};
use record_checker::check_record;
use strings::{LONGEST, is_string, is_tame};
use text::from;

const MOST_COMMANDS: usize = 32768;

const MOST_TEXT: usize = 65535;

// A text so many times as long as the commands is not looked at beforehand.
const FAR_LONGER: usize = 32;

// A book's text of which nothing is known.
fn unknown(bytes: &[u8]) -> BookText<'_>
    ensures { result.bytes.now ≡ bytes.now }
{
    let none = [false; PARTS];
    BookText {
        bytes,
        plain: false,
        tame: false,
        parts: none,
    }
}

// A book's text, with what is known of it: it is looked at part by part, each as long as a string may be.
fn known_text(commands: usize, bytes: &[u8]) -> BookText<'_>
    requires { length bytes.now ≤ 65535 }
    ensures { result.bytes.now ≡ bytes.now }
{
    if commands < bytes.len() / FAR_LONGER {
        return unknown(bytes);
    }
    let mut parts = [false; PARTS];
    let mut tame = true;
    for i in 0..bytes.len() / LONGEST + 1 {
        let part = piece(bytes, LONGEST * i, LONGEST);
        let part_tame = is_tame(part);
        if !part_tame && !is_string(part) {
            return unknown(bytes);
        }
        parts[i] = part_tame;
        tame &= part_tame;
    }
    BookText {
        bytes,
        plain: true,
        tame,
        parts,
    }
}

// How many records a book has, or its first refusal. Of an accepted book a row of the index says each record; rows after the last record's are left open.
// Commands and text stand apart: no type has a book before it is checked.
pub fn check_book(
    commands: &[u8],
    text: &[u8],
    index: &mut [IndexRow; MOST_RECORDS],
) -> Result<usize, Refusal>
    ensures { JudgedAs commands.now text.now index.new result }
{
    if MOST_COMMANDS < commands.len() || MOST_TEXT < text.len() {
        return Err(Refusal {
            fault: Fault::TooLarge,
            place: 0,
        });
    }
    let book = known_text(commands.len(), text);
    let mut keys = Keys::new();
    let mut paths = Paths::new(text);
    // As many records are closed as paths are kept; where the next begins shows only when one is closed.
    let mut at = 0;
    while at < commands.len() {
        let n = paths.len();
        let c = check_record(&book, &mut paths, from(commands, at), at, &mut keys)?;
        index[n] = IndexRow {
            begin: at,
            start: c.start,
            len: c.len,
        };
        at = c.end;
    }
    Ok(paths.len())
}
