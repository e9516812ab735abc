// Asks each question of a list for three sizes of its output. With no room the refusal tells how many bytes the answer needs; with just so many
// it is answered, and nothing is written behind them; with one fewer it is refused by the same number, and nothing is written at all. Writes
// for each question its line, the bytes, and `ok` for each of the two sizes, or what is wrong.
#![tactic(auto)]

ghost use Rattle.std.specs.Prelude.{◌<◌, ◌≤◌, length};

use asked::{fields, fill, first_field, is_kept, other_fields};
use asking::{Book, Question, ask, load, load_book, question_of, say, say_number};
use book::{Fault, Refusal};
use replies::Given;
use text::{from, part_before, upto};

const LINE_END: u8 = b'\n';

// What a line asks that has an output: `B`, `T`, and each other line as `C`.
fn asked_of(line: &[u8]) -> Question {
    match question_of(line) {
        Some(Question::Build(path)) => Question::Build(path),
        Some(Question::Tries(path, directory, specifier)) => {
            Question::Tries(path, directory, specifier)
        }
        _ => {
            let asked = fields(line);
            Question::Candidates(first_field(asked), other_fields(asked))
        }
    }
}

// A question about a book.
#[derive(Clone, Copy)]
struct Case<'a> {
    book: Book<'a>,
    question: Question<'a>,
}

impl<'a> Case<'a> {
    // Asks with the first bytes of a filled room as the output.
    fn ask_within(&self, room: &mut [u8], size: usize) -> Result<Given, Refusal>
        requires { size ≤ length room.old }
    {
        fill(room);
        ask(self.question, &self.book, &mut room[..size])
    }

    // Whether s is the whole answer that is given with more room.
    fn is_answer(&self, s: &[u8], ample: &mut [u8]) -> bool {
        match ask(self.question, &self.book, ample) {
            Ok(given) => given.bytes == s.len() && s == upto(ample, s.len()),
            Err(_) => false,
        }
    }
}

// Writes what is wrong, and the number that was got.
fn say_wrong(rt: &(impl Print + Eprint), what: &[u8], number: usize) {
    say(rt, what);
    say_number(rt, number as u64);
}

// Writes what is wrong, and the number of the refusal that was got.
fn say_fault(rt: &(impl Print + Eprint), what: &[u8], fault: Fault) {
    say_wrong(rt, what, fault.number() as usize);
}

fn check_exact(
    rt: &(impl Print + Eprint),
    case: &Case,
    need: usize,
    room: &mut [u8],
    ample: &mut [u8],
)
    requires { need ≤ length room.old }
{
    match case.ask_within(room, need) {
        Err(refusal) => say_fault(rt, b", exact refused", refusal.fault),
        Ok(given) if given.bytes != need => say_wrong(rt, b", exact gave bytes", given.bytes),
        Ok(_) if !is_kept(from(room, need)) => say(rt, b", exact wrote behind its end"),
        Ok(_) if !case.is_answer(upto(room, need), ample) => {
            say(rt, b", exact is another answer than with more room");
        }
        Ok(_) => say(rt, b", exact ok"),
    }
}

fn check_short(rt: &(impl Print + Eprint), case: &Case, need: usize, room: &mut [u8])
    requires need_nonzero { 0 < need }
    requires need_in_bounds { need ≤ length room.old }
{
    match case.ask_within(room, need - 1) {
        Ok(_) => say_wrong(rt, b", short number", 0),
        Err(refusal) if refusal.fault != Fault::NoRoom => {
            say_fault(rt, b", short number", refusal.fault);
        }
        Err(refusal) if refusal.place != need => say_wrong(rt, b", short place", refusal.place),
        Err(_) if !is_kept(room) => say(rt, b", short wrote"),
        Err(_) => say(rt, b", short ok"),
    }
}

// A refusal that no size changes.
fn check_refused(rt: &(impl Print + Eprint), case: &Case, room: &mut [u8], refusal: Refusal) {
    say_fault(rt, b" refused", refusal.fault);
    say_number(rt, refusal.place as u64);
    let size = room.len();
    match case.ask_within(room, size) {
        Ok(_) => say_wrong(rt, b", with more room number", 0),
        Err(other) if other.fault != refusal.fault => {
            say_fault(rt, b", with more room number", other.fault);
        }
        Err(other) if other.place != refusal.place => {
            say_wrong(rt, b", with more room place", other.place);
        }
        Err(_) if !is_kept(room) => say(rt, b", wrote"),
        Err(_) => say(rt, b", kept ok"),
    }
}

fn check_need(
    rt: &(impl Print + Eprint),
    case: &Case,
    need: usize,
    room: &mut [u8],
    ample: &mut [u8],
) {
    say_number(rt, need as u64);
    if room.len() < need {
        say(rt, b", more than is tried here");
        return;
    }
    check_exact(rt, case, need, room, ample);
    if 0 < need {
        check_short(rt, case, need, room);
    }
}

fn check_line(
    rt: &(impl Print + Eprint),
    book: &Book,
    line: &[u8],
    room: &mut [u8],
    ample: &mut [u8],
) {
    say(rt, line);
    say(rt, b":");
    let case = Case {
        book: *book,
        question: asked_of(line),
    };
    match case.ask_within(room, 0) {
        Ok(_) => check_need(rt, &case, 0, room, ample),
        Err(refusal) if refusal.fault == Fault::NoRoom => {
            check_need(rt, &case, refusal.place, room, ample);
        }
        Err(refusal) => check_refused(rt, &case, room, refusal),
    }
    say(rt, b"\n");
}

// Checks a list of lines about a book.
fn check_all(rt: &(impl Print + Eprint), book: &Book, list: &[u8]) {
    let mut room = [0u8; 8192];
    let mut ample = [0u8; 65536];
    for line in list.split_inclusive(|x| *x == LINE_END) {
        let line = part_before(line, LINE_END);
        check_line(rt, book, line, &mut room, &mut ample);
    }
}

fn main(rt: HostRuntime) {
    // Room of fixed length, here and in `check_all`: no program takes memory from a heap.
    let mut commands = [0u8; 32769];
    let mut text = [0u8; 65536];
    let mut list = [0u8; 65536];
    let Some(book) = load_book(&rt, &mut commands, &mut text) else {
        return;
    };
    let Some(n) = load(&rt, b"questions", &mut list) else {
        return;
    };
    check_all(&rt, &book, upto(&list, n));
}
