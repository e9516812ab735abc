// Answers question lines about a book: `book.cmd` and `book.txt` of the current folder, the lines from standard input to its end, the
// answers to standard output.
#![tactic(auto)]

ghost use Rattle.std.specs.Prelude.{◌+◌, ◌<◌, ◌≤◌, length, IfSome};
ghost use Rattle.asking.specs.Questions.{Asks, Answers};

use asked::{Kind, fields, first_field, kind_of, other_fields};
use book::Refusal;
use lists::word_at;
use questions::{NOBODY, build, candidates, owner, tries};
use replies::Given;
use std::io::Read;
use std::rt::Files;
use streams::{fail, read_file};
pub use streams::{say, say_number};
use text::{find_byte, from, upto};

// `replay` and `rooms` have it too: each names the bytes that it reads by, and stands alone.
const LINE_END: u8 = b'\n';

// A question, with what it asks about.
#[derive(Clone, Copy)]
pub enum Question<'a> {
    // The path of a config.
    Build(&'a [u8]),
    // The path of a file.
    Owner(&'a [u8]),
    // The path of a config, and a specifier.
    Candidates(&'a [u8], &'a [u8]),
    // The path of a config, a directory, and a specifier.
    Tries(&'a [u8], &'a [u8], &'a [u8]),
}

// The question that a line asks.
pub fn question_of(line: &[u8]) -> Option<Question>
    ensures { Asks line.now result }
{
    let asked = fields(line);
    let rest = other_fields(asked);
    let question = match kind_of(line)? {
        Kind::Build => Question::Build(asked),
        Kind::Owner => Question::Owner(asked),
        Kind::Candidates => Question::Candidates(first_field(asked), rest),
        Kind::Tries => Question::Tries(first_field(asked), first_field(rest), other_fields(rest)),
    };
    Some(question)
}

// A book: its commands, and the text that their strings are parts of.
#[derive(Clone, Copy)]
pub struct Book<'a> {
    pub commands: &'a [u8],
    pub text: &'a [u8],
}

// Asks a question about a book. What has an output writes it to the one that is lent.
pub fn ask(question: Question, book: &Book, out: &mut [u8]) -> Result<Given, Refusal>
    ensures { Answers question.entry book.now.commands.now book.now.text.now result out.old out.new }
{
    match question {
        Question::Build(path) => build(book.commands, book.text, path, out),
        Question::Owner(path) => owner(book.commands, book.text, path),
        Question::Candidates(path, specifier) => {
            candidates(book.commands, book.text, path, specifier, out)
        }
        Question::Tries(path, directory, specifier) => {
            tries(book.commands, book.text, path, directory, specifier, out)
        }
    }
}

// Writes a line.
fn say_line(rt: &(impl Print + Eprint), s: &[u8]) {
    say(rt, s);
    say(rt, b"\n");
}

// Writes a line of a word and two numbers.
fn say_two(rt: &(impl Print + Eprint), name: &[u8], a: usize, b: usize) {
    say(rt, name);
    say_number(rt, a as u64);
    say_number(rt, b as u64);
    say(rt, b"\n");
}

// Writes the paths of a list, one a line, under a word and their number. Each is a length of two bytes, low first, and its bytes.
fn say_list(rt: &(impl Print + Eprint), name: &[u8], count: usize, list: &[u8]) {
    say(rt, name);
    say_number(rt, count as u64);
    say(rt, b"\n");
    // A path says its own length: the rest begins behind it.
    let mut rest = list;
    while !rest.is_empty() {
        let size = word_at(rest, 0);
        say_line(rt, upto(from(rest, 2), size));
        rest = from(rest, size + 2);
    }
}

// Writes what is given in answer to a question, with the bytes that were written.
fn say_answer(rt: &(impl Print + Eprint), question: Question, given: Given, bytes: &[u8]) {
    match question {
        Question::Build(_) => {
            say_two(rt, b"built", given.first, given.second);
            say(rt, bytes);
        }
        Question::Owner(_) if given.first == NOBODY => say_line(rt, b"owner none"),
        Question::Owner(_) => say_two(rt, b"owner", given.first, given.second),
        Question::Candidates(_, _) => say_list(rt, b"candidates", given.first, bytes),
        Question::Tries(_, _, _) => say_list(rt, b"tries", given.first, bytes),
    }
}

// Answers a line.
fn answer(rt: &(impl Print + Eprint), book: &Book, line: &[u8], out: &mut [u8]) {
    let Some(question) = question_of(line) else {
        say_line(
            rt,
            b"no question: B path, O path, C path, tab, specifier, or T path, tab, directory, tab, specifier",
        );
        return;
    };
    match ask(question, book, out) {
        Ok(given) => say_answer(rt, question, given, upto(out, given.bytes)),
        Err(refusal) => {
            let number = refusal.fault.number() as usize;
            say_two(rt, b"refused", number, refusal.place);
        }
    }
}

// Answers each line of an input that has its end. Gives how many bytes follow the last of them.
fn answer_lines(rt: &(impl Print + Eprint), book: &Book, input: &[u8], out: &mut [u8]) -> usize
    ensures { result ≤ length input.now }
{
    let Some(last) = input.iter().rposition(|x| *x == LINE_END) else {
        return input.len();
    };
    for line in input[..last].split(|x| *x == LINE_END) {
        answer(rt, book, line, out);
    }
    input[last + 1..].len()
}

// Answers the lines that have their end in an input, after the end of the line that is passed over, if one is. Gives how many bytes at its end wait
// for their line's end; none where that line is passed over. Whether one is passed over is a datum, kept from one read to the next.
fn answer_input(
    rt: &(impl Print + Eprint),
    book: &Book,
    input: &[u8],
    passing: bool,
    out: &mut [u8],
) -> Option<usize>
    ensures { IfSome result (λ n. n ≤ length input.now) }
{
    let lines = if passing {
        from(input, find_byte(input, LINE_END)? + 1)
    } else {
        input
    };
    Some(answer_lines(rt, book, lines, out))
}

// Reads what comes next of standard input to the place `at`. Gives how many bytes came: none at its end, and none where it fails, since both end the run.
fn read_more(rt: &impl Eprint, input: &mut impl Read, buffer: &mut [u8], at: usize) -> usize
    requires { at ≤ length buffer.old }
    ensures { at + result ≤ length buffer.old }
{
    match input.read(&mut buffer[at..]) {
        Ok(got) => got,
        Err(error) => {
            fail(rt, "standard input", error);
            0
        }
    }
}

// The standard streams, the book and the room for an answer are handed on one by one: a struct of the three would borrow each for as long as it lives.

// Answers the lines that have their end in the first `end` bytes of the buffer, and keeps what follows at its start: how many bytes, none where
// their line is passed over. A line that fills the buffer is too long, and is passed over.
fn take_in(
    rt: &(impl Print + Eprint),
    book: &Book,
    buffer: &mut [u8],
    end: usize,
    passing: bool,
    out: &mut [u8],
) -> Option<usize>
    requires { end ≤ length buffer.old }
    ensures { IfSome result (λ n. n ≤ length buffer.old) }
{
    let count = answer_input(rt, book, upto(buffer, end), passing, out)?;
    if count == buffer.len() {
        say_line(rt, b"line too long: at most 4095 bytes");
        return None;
    }
    buffer.copy_within(end - count..end, 0);
    Some(count)
}

// Answers the lines of standard input. They are read through the lent buffer, at whose start some bytes wait for their line's end, none where
// that line is passed over: at the end of the input they are the last line. Nothing says that an input ends, so the turns are counted, up to a
// number that no run reaches.
fn answer_all(rt: &(impl Input + Print + Eprint), book: &Book, buffer: &mut [u8], out: &mut [u8]) {
    let mut input = rt.reader();
    let mut held = Some(0);
    for _ in 0..u64::MAX {
        let count = held.unwrap_or(0);
        let got = read_more(rt, &mut input, buffer, count);
        if got == 0 {
            break;
        }
        held = take_in(rt, book, buffer, count + got, held.is_none(), out);
    }
    match held {
        None | Some(0) => {}
        Some(count) => answer(rt, book, upto(buffer, count), out),
    }
}

// Reads a file whole, as far as there is room. How many bytes, and no slice: the room stays the caller's. Says what is wrong where it cannot be read, or where its name is no text.
pub fn load(rt: &(impl Files + Eprint), name: &[u8], room: &mut [u8]) -> Option<usize>
    ensures { IfSome result (λ n. n ≤ length room.old) }
{
    let Ok(path) = std::str::from_utf8(name) else {
        let _ = eprintln!(rt; "the name of a file is no text");
        return None;
    };
    match read_file(rt, path, room) {
        Ok(n) => Some(n),
        Err(error) => {
            fail(rt, path, error);
            None
        }
    }
}

// Answers the lines of standard input about a book, with room for every answer.
fn answer_stdin(rt: &(impl Input + Print + Eprint), book: &Book) {
    // Room of fixed length, here and in `run`: no program takes memory from a heap.
    let mut buffer = [0u8; 4096];
    let mut out = [0u8; 1048576];
    answer_all(rt, book, &mut buffer, &mut out);
}

// Reads the book of the current folder, as far as there is room.
pub fn load_book<'a>(
    rt: &(impl Files + Eprint),
    commands: &'a mut [u8],
    text: &'a mut [u8],
) -> Option<Book<'a>>
    ensures { IfSome result (λ b. (length b.commands.now ≤ length commands.old) × (length b.text.now ≤ length text.old)) }
{
    let m = load(rt, b"book.cmd", commands)?;
    let n = load(rt, b"book.txt", text)?;
    Some(Book {
        commands: upto(commands, m),
        text: upto(text, n),
    })
}

// Answers the lines of standard input about the book of the current folder. A book that is too large is read one byte further than is allowed,
// so that it is refused. It has no `ensures` (DECISIONS 52).
pub fn run(rt: &(impl Files + Input + Print + Eprint)) {
    let mut commands = [0u8; 32769];
    let mut text = [0u8; 65536];
    if let Some(book) = load_book(rt, &mut commands, &mut text) {
        answer_stdin(rt, &book);
    }
}
