// Holds the four questions to a fixed list of the crate's own answers, data/sample.bin; host/differential says how it is made and what an entry of
// it is. Writes how often each refusal is the answer, 0 standing for none, and then the questions asked, those that are answered otherwise than the
// list says, and the number of the first of these, 0 where there is none.
#![tactic(auto)]

ghost use Rattle.std.specs.Prelude.{◌<◌, ◌≤◌, length};

use asked::{fill, is_kept};
use asking::{Book, Question, ask, load, say, say_number};
use lists::{Tally, long_at, word_at};
use replies::Numbers;
use text::{from, upto};

// A string, which is a length of two bytes, low first, and its bytes; and what follows it.
fn split_string(s: &[u8]) -> (&[u8], &[u8])
    ensures { length result.1.now ≤ length s.now }
{
    let size = word_at(s, 0);
    (upto(from(s, 2), size), from(s, size + 2))
}

// The question that a letter and the strings at the start of a body make; and what follows them. What is no other letter is taken for tries.
fn split_question(letter: u8, body: &[u8]) -> (Question, &[u8]) {
    let (path, rest) = split_string(body);
    match letter {
        b'B' => (Question::Build(path), rest),
        b'O' => (Question::Owner(path), rest),
        b'C' => {
            let (specifier, rest) = split_string(rest);
            (Question::Candidates(path, specifier), rest)
        }
        _ => {
            let (directory, rest) = split_string(rest);
            let (specifier, rest) = split_string(rest);
            (Question::Tries(path, directory, specifier), rest)
        }
    }
}

// The numbers that are listed.
fn listed_numbers(answer: &[u8]) -> Numbers {
    let number = |at: usize| long_at(answer, at) as u64;
    Numbers {
        number: number(2),
        place: number(6),
        first: number(10),
        second: number(14),
        bytes: number(18),
    }
}

// Whether a question is answered as is listed, by the numbers and by what the room holds then: the room that was lent, the five numbers and the
// bytes of the answer are listed.
fn agrees(question: Question, book: &Book, answer: &[u8], room: &mut [u8]) -> bool {
    let size = word_at(answer, 0);
    if room.len() < size {
        return false;
    }
    fill(room);
    let numbers = Numbers::from(ask(question, book, &mut room[..size]));
    let bytes = from(answer, 22);
    numbers == listed_numbers(answer)
        && upto(room, bytes.len()) == bytes
        && is_kept(from(room, bytes.len()))
}

// Counts the number of a listed answer.
fn count(counts: &mut [u64], answer: &[u8]) {
    if let Some(n) = counts.get_mut(word_at(answer, 2)) {
        *n = n.saturating_add(1);
    }
}

// The questions of a book in turn: a letter each, and a string that has the question with its answer.
fn replay_questions(
    book: &Book,
    list: &[u8],
    before: Tally,
    counts: &mut [u64],
    room: &mut [u8],
) -> Tally {
    let mut tally = before;
    // An entry says its own length: the rest begins behind it.
    let mut rest = list;
    while let [letter, strings @ ..] = rest {
        let (body, next) = split_string(strings);
        let (question, answer) = split_question(*letter, body);
        count(counts, answer);
        tally = tally.with(agrees(question, book, answer, room));
        rest = next;
    }
    tally
}

// The books of a list in turn: a length of four bytes each, low first, and as many bytes: its commands and its text as strings, and the questions
// about it.
fn replay(list: &[u8], counts: &mut [u64], room: &mut [u8]) -> Tally {
    let mut tally = Tally::new();
    // A book says its own length: the rest begins behind it.
    let mut rest = list;
    while !rest.is_empty() {
        let size = long_at(rest, 0);
        let (commands, body) = split_string(upto(from(rest, 4), size));
        let (text, questions) = split_string(body);
        let book = Book { commands, text };
        tally = replay_questions(&book, questions, tally, counts, room);
        rest = from(rest, size + 4);
    }
    tally
}

fn write_counts(rt: &(impl Print + Eprint), counts: &[u64]) {
    for (number, n) in counts.iter().enumerate() {
        say(rt, b"number");
        say_number(rt, number as u64);
        say(rt, b":");
        say_number(rt, *n);
        say(rt, b"\n");
    }
}

fn main(rt: HostRuntime) {
    // Room of fixed length: no program takes memory from a heap.
    let mut list = [0u8; 524288];
    let mut room = [0u8; 8192];
    let mut counts = [0u64; 14];
    let Some(size) = load(&rt, b"sample.bin", &mut list) else {
        return;
    };
    let tally = replay(upto(&list, size), &mut counts, &mut room);
    write_counts(&rt, &counts);
    say(&rt, b"asked");
    say_number(&rt, tally.entries);
    say(&rt, b", wrong");
    say_number(&rt, tally.wrong);
    say(&rt, b", first");
    say_number(&rt, tally.first);
    say(&rt, b"\n");
}
