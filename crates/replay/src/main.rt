// Holds the functions on paths and patterns to fixed lists of answers, which stand in data/; host/lists says how they are made. Writes for
// each list its bytes, its lines, the lines that disagree, and the number of the first of these, 0 where there is none.
#![tactic(auto)]

ghost use Rattle.std.specs.Prelude.{◌≤◌, length};

use component_walk::Components;
use components::lead_len;
use emit::Output;
use lists::Tally;
use std::iter::once;
use std::rt::Files;
use streams::{fail, read_file, say, say_number};
use text::{from, part_after, part_before, upto};

const TAB: u8 = b'\t';

const LINE_END: u8 = b'\n';

// Ends a component in the list, and alone stands for none.
const MARK: u8 = b'!';

// How many fields a line has at most.
const FIELDS: usize = 7;

// How many a line of glob.txt has.
const GLOB_FIELDS: usize = 3;

// How long a path may be that is joined.
const MOST: usize = 512;

// The fields of a line, with tabs between: empty where there are fewer than the count, and the last of so many has all that follows.
fn fields(line: &[u8], count: usize) -> [&[u8]; FIELDS] {
    let mut fields = [upto(line, 0); FIELDS];
    for (field, part) in fields.iter_mut().zip(line.splitn(count, |x| *x == TAB)) {
        *field = part;
    }
    fields
}

// Whether a field says yes.
fn is_yes(field: &[u8]) -> bool {
    matches!(field, b"1")
}

// Whether a part of a path is what a field says.
fn agrees(part: Option<&[u8]>, field: &[u8]) -> bool {
    part.unwrap_or(b"!") == field
}

// Whether the names and `..` of s are those of a field, each with a mark behind it.
fn same_names(s: &[u8], field: &[u8]) -> bool {
    Components::new(s)
        .chain(once(upto(s, 0)))
        .eq(field.split(|x| *x == MARK))
}

// Whether the components of s are those of a field.
fn same_components(s: &[u8], field: &[u8]) -> bool {
    let lead = lead_len(s);
    if lead == 0 {
        return same_names(s, field);
    }
    upto(s, lead) == part_before(field, MARK) && same_names(s, part_after(field, MARK))
}

// A line of one.txt: text, parent, components, file name, extension, normal, inside node_modules.
fn one_agrees(line: &[u8]) -> bool {
    let [s, parent, components, name, extension, is_normal, is_inside] = fields(line, FIELDS);
    ends::parent(s) == parent
        && same_components(s, components)
        && agrees(file_names::file_name(s), name)
        && agrees(file_names::extension(s), extension)
        && normal::is_normal(s) == is_yes(is_normal)
        && component_walk::inside_node_modules(s) == is_yes(is_inside)
}

// Whether `a` joined with b is what a field says.
fn join_agrees(a: &[u8], b: &[u8], field: &[u8]) -> bool
    requires a { length a.now ≤ 512 }
    requires b { length b.now ≤ 512 }
{
    let mut buffer = [0u8; 2048];
    let mut path = Output::new(&mut buffer);
    join::join(&mut path, a, b);
    path.text() == field
}

// Whether `a` normalised with b is what a field says.
fn normalize_agrees(a: &[u8], b: &[u8], field: &[u8]) -> bool
    requires a { length a.now ≤ 512 }
    requires b { length b.now ≤ 512 }
{
    let mut buffer = [0u8; 2048];
    join::normalize_with(a, b, &mut buffer) == field
}

// A line of two.txt: a, b, join, normalize_with, equal, starts_with, strip_prefix.
fn two_agrees(line: &[u8]) -> bool {
    let [a, b, joined, normalized, is_same, is_under, rest] = fields(line, FIELDS);
    if MOST < a.len() || MOST < b.len() {
        return false;
    }
    join_agrees(a, b, joined)
        && normalize_agrees(a, b, normalized)
        && path::same_path(a, b) == is_yes(is_same)
        && path::lies_under(a, b) == is_yes(is_under)
        && agrees(path::strip_prefix(a, b), rest)
}

// A line of glob.txt: pattern, path, whether it matches.
fn glob_agrees(line: &[u8]) -> bool {
    let [pattern, path, is_match, ..] = fields(line, GLOB_FIELDS);
    matcher::matches(pattern, path) == is_yes(is_match)
}

// How the lines of a list fare, one after the other.
fn replay<F: Fn(&[u8]) -> bool>(list: &[u8], line_agrees: F) -> Tally
    requires { F.IsAlwaysCallable line_agrees }
{
    let mut tally = Tally::new();
    for line in list.split_inclusive(|x| *x == LINE_END) {
        tally = tally.with(line_agrees(part_before(line, LINE_END)));
    }
    tally
}

// Writes how a list fared, of so many bytes. Each program writes a tally with other words between.
fn say_tally(rt: &(impl Print + Eprint), name: &str, bytes: usize, tally: &Tally) {
    say(rt, name.as_bytes());
    for number in [bytes as u64, tally.entries, tally.wrong, tally.first] {
        say_number(rt, number);
    }
    say(rt, b"\n");
}

// Reads a list of the folder and writes how it fared.
fn report<F: Fn(&[u8]) -> bool>(rt: &(impl Files + Print + Eprint), name: &str, line_agrees: F)
    requires { F.IsAlwaysCallable line_agrees }
{
    // Room of fixed length, as each buffer here: no program takes memory from a heap.
    let mut buffer = [0u8; 524288];
    match read_file(rt, name, &mut buffer) {
        Ok(n) => say_tally(rt, name, n, &replay(&buffer[..n], line_agrees)),
        Err(error) => fail(rt, name, error),
    }
}

fn main(rt: HostRuntime) {
    report(&rt, "one.txt", one_agrees);
    report(&rt, "two.txt", two_agrees);
    report(&rt, "glob.txt", glob_agrees);
}
