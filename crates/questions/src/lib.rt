// The questions, on byte slices: commands and text are lent apart, as C lends them (`questions_c`), and `open_book` puts them together.
#![tactic(auto)]

ghost use Rattle.std.specs.Prelude.{◌≡◌, length, option_copied};
ghost use Rattle.rows.specs.Checked.{records_in};
ghost use Rattle.replies.specs.Replies.{returned, numbers_by, AnsweredAs};
ghost use Rattle.questions.specs.Questions.{tsconfig_build, tsconfig_owner, tsconfig_candidates, tsconfig_tries};
ghost use Rattle.questions.specs.Replies.{asked_for, asked_load, tsconfig_paths, Checks, LoadsAs};

use book::{Fault, IndexRow, MOST_RECORDS, Refusal};
use build_reply::write_listing;
use checker::check_book;
use owner::find_owner;
use path_rules::is_asked_path;
use paths_reply::write_paths;
use records::PathTable;
use references::{Project, load_record};
use replies::{Given, give};
use rows::{Book, CheckedBook};
use sites::{Built, Config};
use strings::is_string;

// What stands for no record: the number that document 01 has for it, since an owner is told by two numbers.
pub const NOBODY: usize = 65535;

// The book, which is checked first: the check fills the index.
fn open_book<'a>(
    commands: &'a [u8],
    text: &'a [u8],
    index: &'a mut [IndexRow; MOST_RECORDS],
) -> Result<CheckedBook<'a>, Refusal>
    ensures { Checks commands.now text.now result }
{
    let count = check_book(commands, text, index)?;
    let rows = &index[..count];
    let paths = PathTable { text, rows };
    Ok(CheckedBook {
        book: Book { commands, paths },
    })
}

// Whether the question may be asked. A directory is given for tries alone.
fn is_asked(path: &[u8], directory: Option<&[u8]>, specifier: &[u8]) -> bool
    ensures { result ≡ asked_for path.now (option_copied directory.entry) specifier.now }
{
    // The path first: where it may not be asked, the directory is not looked at.
    is_asked_path(path) && directory.is_none_or(|d| is_asked_path(d)) && is_string(specifier)
}

// Loads the record that the path means, where the question may be asked: `ok` is what was told of the question, which is refused after the book.
fn load_asked(checked: &CheckedBook<'_>, ok: bool, path: &[u8]) -> Result<Project, Refusal>
    ensures { LoadsAs (records_in checked.now.book) (asked_load ok (records_in checked.now.book) path.now) result }
{
    if !ok {
        return Err(Refusal {
            fault: Fault::BadQuestion,
            place: 0,
        });
    }
    let Some(c) = checked.book.paths.locate(path) else {
        return Err(Refusal {
            fault: Fault::NotFound,
            place: NOBODY,
        });
    };
    load_record(checked, c)
}

// The index and the buffers are of fixed length, here and below: nothing takes memory from a heap.

// B: the config that a path means, merged with what it extends and built, as lines; its record and the merges made.
pub fn build(commands: &[u8], text: &[u8], path: &[u8], out: &mut [u8]) -> Result<Given, Refusal>
    ensures { AnsweredAs (tsconfig_build commands.now text.now path.now (length out.old)) result out.old out.new }
{
    let mut index = [IndexRow::NONE; MOST_RECORDS];
    let checked = open_book(commands, text, &mut index)?;
    let Project { row, merges, .. } = load_asked(&checked, is_asked_path(path), path)?;
    let mut buffer = [0u8; 1600];
    let built = Built::new(Config::new(&checked.book, &row), &mut buffer);
    let mut scratch = [0u8; 4096];
    write_listing(&built, merges, &mut scratch, out)
}

// The answer to C, or to T where a directory is given. It has the steps of `build`, with other scratch and another writer: handed on, the writer's promise
// would stand here once more.
fn paths(
    commands: &[u8],
    text: &[u8],
    path: &[u8],
    directory: Option<&[u8]>,
    specifier: &[u8],
    out: &mut [u8],
) -> Result<Given, Refusal>
    ensures { AnsweredAs (tsconfig_paths commands.now text.now path.now (option_copied directory.entry) specifier.now (length out.old)) result out.old out.new }
{
    let mut index = [IndexRow::NONE; MOST_RECORDS];
    let checked = open_book(commands, text, &mut index)?;
    let Project { row, .. } = load_asked(&checked, is_asked(path, directory, specifier), path)?;
    let mut buffer = [0u8; 1600];
    let built = Built::new(Config::new(&checked.book, &row), &mut buffer);
    let mut scratch = [0u8; 1024];
    write_paths(directory, &built, specifier, &mut scratch, out)
}

// C: the paths that a specifier is mapped to by the config that a path means, each a length in two bytes and its bytes; how many there are.
pub fn candidates(
    commands: &[u8],
    text: &[u8],
    path: &[u8],
    specifier: &[u8],
    out: &mut [u8],
) -> Result<Given, Refusal>
    ensures { AnsweredAs (tsconfig_candidates commands.now text.now path.now specifier.now (length out.old)) result out.old out.new }
{
    paths(commands, text, path, None, specifier, out)
}

// T: the paths that would be tried for a specifier from a directory, in the layout of candidates; how many there are.
pub fn tries(
    commands: &[u8],
    text: &[u8],
    path: &[u8],
    directory: &[u8],
    specifier: &[u8],
    out: &mut [u8],
) -> Result<Given, Refusal>
    ensures { AnsweredAs (tsconfig_tries commands.now text.now path.now directory.now specifier.now (length out.old)) result out.old out.new }
{
    paths(commands, text, path, Some(directory), specifier, out)
}

// O: the config that owns a file, and its solution: 65,535 twice where there is none.
pub fn owner(commands: &[u8], text: &[u8], path: &[u8]) -> Result<Given, Refusal>
    ensures { numbers_by result ≡ returned (tsconfig_owner commands.now text.now path.now) }
{
    let mut index = [IndexRow::NONE; MOST_RECORDS];
    let checked = open_book(commands, text, &mut index)?;
    // Refused as in `load_asked`, which loads a record besides.
    if !is_asked_path(path) {
        return Err(Refusal {
            fault: Fault::BadQuestion,
            place: 0,
        });
    }
    // A `match`, and no method of Option: the two answers stand side by side.
    match find_owner(&checked, path)? {
        Some(owner) => Ok(give(owner.found, owner.solution)),
        None => Ok(give(NOBODY, NOBODY)),
    }
}
