// The questions, as C functions: C lends bytes with their length, and takes a struct of numbers. Each gives the numbers of what `questions` answers: they
// stand here once more, since no crate can stand over a static library, and the programs stand over `questions`.
#![tactic(auto)]

ghost use Rattle.std.specs.Prelude.{◌≡◌, length};
ghost use Rattle.replies.specs.Replies.{returned, numbers_of, Told};
ghost use Rattle.questions.specs.Questions.{tsconfig_build, tsconfig_owner, tsconfig_candidates, tsconfig_tries};

use replies::Numbers;

// B: the config that a path means, merged with what it extends and built, as lines; its record and the merges made.
#[unsafe(no_mangle)]
pub extern "C" fn tsconfig_build(
    commands: &[u8],
    text: &[u8],
    path: &[u8],
    out: &mut [u8],
) -> Numbers
    ensures { Told (tsconfig_build commands.now text.now path.now (length out.old)) result out.old out.new }
{
    Numbers::from(questions::build(commands, text, path, out))
}

// C: the paths that a specifier is mapped to by the config that a path means, each a length in two bytes and its bytes; how many there are.
#[unsafe(no_mangle)]
pub extern "C" fn tsconfig_candidates(
    commands: &[u8],
    text: &[u8],
    path: &[u8],
    specifier: &[u8],
    out: &mut [u8],
) -> Numbers
    ensures { Told (tsconfig_candidates commands.now text.now path.now specifier.now (length out.old)) result out.old out.new }
{
    Numbers::from(questions::candidates(commands, text, path, specifier, out))
}

// T: the paths that would be tried for a specifier from a directory, in the layout of candidates; how many there are.
#[unsafe(no_mangle)]
pub extern "C" fn tsconfig_tries(
    commands: &[u8],
    text: &[u8],
    path: &[u8],
    directory: &[u8],
    specifier: &[u8],
    out: &mut [u8],
) -> Numbers
    ensures { Told (tsconfig_tries commands.now text.now path.now directory.now specifier.now (length out.old)) result out.old out.new }
{
    Numbers::from(questions::tries(commands, text, path, directory, specifier, out))
}

// O: the config that owns a file, and its solution: 65,535 twice where there is none.
#[unsafe(no_mangle)]
pub extern "C" fn tsconfig_owner(commands: &[u8], text: &[u8], path: &[u8]) -> Numbers
    ensures { numbers_of result ≡ returned (tsconfig_owner commands.now text.now path.now) }
{
    Numbers::from(questions::owner(commands, text, path))
}
