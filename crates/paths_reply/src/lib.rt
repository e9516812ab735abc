// The answer to candidates and tries: the paths, where they fit the output.
#![tactic(auto)]

ghost use Rattle.std.specs.Prelude.{◌≤◌, length, option_copied, IfSome};
ghost use Rattle.sites.specs.Sites.{settings_in};
ghost use Rattle.mapping.specs.Asks.{Asks};
ghost use Rattle.targets.specs.Targets.{Lists};
ghost use Rattle.replies.specs.Replies.{listed, AnsweredAs};
ghost use Rattle.paths_reply.specs.Paths.{paths_by};

use book::Refusal;
use emit::Output;
use mapping::put_candidates;
use replies::{Given, write_reply};
use sites::Built;
use tries::put_tries;

// Writes the paths that are asked for, and gives how many they are: the tries from a directory, or else the candidates.
fn put_paths(out: &mut Output, directory: Option<&[u8]>, built: &Built, specifier: &[u8]) -> usize
    requires asks { Asks specifier.now out.old.at }
    requires directory { IfSome directory (λ d. length d.now ≤ 512) }
    ensures { Lists (paths_by (option_copied directory.entry) specifier.now (settings_in built.now.config)) out.old out.new result }
{
    // A `match`, and no method of Option: the arms write to the output.
    match directory {
        Some(directory) => put_tries(out, built, directory, specifier),
        None => put_candidates(out, built, specifier),
    }
}

// The paths of a config, where they fit the output.
#[tactic(auto, unfolding(replies::specs::Replies::listed))]
pub fn write_paths(
    directory: Option<&[u8]>,
    built: &Built,
    specifier: &[u8],
    scratch: &mut [u8],
    out: &mut [u8],
) -> Result<Given, Refusal>
    requires asks { Asks specifier.now 0 }
    requires directory { IfSome directory (λ d. length d.now ≤ 512) }
    ensures { AnsweredAs (listed (length out.old) (paths_by (option_copied directory.entry) specifier.now (settings_in built.now.config))) result out.old out.new }
{
    write_reply(scratch, out, |output| {
        (put_paths(output, directory, built, specifier), 0)
    })
}
