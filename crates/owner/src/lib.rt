// The owner of a file: find_tsconfig_auto and resolve_tsconfig_solution.
#![tactic(auto)]

ghost use Rattle.std.specs.Prelude.{◌≡◌, ◌<◌, length, Some, None};
ghost use Rattle.names.specs.Names.{tsconfig_json};
ghost use Rattle.join.specs.Join.{push_of};
ghost use Rattle.book.specs.Answer.{given};
ghost use Rattle.book.specs.Find.{find};
ghost use Rattle.book.specs.Sound.{All};
ghost use Rattle.tsconfig_resolver.specs.Find.{paths_of};
ghost use Rattle.tsconfig_resolver.specs.Project.{owner_of};
ghost use Rattle.rows.specs.Checked.{records_in};
ghost use Rattle.rows.specs.Rows.{Row};
ghost use Rattle.sites.specs.Sites.{site_in};
ghost use Rattle.references.specs.References.{sites_of};
ghost use Rattle.owner.specs.Owned.{claimer, answered, OwnedAs, FolderAs};

use book::Refusal;
use claims::is_claimed;
use component_walk::{count_components, inside_node_modules};
use ends::parent;
use references::load_record;
use rows::{Book, CheckedBook, ROW};
use sites::{Config, site_number};

// The owner of a file: the record of the config found on the walk, and that of its solution.
#[derive(Clone, Copy)]
pub struct Owner {
    pub found: usize,
    pub solution: usize,
}

// The record of the first of the references that claims the path.
fn first_claimer<'a>(book: &'a Book<'a>, refs: &'a [[u8; ROW]], path: &[u8]) -> Option<usize>
    requires { All (Row (records_in book.now)) refs.now }
    ensures { result ≡ claimer path.now (sites_of (records_in book.now) refs.now) }
{
    // A loop and not `find`: that each row is one of a record would stand in a closure's clause.
    for row in refs {
        if is_claimed(&Config::new(book, row), path) {
            return Some(site_number(row));
        }
    }
    None
}

// What a loaded config on the walk comes to: its first reference that claims the path is the solution, else itself.
fn owned_by<'a>(config: &Config<'a>, refs: &'a [[u8; ROW]], path: &[u8]) -> Option<Owner>
    requires { All (Row (records_in config.now.book.now)) refs.now }
    ensures { OwnedAs path.now (site_in config.now) (sites_of (records_in config.now.book.now) refs.now) result }
{
    let found = site_number(config.row);
    if let Some(solution) = first_claimer(config.book, refs, path) {
        return Some(Owner { found, solution });
    }
    if is_claimed(config, path) {
        return Some(Owner {
            found,
            solution: found,
        });
    }
    None
}

// What the record c comes to, as the config of a folder on the walk. A function of its own: the room for what is loaded is set to zero where it is entered, and
// most folders have no config.
fn owned_by_record(
    checked: &CheckedBook<'_>,
    c: usize,
    path: &[u8],
) -> Result<Option<Owner>, Refusal>
    requires { c < length checked.now.book.paths.rows.now }
    ensures { FolderAs (records_in checked.now.book) path.now (Some c) result }
{
    let project = load_record(checked, c)?;
    Ok(owned_by(
        &Config::new(&checked.book, &project.row),
        &project.references[..project.count],
        path,
    ))
}

// What the config of a folder, if it has one, comes to.
fn owned_in(checked: &CheckedBook<'_>, folder: &[u8], path: &[u8]) -> Result<Option<Owner>, Refusal>
    ensures { FolderAs (records_in checked.now.book) path.now (find (push_of folder.now tsconfig_json) (paths_of (records_in checked.now.book))) result }
{
    match checked.book.paths.config_in(folder) {
        Some(c) => owned_by_record(checked, c, path),
        None => Ok(None),
    }
}

// The path as a folder and each folder above it in turn, until one owns the path.
pub fn find_owner(checked: &CheckedBook<'_>, path: &[u8]) -> Result<Option<Owner>, Refusal>
    ensures { owner_of (records_in checked.now.book) path.now ≡ answered result (given None) }
{
    if inside_node_modules(path) {
        return Ok(None);
    }
    let mut folder = path;
    for _ in 0..count_components(path).max(1) {
        if let Some(owner) = owned_in(checked, folder, path)? {
            return Ok(Some(owner));
        }
        folder = parent(folder);
    }
    Ok(None)
}
