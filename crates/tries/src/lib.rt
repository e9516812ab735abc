// The paths that a specifier is tried at from a directory: what the mapping gives and the specifier read from baseUrl, or, where it starts
// with a dot, the path itself and its like in the other root dirs.
#![tactic(auto)]

ghost use Rattle.std.specs.Prelude.{◌≤◌, length};
ghost use Rattle.join.specs.Join.{normalize_with};
ghost use Rattle.tsconfig.specs.Config.{root_dirs};
ghost use Rattle.tsconfig.specs.Mapping.{root_tries, tries};
ghost use Rattle.sites.specs.Sites.{settings_in};
ghost use Rattle.mapping.specs.Asks.{Asks};
ghost use Rattle.targets.specs.Targets.{Lists};

use component_walk::inside_node_modules;
use emit::Output;
use join::normalize_with;
use mapping::{put_aliases, put_from_base, starts_dot};
use root_tries::put_root_tries;
use rows::places;
use sites::{Built, Config};

// Writes the tries of a specifier that starts with a dot, and gives how many they are: read from the directory, in the root dirs of the row's config.
fn put_from_roots(out: &mut Output, config: &Config, directory: &[u8], spec: &[u8]) -> usize
    requires asks { Asks spec.now out.old.at }
    requires directory { length directory.now ≤ 512 }
    ensures { Lists (root_tries (normalize_with directory.now spec.now) ((settings_in config.now).named root_dirs)) out.old out.new result }
{
    let Some(record) = config.supplier(places::ROOT_DIRS) else {
        return 0;
    };
    // Of fixed length: nothing takes memory from a heap.
    let mut buffer = [0u8; 1100];
    let p = normalize_with(directory, spec, &mut buffer);
    put_root_tries(out, &record, config.dir, p)
}

// Writes the tries of the config for the specifier, from the directory, and gives how many they are: none inside `node_modules`.
pub fn put_tries(out: &mut Output, built: &Built, directory: &[u8], spec: &[u8]) -> usize
    requires asks { Asks spec.now out.old.at }
    requires directory { length directory.now ≤ 512 }
    ensures { Lists (tries (settings_in built.now.config) directory.now spec.now) out.old out.new result }
{
    if inside_node_modules(directory) {
        return 0;
    }
    if starts_dot(spec) {
        return put_from_roots(out, &built.config, directory, spec);
    }
    let mapped = put_aliases(out, built, spec);
    mapped + put_from_base(out, built, spec)
}
