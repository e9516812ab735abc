// What a specifier maps to: the key of `paths` that is chosen, its targets, and the candidates.
#![tactic(auto)]

ghost use Rattle.std.specs.Prelude.{◌≡◌, ◌<◌, ◌≤◌, ◌^◌, map, length, Some};
ghost use Rattle.text.specs.Bytes.{dot};
ghost use Rattle.components.specs.Components.{starts};
ghost use Rattle.book.specs.Record.{keys_of};
ghost use Rattle.record.specs.Read.{read};
ghost use Rattle.tsconfig.specs.Config.{base_url};
ghost use Rattle.tsconfig.specs.Mapping.{from_paths, aliases, from_base_url, candidates};
ghost use Rattle.sites.specs.Sites.{settings_in};
ghost use Rattle.mapping.specs.Asks.{Asks};
ghost use Rattle.choice.specs.Keyed.{built_key};
ghost use Rattle.targets.specs.Targets.{Lists};

use choice::{best_key, equal_key};
use emit::Output;
use keys::key_match;
use record::Record;
use rows::places;
use sites::Built;
use targets::{put_read, put_targets};
use text::DOT;

// What is asked of the specifier and the place (`Asks`) is asked once more by what calls: a type for the two would be opened at each write.

// Writes what the `paths` of the record give for the specifier, and gives how many they are: the targets of an equal key as they are built, else
// those of the best wildcard, filled.
fn put_mapped(out: &mut Output, built: &Built, record: &Record, spec: &[u8]) -> usize
    requires asks { Asks spec.now out.old.at }
    requires book { length record.now.commands.now ≤ 32768 }
    ensures { Lists (from_paths spec.now (Some (map (built_key built.now.config.dir.now built.now.base.now) (keys_of record.now.text.now (read record.now.commands.now record.now.at))))) out.old out.new result }
{
    let dir = built.config.dir;
    if let Some(key) = equal_key(record, spec) {
        return put_targets(out, key.targets, dir, built.base, None);
    }
    let Some(key) = best_key(record, spec) else {
        return 0;
    };
    put_targets(out, key.targets, dir, built.base, key_match(key.name, spec))
}

// Whether s starts with a dot.
#[tactic(auto, unfolding(components::specs::Components::starts))]
pub fn starts_dot(s: &[u8]) -> bool
    ensures { result ≡ starts dot s.now }
{
    matches!(s, [DOT, ..])
}

// Writes the aliases of the config for the specifier, and gives how many they are: none where it starts with a dot.
pub fn put_aliases(out: &mut Output, built: &Built, spec: &[u8]) -> usize
    requires { Asks spec.now out.old.at }
    ensures { Lists (aliases (settings_in built.now.config) spec.now) out.old out.new result }
{
    if starts_dot(spec) {
        return 0;
    }
    // A `match` here and below, and no method of Option: the arms write to the output.
    match built.config.supplier(places::PATHS) {
        Some(record) => put_mapped(out, built, &record, spec),
        None => 0,
    }
}

// Writes the specifier read from the base, where baseUrl is named, and gives how many paths that is.
pub fn put_from_base(out: &mut Output, built: &Built, spec: &[u8]) -> usize
    requires spec { length spec.now ≤ 512 }
    requires near { out.old.at < 2 ^ 62 }
    ensures paths { Lists (from_base_url (settings_in built.now.config) spec.now ((settings_in built.now.config).named base_url)) out.old out.new result }
    ensures one { result ≤ 1 }
{
    match built.config.supplier(places::BASE_URL) {
        Some(_) => {
            put_read(out, built.base, spec);
            1
        }
        None => 0,
    }
}

// Writes the candidates of the config for the specifier, and gives how many they are: what the mapping gives, and where it gives none and
// baseUrl is named, the specifier read from the base.
pub fn put_candidates(out: &mut Output, built: &Built, spec: &[u8]) -> usize
    requires { Asks spec.now out.old.at }
    ensures { Lists (candidates (settings_in built.now.config) spec.now) out.old out.new result }
{
    let count = put_aliases(out, built, spec);
    if 0 < count {
        return count;
    }
    put_from_base(out, built, spec)
}
