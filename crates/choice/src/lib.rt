// The key of `paths` that a specifier is mapped by: the equal one, or the best wildcard.
#![tactic(auto)]

ghost use Rattle.std.specs.Prelude.{◌≡◌, ◌≤◌, None, length, option_map, IfSome};
ghost use Rattle.book.specs.Record.{keys_of};
ghost use Rattle.record.specs.Read.{read};
ghost use Rattle.record.specs.Lists.{key_of};
ghost use Rattle.tsconfig.specs.Mapping.{equal_key, best_key};

use keys::matches_at;
use record::{Key, Place};
use text::find_star;

// The key from the place on that is the specifier.
pub fn equal_key<'a, const MOST: usize>(
    place: &Place<'a, MOST>,
    spec: &[u8],
) -> Option<Key<'a, MOST>>
    ensures value { option_map key_of result ≡ equal_key spec.now (keys_of place.now.text.now (read place.now.commands.now place.now.at)) }
    ensures short { IfSome result (λ k. length k.name.now ≤ MOST) }
{
    // A loop and not `find`: the check does not take a closure over keys of any bound.
    for key in place.keys() {
        if key.name == spec {
            return Some(key);
        }
    }
    None
}

// The key from the place on that matches the specifier and has the longest prefix before its first star, of equal ones the earliest.
pub fn best_key<'a, const MOST: usize>(
    place: &Place<'a, MOST>,
    spec: &[u8],
) -> Option<Key<'a, MOST>>
    ensures value { option_map key_of result ≡ best_key spec.now None (keys_of place.now.text.now (read place.now.commands.now place.now.at)) }
    ensures short { IfSome result (λ k. length k.name.now ≤ MOST) }
{
    // What the next must reach is kept beside the best: out of the key it would be looked for again each time.
    let mut best = None;
    let mut least = 0;
    for key in place.keys() {
        let Some(star) = find_star(key.name) else {
            continue;
        };
        if least <= star && matches_at(key.name, star, spec) {
            best = Some(key);
            least = star + 1;
        }
    }
    best
}
