// A key of `paths` against a specifier: whether it matches, and the piece that its star stood for.
#![tactic(auto)]

ghost use Rattle.std.specs.Prelude.{◌≡◌, ◌<◌, length, option_copied};
ghost use Rattle.keys.specs.Keys.{matches_at, key_part};

use text::{find_star, from, same_text, starts_with, upto};

// Whether the specifier is the bytes of the key before its star, then any bytes, then those after it.
#[tactic(auto, using(crate::proofs::Laws::as_tested))]
pub fn matches_at(key: &[u8], star: usize, spec: &[u8]) -> bool
    requires { star < length key.now }
    ensures { result ≡ matches_at key.now star spec.now }
{
    let suffix = from(key, star + 1);
    star + suffix.len() <= spec.len()
        && starts_with(spec, upto(key, star))
        && same_text(from(spec, spec.len() - suffix.len()), suffix)
}

// The piece of the specifier that the star of the key stood for, where the key has a star and matches.
pub fn key_match<'a>(key: &[u8], spec: &'a [u8]) -> Option<&'a [u8]>
    ensures { option_copied result ≡ key_part key.now spec.now }
{
    let star = find_star(key)?;
    let rest = spec.strip_prefix(&key[..star])?;
    rest.strip_suffix(&key[star + 1..])
}
