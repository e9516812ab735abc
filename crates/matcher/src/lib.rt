// Patterns against paths: what follows a star is tried at one place after another.
#![tactic(auto)]

ghost use Rattle.std.specs.Prelude.{◌≡◌};
ghost use Rattle.glob.specs.Glob.{glob_of, after, after_dirs, no_slash};
ghost use Rattle.glob.specs.Verdicts.{Sound};

use glob::{Front, Verdict, reach, skip};
use text::{SLASH, find_byte};

// How p fares against s.
#[cycle(glob)]
fn glob(p: &[u8], s: &[u8]) -> Verdict
    ensures { Sound result (glob_of p.now) s.now }
{
    match reach(p, s) {
        Front::Known(v) => v,
        Front::Star(k) => after_star(&p[k + 1..], &s[k..]).passed(&s[..k]),
        Front::Stars(k) => after_stars(&p[k + 3..], &s[k..]).passed(&s[..k]),
    }
}

// How a star with p after it fares against s: p is tried at one place after another, up to the component's end.
#[cycle(glob)]
fn after_star(p: &[u8], s: &[u8]) -> Verdict
    ensures { Sound result (after no_slash (glob_of p.now)) s.now }
{
    // The next try begins behind what the failure rules out.
    let mut left = s;
    loop {
        let here = &left[skip(p, left)..];
        let v = glob(p, here);
        if v.is_settled() {
            return v;
        }
        left = match here {
            [] => return Verdict::Never,
            [SLASH, ..] => return Verdict::Stop,
            [_, rest @ ..] => rest,
        };
    }
}

// How `**/` with p after it fares against s: p is tried at the start, and after each slash.
#[cycle(glob)]
fn after_stars(p: &[u8], s: &[u8]) -> Verdict
    ensures { Sound result (after_dirs (glob_of p.now)) s.now }
{
    // The next try begins behind the next slash: a piece alone is not what is tried.
    let mut here = s;
    loop {
        let v = glob(p, here);
        if v.is_decided() {
            return v.dirs();
        }
        let Some(j) = find_byte(here, SLASH) else {
            return Verdict::Later;
        };
        here = &here[j + 1..];
    }
}

// Whether the pattern p matches the whole of the path s.
pub fn matches(p: &[u8], s: &[u8]) -> bool
    ensures { result ≡ glob_of p.now s.now }
{
    glob(p, s).is_yes()
}
