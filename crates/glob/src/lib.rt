// A pattern with `?`, `*` and `**` up to its first star, and how it fares against a path.
#![tactic(auto)]

ghost use Rattle.std.specs.Prelude.{◌≡◌};
ghost use Rattle.glob.specs.Glob.{glob_of};
ghost use Rattle.glob.specs.Verdicts.{FrontIs, AtStar, Skips, is_yes, is_settled, is_decided, inside_of, past_of, dirs_of, behind_of, passed_of, takes_of};

use text::{QUESTION, SLASH, STAR};

// How a pattern fares against a path. A failure says where else it fails too, so that an earlier star need not try there.
#[derive(Clone, Copy, PartialEq, Eq)]
pub enum Verdict {
    Yes,
    // It fails here.
    No,
    // It fails here and further on in this component.
    Stop,
    // It fails here and at each later start of a component.
    Later,
    // It fails here and everywhere further on.
    Never,
}

// What a pattern comes to before its first star.
#[derive(Clone, Copy, PartialEq, Eq)]
pub enum Front {
    // No star decides it, or a last `**` does.
    Known(Verdict),
    // It takes so many bytes, and then comes `*`.
    Star(usize),
    // It takes so many bytes, and then comes `**/`.
    Stars(usize),
}

impl Verdict {
    pub fn is_yes(self) -> bool
        ensures { result ≡ is_yes self }
    {
        matches!(self, Verdict::Yes)
    }

    // Of these tables of five rows some are alike but for a row or two: each is a line of the definition.

    // Whether a verdict after a star leaves nothing to try.
    pub fn is_settled(self) -> bool
        ensures { result ≡ is_settled self }
    {
        matches!(self, Verdict::Yes | Verdict::Stop | Verdict::Never)
    }

    // Whether a verdict after `**/` leaves nothing to try.
    pub fn is_decided(self) -> bool
        ensures { result ≡ is_decided self }
    {
        matches!(self, Verdict::Yes | Verdict::Later | Verdict::Never)
    }

    // The verdict with a byte in front that is no slash.
    fn inside(self) -> Verdict
        ensures { result ≡ inside_of self }
    {
        match self {
            Verdict::No | Verdict::Later => Verdict::No,
            Verdict::Yes | Verdict::Stop | Verdict::Never => self,
        }
    }

    // The verdict with a slash in front.
    fn past(self) -> Verdict
        ensures { result ≡ past_of self }
    {
        match self {
            Verdict::Yes => Verdict::Yes,
            Verdict::No | Verdict::Stop => Verdict::No,
            Verdict::Later | Verdict::Never => Verdict::Never,
        }
    }

    // The verdict with `**/` in front.
    pub fn dirs(self) -> Verdict
        ensures { result ≡ dirs_of self }
    {
        match self {
            Verdict::Yes => Verdict::Yes,
            Verdict::No | Verdict::Stop => Verdict::No,
            Verdict::Later | Verdict::Never => Verdict::Later,
        }
    }

    // The verdict with the byte x of the path in front.
    fn behind(self, x: u8) -> Verdict
        ensures { result ≡ behind_of x self }
    {
        if x == SLASH {
            self.past()
        } else {
            self.inside()
        }
    }

    // The verdict with the bytes w of the path in front.
    pub fn passed(self, w: &[u8]) -> Verdict
        ensures { result ≡ passed_of w.now self }
    {
        w.iter().rev().fold(self, |v, x| v.behind(*x))
    }
}

// Whether the byte c of a pattern, no star, takes the byte x of a path.
fn takes(c: u8, x: u8) -> bool
    ensures { result ≡ takes_of c x }
{
    x == c || c == QUESTION && x != SLASH
}

// What the star at i comes to, before which p takes the first i bytes of s.
fn at_star(p: &[u8], s: &[u8], i: usize) -> Front
    requires { AtStar i p.now s.now }
    ensures { FrontIs result p.now s.now }
{
    match &p[i + 1..] {
        [STAR] if s.len() == i => Front::Known(Verdict::Never),
        [STAR] => Front::Known(Verdict::Yes),
        [STAR, SLASH, ..] => Front::Stars(i),
        _ => Front::Star(i),
    }
}

// p against s up to the first star of p.
pub fn reach(p: &[u8], s: &[u8]) -> Front
    ensures { FrontIs result p.now s.now }
{
    for (i, c) in p.iter().enumerate() {
        if *c == STAR {
            return at_star(p, s, i);
        }
        if i == s.len() {
            return Front::Known(Verdict::Never);
        }
        if !takes(*c, s[i]) {
            return Front::Known(Verdict::No);
        }
    }
    Front::Known(if p.len() == s.len() {
        Verdict::Yes
    } else {
        Verdict::No
    })
}

// How many bytes of s come before the next place at which p can begin, or before the component's end.
pub fn skip(p: &[u8], s: &[u8]) -> usize
    ensures { Skips (glob_of p.now) s.now result }
{
    match p {
        [] => s.iter().position(|x| *x == SLASH).unwrap_or(s.len()),
        [STAR | QUESTION, ..] => 0,
        [c, ..] => s
            .iter()
            .position(|x| *x == SLASH || x == c)
            .unwrap_or(s.len()),
    }
}
