// Byte strings: equality, prefixes, searches and parts.
#![tactic(auto)]

ghost use Rattle.std.specs.Prelude.{◌≡◌, take, drop};
ghost use Rattle.text.specs.Text.{prefix_of, same_text, find, star_of, find_last, between, before_byte, after_byte};

pub const SLASH: u8 = b'/';

pub const DOT: u8 = b'.';

pub const STAR: u8 = b'*';

pub const QUESTION: u8 = b'?';

// The bytes that are looked at in one step, by the lanes of a vector.
pub const LANES: usize = 16;

// Whether p is a prefix of s.
pub fn starts_with(s: &[u8], p: &[u8]) -> bool
    ensures { result ≡ prefix_of p.now s.now }
{
    s.starts_with(p)
}

// Whether a and b are the same bytes. Texts of different length are not compared.
pub fn same_text(a: &[u8], b: &[u8]) -> bool
    ensures { result ≡ same_text a.now b.now }
{
    a == b
}

// Where b first stands in s.
pub fn find_byte(s: &[u8], b: u8) -> Option<usize>
    ensures { result ≡ find b s.now }
{
    s.iter().position(|x| *x == b)
}

// Where b last stands in s, looked for from the end.
pub fn find_last(s: &[u8], b: u8) -> Option<usize>
    ensures { result ≡ find_last b s.now }
{
    s.iter().rposition(|x| *x == b)
}

// Where the first star of s stands.
pub fn find_star(s: &[u8]) -> Option<usize>
    ensures { result ≡ star_of s.now }
{
    find_byte(s, STAR)
}

// The bytes of s from k on: none where s is shorter.
pub fn from(s: &[u8], k: usize) -> &[u8]
    ensures { result.now ≡ drop k s.now }
{
    if s.len() <= k {
        return &s[..0];
    }
    &s[k..]
}

// The first k bytes of s: all of it where s is shorter.
pub fn upto(s: &[u8], k: usize) -> &[u8]
    ensures { result.now ≡ take k s.now }
{
    if s.len() <= k {
        return s;
    }
    &s[..k]
}

// The bytes of s from a up to e, as far as s reaches. Nothing calls it: it stays with its must-fail edit.
pub fn between(s: &[u8], a: usize, e: usize) -> &[u8]
    ensures { result.now ≡ between a e s.now }
{
    if e <= a {
        return &s[..0];
    }
    upto(from(s, a), e - a)
}

// The bytes of s before the first b, or all of it where there is none.
pub fn part_before(s: &[u8], b: u8) -> &[u8]
    ensures { result.now ≡ before_byte b s.now }
{
    let Some(i) = find_byte(s, b) else {
        return s;
    };
    upto(s, i)
}

// The bytes of s after the first b, or none where there is none.
pub fn part_after(s: &[u8], b: u8) -> &[u8]
    ensures { result.now ≡ after_byte b s.now }
{
    let Some(i) = find_byte(s, b) else {
        return upto(s, 0);
    };
    from(s, i + 1)
}
