// Two strings compared: whether one path lies under the other, and a byte by which texts that differ are told apart.
#![tactic(auto)]

ghost use Rattle.std.specs.Prelude.{◌≡◌, ◌+◌, ◌-◌, ◌*◌, ◌/◌, ◌≤◌, length};
ghost use Rattle.std.specs.List.{fold};
ghost use Rattle.compare.specs.Compare.{covers, word_at, stir, words_stirred, digest_of};

use text::SLASH;

// Whether q is p or lies under it. The byte behind p is looked at first, and texts are compared only where it leaves that open.
pub fn covers(p: &[u8], q: &[u8]) -> bool
    ensures { result ≡ covers p.now q.now }
{
    let n = p.len();
    (q.len() == n || n < q.len() && q[n] == SLASH) && p == &q[..n]
}

// Bytes of a word.
const WORD: usize = 8;

// Words of a block.
const BLOCK: usize = 8;

// An odd number, whose product carries what differs in the low bits up to the top ones.
const FACTOR: u64 = 0x9E37_79B9_7F4A_7C15;

// Bits below the top byte.
const BELOW_TOP: u32 = 56;

// Eight bytes as a number, low byte first. They are named one by one, of which LLVM makes one load.
fn word(s: &[u8], at: usize) -> u64
    requires { at + 8 ≤ length s.now }
    ensures { result ≡ word_at s.now at }
{
    u64::from_le_bytes([
        s[at],
        s[at + 1],
        s[at + 2],
        s[at + 3],
        s[at + 4],
        s[at + 5],
        s[at + 6],
        s[at + 7],
    ])
}

// A number stirred into what stands before. The product in each step keeps LLVM from making vectors of the loops, which cost short texts more than they save.
fn stir(all: u64, x: u64) -> u64
    ensures { result ≡ stir all x }
{
    all.wrapping_add(x).wrapping_mul(FACTOR)
}

// A text by its bytes.
fn by_bytes(s: &[u8]) -> u64
    ensures { result ≡ fold stir (length s.now) s.now }
{
    s.iter()
        .fold(s.len() as u64, |all, x| stir(all, u64::from(*x)))
}

// The words from number `from` to before number `to`, stirred into what stands before them.
fn words(s: &[u8], from: usize, to: usize, before: u64) -> u64
    requires order { from ≤ to }
    requires in_text { 8 * to ≤ length s.now }
    requires start { before ≡ words_stirred s.now from }
    ensures { result ≡ words_stirred s.now to }
{
    let mut all = before;
    for k in from..to {
        all = stir(all, word(s, WORD * k));
    }
    all
}

// A text by its words from the front, and its last eight bytes. The words beyond whole blocks come first: they are less than 8, and LLVM writes that loop out, which
// spares a text under 64 bytes some ten instructions.
fn by_words(s: &[u8]) -> u64
    requires { 8 ≤ length s.now }
    ensures { result ≡ stir (words_stirred s.now (length s.now / 8)) (word_at s.now (length s.now - 8)) }
{
    let n = s.len();
    let count = n / WORD;
    let beyond = count % BLOCK;
    let first = words(s, 0, beyond, n as u64);
    let all = words(s, beyond, count, first);
    stir(all, word(s, n - WORD))
}

// A byte that is the same for the same text: texts with another digest are not compared.
pub fn digest(s: &[u8]) -> u8
    ensures { result ≡ digest_of s.now }
{
    let all = if s.len() < WORD {
        by_bytes(s)
    } else {
        by_words(s)
    };
    (all >> BELOW_TOP) as u8
}
