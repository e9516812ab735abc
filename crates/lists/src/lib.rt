// What the programs have in common that hold the code to fixed lists: numbers among a list's bytes, and how its entries fared.
#![tactic(auto)]

ghost use Rattle.std.specs.Prelude.{◌≡◌, ◌^◌, ◌<◌};
ghost use Rattle.lists.specs.Lists.{low_first, counted, tallied};

use text::from;

// The byte at `at`, 0 where s is shorter.
pub fn byte_at(s: &[u8], at: usize) -> usize
    ensures value { result ≡ low_first 1 s.now at }
    ensures small { result < 256 }
{
    s.get(at).map_or(0, |x| usize::from(*x))
}

// The numbers of two, three and four bytes, each by the narrower ones: one function over their count is a loop with a bound, and no plainer. A byte that
// is not there is 0, where `word_at` of `book`, over which this crate does not stand, asks that it is there.

// The two bytes at `at`, low first.
pub fn word_at(s: &[u8], at: usize) -> usize
    ensures value { result ≡ low_first 2 s.now at }
    ensures small { result < 65536 }
{
    let part = from(s, at);
    byte_at(part, 0) + byte_at(part, 1) * 256
}

// The three bytes at `at`, low first.
pub fn triple_at(s: &[u8], at: usize) -> usize
    ensures value { result ≡ low_first 3 s.now at }
    ensures small { result < 16777216 }
{
    let part = from(s, at);
    word_at(part, 0) + byte_at(part, 2) * 65536
}

// The four bytes at `at`, low first.
pub fn long_at(s: &[u8], at: usize) -> usize
    ensures value { result ≡ low_first 4 s.now at }
    ensures small { result < 4294967296 }
{
    let part = from(s, at);
    word_at(part, 0) + word_at(part, 2) * 65536
}

// Entries, those that disagree with what is listed, and the number of the first of these, 0 where there is none: so it is written.
#[derive(Clone, Copy, PartialEq, Eq, Default)]
pub struct Tally {
    pub entries: u64,
    pub wrong: u64,
    pub first: u64,
}

impl Tally {
    // No entry.
    pub fn new() -> Tally
        ensures entries { result.entries ≡ 0 }
        ensures wrong { result.wrong ≡ 0 }
        ensures first { result.first ≡ 0 }
    {
        Tally::default()
    }

    // One entry more. Numbers stay where they can grow no more.
    pub fn with(self, agrees: bool) -> Tally
        ensures { result ≡ tallied self agrees }
    {
        let entries = self.entries.saturating_add(1);
        if agrees {
            return Tally { entries, ..self };
        }
        Tally {
            entries,
            wrong: self.wrong.saturating_add(1),
            first: if self.wrong == 0 { entries } else { self.first },
        }
    }
}
