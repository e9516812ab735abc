// Reading a checked book: the records by their paths.
#![tactic(auto)]

ghost use Rattle.std.specs.Prelude.{◌≡◌, [], IfSome, ◌&&◌, ◌+◌, ◌-◌, ◌<◌, ◌≤◌, eqb, length, get_or};
ghost use Rattle.text.specs.Text.{prefix_of, same_text, some_of};
ghost use Rattle.names.specs.Names.{tsconfig_json};
ghost use Rattle.join.specs.Join.{push_of, slash_if};
ghost use Rattle.book.specs.Find.{find, is_dir, locate};
ghost use Rattle.book.specs.Index.{index_at, path_in};
ghost use Rattle.records.specs.Joined.{path_of, head_of};
ghost use Rattle.records.specs.Looks.{Unlike, Passed};

use book::{IndexRow, piece};
use components::is_absolute;
use join::wants_slash;
use text::{SLASH, from, starts_with};

// How far from the end of a path the byte before `.json` stands: most paths of records end so.
const BEFORE_JSON: usize = 6;

// A path that is not put together: a front and a tail, with a slash between them where they stand apart. Whether they do is a datum: the front may
// end with a slash itself.
#[derive(Clone, Copy)]
struct Joined<'a> {
    front: &'a [u8],
    apart: bool,
    tail: &'a [u8],
}

impl Joined<'_> {
    // Where the tail begins.
    fn tail_start(&self) -> usize
        ensures { result ≡ length self.now.front.now + length (slash_if self.now.apart) }
    {
        self.front.len() + usize::from(self.apart)
    }

    // Whether q begins with the front, and then a slash where the tail stands apart.
    fn leads(&self, q: &[u8]) -> bool
        ensures { result ≡ prefix_of (head_of self.now) q.now }
    {
        let k = self.front.len();
        starts_with(q, self.front) && (!self.apart || (k < q.len() && q[k] == SLASH))
    }

    // Whether q is this path. Texts of different length are not compared.
    fn is(&self, q: &[u8]) -> bool
        ensures { result ≡ same_text (path_of self.now) q.now }
    {
        let k = self.tail_start();
        if q.len() != k + self.tail.len() {
            return false;
        }
        starts_with(from(q, k), self.tail) && self.leads(q)
    }

    // Where q, which is another path, is best told from this one: where it differs, or at k where it ends before, so that there is always a place to look.
    fn difference(&self, q: &[u8], k: usize) -> usize {
        let at = self.tail_start();
        if q.len() < at + self.tail.len() {
            return k;
        }
        if let Some(j) = last_difference(from(q, at), self.tail) {
            return at + j;
        }
        last_difference(q, self.front).unwrap_or(k)
    }
}

// The last place where q differs from p.
fn last_difference(q: &[u8], p: &[u8]) -> Option<usize>
    requires { length p.now ≤ length q.now }
    ensures { IfSome result (λ j. j < length p.now) }
{
    (0..p.len()).rfind(|i| q[*i] != p[*i])
}

// Whether one byte of the text is x and another y.
fn agrees(text: &[u8], a: usize, x: u8, b: usize, y: u8) -> bool
    requires { (a < length text.now) × (b < length text.now) }
    ensures { result ≡ (eqb (get_or text.now a 0) x && eqb (get_or text.now b 0) y) }
{
    text[a] == x && text[b] == y
}

// The paths of a book's records, by the rows of its index.
#[derive(Clone, Copy)]
pub struct PathTable<'a> {
    pub text: &'a [u8],
    pub rows: &'a [IndexRow],
}

impl<'a> PathTable<'a> {
    ghost use Rattle.records.specs.Tables.{paths_in};

    // The path of record i.
    pub fn path(&self, i: usize) -> &'a [u8]
        requires { i < length self.now.rows.now }
        ensures { result.now ≡ path_in self.now.text.now (index_at self.now.rows.now i) }
    {
        piece(self.text, self.rows[i].start, self.rows[i].len)
    }

    // The first row from i on whose byte k may be x and whose byte m may be y; the number of rows where none is left, and no Option: the walks below go on
    // from it and end there. A loop over numbers, for the answer is one.
    fn next_like(&self, i: usize, x: u8, k: usize, y: u8, m: usize) -> usize
        requires { (i ≤ length self.now.rows.now) × (m ≤ k) }
        ensures { Unlike self.now.text.now self.now.rows.now x k y m i result }
    {
        if self.text.len() < k {
            return i;
        }
        let end = self.text.len() - k;
        for j in i..self.rows.len() {
            let start = self.rows[j].start;
            if end <= start || agrees(self.text, start + k, x, start + m, y) {
                return j;
            }
        }
        self.rows.len()
    }

    // The first row from i on that may begin with p. Only the byte k and the one before it are looked at, and none where k is the slash. Inlined:
    // an owner's walk calls it for each folder.
    #[inline(always)]
    fn next_joined(&self, i: usize, p: &Joined<'_>, k: usize) -> usize
        requires { i ≤ length self.now.rows.now }
        ensures { Passed self.now.text.now self.now.rows.now (path_of p.now) i result }
    {
        if k < p.front.len() {
            let m = k.saturating_sub(1);
            return self.next_like(i, p.front[k], k, p.front[m], m);
        }
        let at = p.tail_start();
        if k < at || p.tail.len() <= k - at {
            return i;
        }
        let j = k - at;
        let m = j.saturating_sub(1);
        self.next_like(i, p.tail[j], k, p.tail[m], at + m)
    }

    // The record whose path is p. The rows are told apart by two bytes, first at `look`, then where the row before differed.
    fn find_joined(&self, p: &Joined<'_>, look: usize) -> Option<usize>
        ensures { result ≡ find (path_of p.now) (paths_in self.now) }
    {
        let mut k = look;
        let mut i = 0;
        // No walk over the rows: each look goes on behind the last, with other bytes.
        loop {
            let c = self.next_joined(i, p, k);
            if self.rows.len() <= c {
                return None;
            }
            let q = self.path(c);
            if p.is(q) {
                return Some(c);
            }
            k = p.difference(q, k);
            i = c + 1;
        }
    }

    // Whether a record's path begins with the front, and then a slash where the tail, which is empty, stands apart.
    fn is_some_inside(&self, p: &Joined<'_>) -> bool
        requires { p.now.tail.now ≡ [] }
        ensures { result ≡ some_of (prefix_of (head_of p.now)) (paths_in self.now) }
    {
        let k = p.front.len().saturating_sub(1);
        // No walk over the rows: `next_joined` passes over those that two bytes rule out.
        let mut i = self.next_joined(0, p, k);
        while i < self.rows.len() {
            if p.leads(self.path(i)) {
                return true;
            }
            i = self.next_joined(i + 1, p, k);
        }
        false
    }

    // The record whose path is p.
    pub fn find(&self, p: &[u8]) -> Option<usize>
        ensures { result ≡ find p.now (paths_in self.now) }
    {
        let path = Joined {
            front: p,
            apart: false,
            tail: b"",
        };
        self.find_joined(&path, p.len().saturating_sub(BEFORE_JSON))
    }

    // Whether p is a directory: a proper ancestor of a record's path.
    pub fn is_dir(&self, p: &[u8]) -> bool
        ensures { result ≡ is_dir (paths_in self.now) p.now }
    {
        let folder = Joined {
            front: p,
            apart: wants_slash(p),
            tail: b"",
        };
        is_absolute(p) && self.is_some_inside(&folder)
    }

    // The record that is the `tsconfig.json` of the folder d.
    pub fn config_in(&self, d: &[u8]) -> Option<usize>
        ensures { result ≡ find (push_of d.now tsconfig_json) (paths_in self.now) }
    {
        let path = Joined {
            front: d,
            apart: wants_slash(d),
            tail: b"tsconfig.json",
        };
        self.find_joined(&path, d.len().saturating_sub(1))
    }

    // The record that is so named in the folder d.
    pub fn named_in(&self, d: &[u8], name: &[u8]) -> Option<usize>
        ensures { result ≡ find (push_of d.now name.now) (paths_in self.now) }
    {
        let path = Joined {
            front: d,
            apart: wants_slash(d),
            tail: name,
        };
        let len = path.tail_start() + name.len();
        self.find_joined(&path, len.saturating_sub(BEFORE_JSON))
    }

    // The record that an asked path means: itself, a directory's `tsconfig.json`, or the path with `.json`.
    pub fn locate(&self, p: &[u8]) -> Option<usize>
        ensures { result ≡ locate (paths_in self.now) p.now }
    {
        // A `match`, and no `or_else`: of three ways each has its condition in an arm.
        match self.find(p) {
            Some(i) => Some(i),
            None if self.is_dir(p) => self.config_in(p),
            None => {
                let path = Joined {
                    front: p,
                    apart: false,
                    tail: b".json",
                };
                self.find_joined(&path, p.len().saturating_sub(1))
            }
        }
    }
}
