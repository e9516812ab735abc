// Lent output: what fits is written, all of it is counted.
#![tactic(auto)]

ghost use Rattle.std.specs.Prelude.{◌≡◌, [], ◌∷◌, ◌≤◌, length, take};
ghost use Rattle.emit.specs.Emit.{Room};
ghost use Rattle.emit.specs.Output.{Puts, Cut};

// Writes s over bytes of its length.
fn copy(to: &mut [u8], s: &[u8])
    requires { length to.old ≡ length s.now }
    ensures { to.new ≡ s.now }
{
    for i in 0..s.len() {
        to[i] = s[i];
    }
}

// The bytes that are lent, and how many were written so far, be it past their end.
#[derive(Drop)]
pub struct Output<'a> {
    pub bytes: &'a mut [u8],
    pub at: usize,
}

impl<'a> Output<'a> {
    // Output of which nothing is written.
    pub fn new(bytes: &'a mut [u8]) -> Output<'a>
        ensures same { result.bytes.ghost_name ≡ bytes.entry.ghost_name }
        ensures bytes { result.bytes.now ≡ bytes.old }
        ensures at { result.at ≡ 0 }
    {
        Output { bytes, at: 0 }
    }

    // Writes b where the output reaches so far, and counts it.
    pub fn put(&mut self, b: u8)
        requires { Room self.old.at (b ∷ []) }
        ensures { Puts (b ∷ []) self.old self.new }
    {
        if self.at < self.bytes.len() {
            self.bytes[self.at] = b;
        }
        self.at += 1;
    }

    // Writes s as far as the output reaches, and counts all of it.
    pub fn put_text(&mut self, s: &[u8])
        requires { Room self.old.at s.now }
        ensures { Puts s.now self.old self.new }
    {
        if self.at < self.bytes.len() {
            let n = s.len().min(self.bytes.len() - self.at);
            copy(&mut self.bytes[self.at..self.at + n], &s[..n]);
        }
        self.at += s.len();
    }

    // Takes back what was written behind the first n bytes.
    pub fn truncate(&mut self, n: usize)
        ensures { Cut n self.old self.new }
    {
        self.at = n;
    }

    // What was written, where all of it fits.
    pub fn text(&self) -> &[u8]
        requires { self.now.at ≤ length self.now.bytes.now }
        ensures { result.now ≡ take self.now.at self.now.bytes.now }
    {
        &self.bytes[..self.at]
    }

    // The same, of an output that is done with.
    pub fn into_text(self) -> &'a [u8]
        requires { self.at ≤ length self.bytes.now }
        ensures { result.now ≡ take self.entry.at self.entry.bytes.now }
    {
        let Output { bytes, at } = self;
        &bytes[..at]
    }
}
