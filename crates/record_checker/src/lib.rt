// The check of a record: its commands in turn.
#![tactic(auto)]

ghost use Rattle.std.specs.Prelude.{◌≡◌, [], ◌∷◌, ◌++◌, not, ◌&&◌, ◌+◌, ◌<◌, ◌≤◌, length, get_or, eqb, leb, IfOk};
ghost use Rattle.book.specs.Command.{begin, end};
ghost use Rattle.book.specs.State.{has};
ghost use Rattle.book.specs.Checks.{CheckedAs, closed_row};

use book::{BEGIN_SLOT, Closed, END, END_SLOT, Fault, KEY, Refusal, command_at};
use faults::{BookText, Tally};
use meeting::{Keys, Paths};
use usual::pass;

// Whether END stands at the offset, in a record that has begun.
fn is_ended(part: &[u8], at: usize, tally: &Tally) -> bool
    ensures { result ≡ (not (leb (length part.now) at) && (eqb (get_or part.now at 0) end && (not (eqb (has tally.now.counts begin) 0) && eqb (has tally.now.counts end) 0))) }
{
    if part.len() <= at || part[at] != END {
        return false;
    }
    tally.has(BEGIN_SLOT) && !tally.has(END_SLOT)
}

// One record's commands, from its BEGIN on, which stands at base. Its path comes behind those before, and keys is room for its keys.
pub fn check_record(
    text: &BookText<'_>,
    paths: &mut Paths<'_>,
    part: &[u8],
    base: usize,
    keys: &mut Keys,
) -> Result<Closed, Refusal>
    requires size { (0 < length part.now) × (base + length part.now ≤ 32768) }
    requires same_text { paths.old.text ≡ text.now.bytes.now }
    ensures checked { CheckedAs part.now base text.now.bytes.now paths.old.rows result }
    ensures rows_after { IfOk result (λ c. paths.new ≡ record { text = paths.old.text; rows = paths.old.rows ++ closed_row text.now.bytes.now c ∷ [] }) }
{
    let (first, mut at) = command_at(part, 0).map_err(|_| Refusal {
        fault: Fault::Broken,
        place: base,
    })?;
    text.begin(paths, first)
        .map_err(|fault| Refusal { fault, place: base })?;
    keys.clear();
    let mut tally = Tally::begun();
    // `pass` takes several commands at once: the offset goes on by what was taken.
    loop {
        let to = pass(text, part, at, &mut tally, keys);
        if at < to {
            at = to;
            continue;
        }
        let place = base + at;
        if is_ended(part, at, &tally) {
            return Ok(Closed {
                end: place + 1,
                start: first.start,
                len: first.len,
            });
        }
        let refusal = |fault| Refusal { fault, place };
        let (c, next) = command_at(part, at).map_err(|_| refusal(Fault::Broken))?;
        let k = text.fault_of(&tally, c).map_err(&refusal)?;
        if c.op == KEY {
            return Err(refusal(Fault::GivenBefore));
        }
        tally.push(c, k);
        at = next;
    }
}
