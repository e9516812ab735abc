// The targets of a key as they are built and written, and a specifier read from a base, in the layout of an answer.
#![tactic(auto)]

ghost use Rattle.std.specs.Prelude.{[], ◌∷◌, ◌+◌, ◌^◌, ◌≤◌, ◌<◌, map, length, option_copied};
ghost use Rattle.emit.specs.Emit.{Room};
ghost use Rattle.emit.specs.Output.{Puts};
ghost use Rattle.join.specs.Join.{normalize_with};
ghost use Rattle.record.specs.Lists.{targets_left};
ghost use Rattle.tsconfig.specs.Mapping.{filled};
ghost use Rattle.tsconfig.specs.Laid.{size_of, laid};
ghost use Rattle.targets.specs.Targets.{target_as, EachShort, Short, Fits, Lists};

use emit::Output;
use join::normalize_with;
use record::Targets;
use text::{find_star, from, upto};
use values::adjust;

// The length of a buffer that is long enough for most paths.
const SHORT: usize = 256;

// Writes a length as two bytes, low byte first.
fn put_size(out: &mut Output, n: usize)
    requires room { Room out.old.at (size_of n) }
    requires short { n < 65536 }
    ensures { Puts (size_of n) out.old out.new }
{
    out.put_text(&(n as u16).to_le_bytes());
}

// Writes a path with its length before it.
pub fn put_path(out: &mut Output, v: &[u8])
    requires room { Room out.old.at (laid (v.now ∷ [])) }
    requires short { length v.now < 65536 }
    ensures { Puts (laid (v.now ∷ [])) out.old out.new }
{
    put_size(out, v.len());
    out.put_text(v);
}

// Writes a target with its first star filled, its length before it.
fn put_filled(out: &mut Output, t: &[u8], part: &[u8])
    requires room { Room out.old.at (laid (filled part.now t.now ∷ [])) }
    requires short { length (filled part.now t.now) < 65536 }
    ensures { Puts (laid (filled part.now t.now ∷ [])) out.old out.new }
{
    let Some(star) = find_star(t) else {
        put_path(out, t);
        return;
    };
    let head = upto(t, star);
    let tail = from(t, star + 1);
    put_size(out, head.len() + part.len() + tail.len());
    out.put_text(head);
    out.put_text(part);
    out.put_text(tail);
}

// Writes a target as it is built in a buffer of N bytes, its star filled where there is a part for it.
fn put_target_within<const N: usize>(
    out: &mut Output,
    dir: &[u8],
    base: &[u8],
    t: &[u8],
    part: Option<&[u8]>,
)
    requires room { Room out.old.at (laid (target_as dir.now base.now (option_copied part) t.now ∷ [])) }
    requires short { Short dir.now base.now (option_copied part) }
    requires t { length t.now ≤ 512 }
    requires dir { length dir.now + 1 + length t.now ≤ N }
    requires base { length base.now + 1 + length t.now ≤ N }
    requires buffer { N < 2 ^ 63 }
    ensures { Puts (laid (target_as dir.now base.now (option_copied part.entry) t.now ∷ [])) out.old out.new }
{
    let mut buffer = [0u8; N];
    let path = adjust(dir, base, t, &mut buffer);
    // A `match`, and no method of Option: the arms write to the output.
    match part {
        Some(part) => put_filled(out, path, part),
        None => put_path(out, path),
    }
}

// Writes a target as it is built, its star filled where there is a part for it. Most need a short buffer only, which is set to zero sooner
// (DECISIONS 6).
fn put_target(out: &mut Output, dir: &[u8], base: &[u8], t: &[u8], part: Option<&[u8]>)
    requires room { Room out.old.at (laid (target_as dir.now base.now (option_copied part) t.now ∷ [])) }
    requires short { Short dir.now base.now (option_copied part) }
    requires t { length t.now ≤ 512 }
    ensures { Puts (laid (target_as dir.now base.now (option_copied part.entry) t.now ∷ [])) out.old out.new }
{
    if dir.len() + base.len() + t.len() < SHORT {
        put_target_within::<SHORT>(out, dir, base, t, part);
    } else {
        put_target_within::<2200>(out, dir, base, t, part);
    }
}

// Writes the targets, each as it is built, and gives how many they are.
pub fn put_targets<const MOST: usize>(
    out: &mut Output,
    targets: Targets<MOST>,
    dir: &[u8],
    base: &[u8],
    part: Option<&[u8]>,
) -> usize
    requires short { Short dir.now base.now (option_copied part) }
    requires each { EachShort (targets_left targets) }
    requires room { Fits (targets_left targets) out.old.at }
    ensures { Lists (map (target_as dir.now base.now (option_copied part.entry)) (targets_left targets.entry)) out.old out.new result }
{
    // Counted as they are written: a fold over them is no shorter, and its step would have the promise of the loop.
    let mut count = 0;
    for t in targets {
        put_target(out, dir, base, t, part);
        count += 1;
    }
    count
}

// Writes the specifier as it is read from the base in a buffer of N bytes.
fn put_read_within<const N: usize>(out: &mut Output, base: &[u8], spec: &[u8])
    requires base { length base.now ≤ 1600 }
    requires spec { length spec.now ≤ 1100 }
    requires near { out.old.at < 2 ^ 62 }
    requires room { length base.now + 1 + length spec.now ≤ N }
    requires buffer { N < 2 ^ 63 }
    ensures { Puts (laid (normalize_with base.now spec.now ∷ [])) out.old out.new }
{
    let mut buffer = [0u8; N];
    put_path(out, normalize_with(base, spec, &mut buffer));
}

// Writes the specifier as it is read from the base. Most need a short buffer only, which is set to zero sooner (DECISIONS 6).
pub fn put_read(out: &mut Output, base: &[u8], spec: &[u8])
    requires base { length base.now ≤ 1600 }
    requires spec { length spec.now ≤ 1100 }
    requires near { out.old.at < 2 ^ 62 }
    ensures { Puts (laid (normalize_with base.now spec.now ∷ [])) out.old out.new }
{
    if base.len() + spec.len() < SHORT {
        put_read_within::<SHORT>(out, base, spec);
    } else {
        put_read_within::<2800>(out, base, spec);
    }
}
