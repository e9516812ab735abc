// The root dirs of a record, and the one that a path lies in.
#![tactic(auto)]

ghost use Rattle.std.specs.Prelude.{◌≡◌, ◌≤◌, None, length, option_copied, option_map, IfSome};
ghost use Rattle.tsconfig.specs.Mapping.{root_above};
ghost use Rattle.roots.specs.Roots.{built_place, roots_of};

use book::ROOT_DIR;
use path::lies_under;
use record::Record;
use values::build_place;

// The root dir of the record that p lies under and whose text is the longest when it is built, of equal ones the earliest. dir is the built config's
// directory, own the record's.
pub fn best_root<'a>(record: &Record<'a>, dir: &[u8], own: &[u8], p: &[u8]) -> Option<&'a [u8]>
    requires dir { length dir.now ≤ 512 }
    requires own { length own.now ≤ 512 }
    ensures value { option_map (built_place dir.now own.now) (option_copied result) ≡ root_above p.now None (roots_of record.now.commands.now record.now.text.now dir.now own.now record.now.at) }
    ensures short { IfSome result (λ s. length s.now ≤ 512) }
{
    // What the next must reach is kept beside the best: the best would have to be built again each time.
    let mut best = None;
    let mut least = 0;
    for s in record.strings(ROOT_DIR) {
        // Of fixed length: nothing takes memory from a heap.
        let mut buffer = [0u8; 1600];
        let root = build_place(dir, own, s, &mut buffer);
        if least <= root.len() && lies_under(p, root) {
            best = Some(s);
            least = root.len() + 1;
        }
    }
    best
}
