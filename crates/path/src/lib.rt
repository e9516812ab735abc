// Whole paths by components: lies under, equality, and what is left after a directory. src/path.rs and what it needs of std's `Path` on Unix.
#![tactic(auto)]

ghost use Rattle.std.specs.Prelude.{◌≡◌, option_copied, option_map};
ghost use Rattle.text.specs.Text.{same_text};
ghost use Rattle.components.specs.Components.{lead_of};
ghost use Rattle.component_walk.specs.Walk.{pieces};
ghost use Rattle.path.specs.Path.{same_path, under, strip_prefix};
ghost use Rattle.path.specs.Left.{left_after};

use component_walk::Components;
use components::lead_len;
use ends::{component_end, trim_end};
use text::upto;

// Whether a and b begin with the same of `/`, `.` and neither.
fn same_lead(a: &[u8], b: &[u8]) -> bool
    ensures { result ≡ same_text (lead_of a.now) (lead_of b.now) }
{
    upto(a, lead_len(a)) == upto(b, lead_len(b))
}

// What is left of p after the directory d, from its next component on.
fn left_after<'a>(p: &'a [u8], d: &[u8]) -> Option<&'a [u8]>
    ensures { option_map pieces (option_copied result) ≡ left_after p.now d.now }
{
    if !same_lead(p, d) {
        return None;
    }
    let mut left = Components::new(p);
    for name in Components::new(d) {
        if left.take_first()? != name {
            return None;
        }
    }
    Some(left.as_slice())
}

// Path::starts_with: whether p lies under the directory d, by components.
pub fn lies_under(p: &[u8], d: &[u8]) -> bool
    ensures { result ≡ under p.now d.now }
{
    d.is_empty() || left_after(p, d).is_some()
}

// Whether a and b are the same path, by components.
pub fn same_path(a: &[u8], b: &[u8]) -> bool
    ensures { result ≡ same_path a.now b.now }
{
    matches!(left_after(a, b), Some([]))
}

// Path::strip_prefix: what is left of p after the directory d.
pub fn strip_prefix<'a>(p: &'a [u8], d: &[u8]) -> Option<&'a [u8]>
    ensures { option_copied result ≡ strip_prefix p.now d.now }
{
    if d.is_empty() {
        return Some(upto(p, component_end(p, lead_len(p))));
    }
    Some(trim_end(left_after(p, d)?))
}
