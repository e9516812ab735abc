// The file name of a path, and its extension.
#![tactic(auto)]

ghost use Rattle.std.specs.Prelude.{◌≡◌, option_copied};
ghost use Rattle.ends.specs.Ends.{file_name, extension};

use components::is_name;
use ends::{last_piece, trim_end};
use text::{DOT, find_last, from};

// Path::file_name
pub fn file_name(s: &[u8]) -> Option<&[u8]>
    ensures { option_copied result ≡ file_name s.now }
{
    let name = last_piece(trim_end(s));
    is_name(name).then_some(name)
}

// Path::extension
pub fn extension(s: &[u8]) -> Option<&[u8]>
    ensures { option_copied result ≡ extension s.now }
{
    let name = file_name(s)?;
    let (stem, dotted) = name.split_at(find_last(name, DOT)?);
    if stem.is_empty() {
        return None;
    }
    Some(from(dotted, 1))
}
