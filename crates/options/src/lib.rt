// The flags and the text options, written to lent output: a line each, by rising id, where it has a supplier.
#![tactic(auto)]

ghost use Rattle.std.specs.Prelude.{◌≡◌, ◌<◌, option_copied};
ghost use Rattle.emit.specs.Emit.{Room};
ghost use Rattle.emit.specs.Output.{Puts};
ghost use Rattle.tsconfig.specs.Listing.{decimal};
ghost use Rattle.options.specs.Options.{flag_value, text_value, option_line, Reaches, options_from};

use emit::Output;
use lines::put_value;
use record::Place;
use records::PathTable;
use rows::{begin_at, places};

// Writes an id in decimal.
fn put_decimal(out: &mut Output, id: u8)
    requires id { id < 20 }
    requires room { Room out.old.at (decimal id) }
    ensures { Puts (decimal id) out.old out.new }
{
    if id < 10 {
        out.put(b'0' + id);
    } else {
        out.put_text(&[b'1', b'0' + (id - 10)]);
    }
}

// Writes an option that has a value as a line: a name with an id, `=` and the value.
fn put_option(out: &mut Output, name: &[u8], id: u8, value: Option<&[u8]>)
    requires id { id < 20 }
    requires room { Room out.old.at (option_line name.now id (option_copied value)) }
    ensures { Puts (option_line name.now id (option_copied value.entry)) out.old out.new }
{
    let Some(value) = value else {
        return;
    };
    out.put_text(name);
    put_decimal(out, id);
    put_value(out, value);
}

// What the supplier of a flag, which begins there, says of it, as a line has it.
#[tactic(auto, unfolding(crate::specs::Options::flag_value))]
fn flag_value(commands: &[u8], at: Option<usize>, id: u8) -> Option<&'static [u8]>
    ensures { option_copied result ≡ flag_value commands.now id at }
{
    let supplier = Place::new(commands, b"", at?);
    Some(if supplier.flag(id)? { b"1" } else { b"0" })
}

// What the supplier of a text option, which begins there, says of it.
#[tactic(auto, unfolding(crate::specs::Options::text_value))]
fn text_value<'a>(commands: &'a [u8], text: &'a [u8], at: Option<usize>, id: u8) -> Option<&'a [u8]>
    ensures { option_copied result ≡ text_value commands.now text.now id at }
{
    Place::new(commands, text, at?).text_option(id)
}

// Writes the flags and the text options of a row of suppliers. Commands, index and row are lent apart: of the records nothing is asked, and a book says more.
pub fn put_options(out: &mut Output, commands: &[u8], paths: &PathTable, row: &[u8])
    requires reaches { Reaches paths.now.rows.now row.now }
    requires room { Room out.old.at (options_from commands.now paths.now.rows.now row.now paths.now.text.now) }
    ensures { Puts (options_from commands.now paths.now.rows.now row.now paths.now.text.now) out.old out.new }
{
    for id in 0..places::FLAG_IDS {
        let at = begin_at(paths.rows, row, places::FLAGS + usize::from(id));
        put_option(out, b"flag ", id, flag_value(commands, at, id));
    }
    for id in 0..places::TEXT_IDS {
        let at = begin_at(paths.rows, row, places::TEXTS + usize::from(id));
        let value = text_value(commands, paths.text, at, id);
        put_option(out, b"text ", id, value);
    }
}
