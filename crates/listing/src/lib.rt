// A build's whole output, written to lent output: the fields in turn, each as its supplier says it and as built.
#![tactic(auto)]

ghost use Rattle.std.specs.Prelude.{◌≤◌};
ghost use Rattle.emit.specs.Emit.{Room};
ghost use Rattle.emit.specs.Output.{Puts};
ghost use Rattle.tsconfig.specs.Listing.{listing};
ghost use Rattle.sites.specs.Sites.{record_in, settings_in};
ghost use Rattle.listing.specs.Parts.{lists_part, places_part};

use book::{DECLARATION_DIR, EXCLUDE_ITEM, FILE, INCLUDE_ITEM, OUT_DIR};
use emit::Output;
use fields::{put_list, put_mapping, put_place, put_roots, put_url};
use lines::{put_references, put_row};
use options::put_options;
use rows::places;
use sites::{Built, Config};

// The fields other than the options stand at the places 0 to 7 of a row.

// Writes what comes before the base.
fn put_lists(out: &mut Output, config: &Config)
    requires { Room out.old.at (lists_part (settings_in config.now)) }
    ensures { Puts (lists_part (settings_in config.now)) out.old out.new }
{
    let dir = config.dir;
    let include = config.supplier(places::INCLUDE);
    let exclude = config.supplier(places::EXCLUDE);
    put_list(out, config.supplier(places::FILES), FILE, b"files", dir);
    put_list(out, include, INCLUDE_ITEM, b"include", dir);
    put_list(out, exclude, EXCLUDE_ITEM, b"exclude", dir);
    put_url(out, config.supplier(places::BASE_URL), dir);
}

// Writes what follows the references.
fn put_places(out: &mut Output, config: &Config)
    requires { Room out.old.at (places_part (settings_in config.now)) }
    ensures { Puts (places_part (settings_in config.now)) out.old out.new }
{
    let dir = config.dir;
    let out_dir = config.supplier(places::OUT_DIR);
    let declarations = config.supplier(places::DECLARATION_DIR);
    put_roots(out, config.supplier(places::ROOT_DIRS), dir);
    put_place(out, out_dir, OUT_DIR, b"outDir", dir);
    put_place(out, declarations, DECLARATION_DIR, b"declarationDir", dir);
    put_options(out, config.book.commands, &config.book.paths, config.row);
}

// Writes the whole output of a build, as far as the output reaches, and counts all of it.
pub fn put_listing(out: &mut Output, built: &Built)
    requires { out.old.at ≤ 65536 }
    ensures { Puts (listing (record_in built.now.config).references (settings_in built.now.config)) out.old out.new }
{
    let config = &built.config;
    let Some(own) = config.supplier(places::OWN) else {
        return;
    };
    put_lists(out, config);
    put_row(out, b"base", built.base);
    put_mapping(out, config.supplier(places::PATHS), config.dir, built.base);
    put_references(out, &own);
    put_places(out, config);
}
