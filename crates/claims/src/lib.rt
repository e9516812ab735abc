// Whether a built config claims a path: is_file_included_in_tsconfig.
#![tactic(auto)]

ghost use Rattle.std.specs.Prelude.{◌≡◌, map, None};
ghost use Rattle.text.specs.Text.{some_of};
ghost use Rattle.book.specs.Record.{strings};
ghost use Rattle.record.specs.Read.{read};
ghost use Rattle.tsconfig.specs.Build.{adjusted};
ghost use Rattle.tsconfig.specs.Config.{files, include, exclude};
ghost use Rattle.tsconfig.specs.Claims.{allow_js, matched, included, excluded, named_file, claims};
ghost use Rattle.sites.specs.Sites.{site_in};

use book::{EXCLUDE_ITEM, FILE, INCLUDE_ITEM};
use matching::{is_allowed, is_file, is_item_matched, is_outside};
use path::lies_under;
use record::Record;
use rows::places;
use sites::Config;

// A config that is asked whether it claims a path, with whether it allows JavaScript.
#[derive(Clone, Copy)]
struct Claimant<'a> {
    config: &'a Config<'a>,
    js: bool,
    ghost allows: { js ≡ allow_js (site_in config.now).config },
}

impl Claimant<'_> {
    // Whether one of the items with the byte op, of the record that supplies them, matches the path.
    fn is_some_matched(&self, supplier: &Record, op: u8, path: &[u8]) -> bool
        ensures { result ≡ some_of (matched self.now.js path.now) (map (adjusted self.now.config.now.dir.now self.now.config.now.dir.now) (strings supplier.now.text.now op (read supplier.now.commands.now supplier.now.at))) }
    {
        supplier
            .strings(op)
            .any(|s| is_item_matched(self.js, path, self.config.dir, s))
    }

    // Whether the path is one of the config's files. A `match` here and below, and no method of Option: what an arm calls is told of the record, which of
    // a closure would have to be shown once more.
    fn is_in_files(&self, path: &[u8]) -> bool
        ensures { result ≡ named_file path.now ((site_in self.now.config.now).config.named files) }
    {
        match self.config.supplier(places::FILES) {
            Some(supplier) => supplier
                .strings(FILE)
                .any(|s| is_file(path, self.config.dir, s)),
            None => false,
        }
    }

    // Whether the config, where it has no include, takes the path in: not where it has files.
    fn is_below(&self, path: &[u8]) -> bool
        ensures { result ≡ included (site_in self.now.config.now) path.now None }
    {
        match self.config.supplier(places::FILES) {
            Some(_) => false,
            None => lies_under(path, self.config.dir) && is_allowed(self.js, path),
        }
    }

    // Whether the config's include takes the path in. `is_excluded` differs in a constant and in what stands for none: each is one of the definition's tests.
    fn is_included(&self, path: &[u8]) -> bool
        ensures { result ≡ included (site_in self.now.config.now) path.now ((site_in self.now.config.now).config.named include) }
    {
        match self.config.supplier(places::INCLUDE) {
            Some(supplier) => self.is_some_matched(&supplier, INCLUDE_ITEM, path),
            None => self.is_below(path),
        }
    }

    // Whether the config's exclude leaves the path out.
    fn is_excluded(&self, path: &[u8]) -> bool
        ensures { result ≡ excluded (site_in self.now.config.now) path.now ((site_in self.now.config.now).config.named exclude) }
    {
        match self.config.supplier(places::EXCLUDE) {
            Some(supplier) => self.is_some_matched(&supplier, EXCLUDE_ITEM, path),
            None => false,
        }
    }
}

// Whether the config allows JavaScript.
pub fn allow_js(config: &Config) -> bool
    ensures { result ≡ allow_js (site_in config.now).config }
{
    match config.supplier(places::ALLOW_JS) {
        Some(supplier) => supplier.flag(places::ALLOW_JS_ID).unwrap_or(false),
        None => false,
    }
}

// Whether the config, built, claims the path: by its files, or by its include where exclude does not leave it out.
pub fn is_claimed(config: &Config, path: &[u8]) -> bool
    ensures { result ≡ claims path.now (site_in config.now) }
{
    let claimant = Claimant {
        config,
        js: allow_js(config),
    };
    claimant.is_in_files(path)
        || (!is_outside(claimant.js, path)
            && claimant.is_included(path)
            && !claimant.is_excluded(path))
}
