// The fixed names that a text is compared with, and the extensions.
#![tactic(auto)]

ghost use Rattle.std.specs.Prelude.{◌≡◌, true, false, drop, MatchOption};
ghost use Rattle.text.specs.Text.{prefix_of, same_text};
ghost use Rattle.names.specs.Names.{config_dir, node_modules, tsconfig_json, json, is_ts_extension, is_js_extension};

use text::{same_text, starts_with};

// Whether s starts with the twelve bytes `${configDir}`.
pub fn has_config_dir(s: &[u8]) -> bool
    ensures { result ≡ prefix_of config_dir s.now }
{
    starts_with(s, b"${configDir}")
}

// What follows the twelve bytes `${configDir}`, where s starts with them.
pub fn strip_config_dir(s: &[u8]) -> Option<&[u8]>
    ensures { MatchOption result (prefix_of config_dir s.now ≡ false) (λ rest. (prefix_of config_dir s.now ≡ true) × (rest.now ≡ drop 12 s.now)) }
{
    s.strip_prefix(b"${configDir}")
}

// This and those that follow are alike but for their names, which are what each is about.
pub fn is_node_modules(s: &[u8]) -> bool
    ensures { result ≡ same_text s.now node_modules }
{
    same_text(s, b"node_modules")
}

// Nothing calls it: it stays with its must-fail edit.
pub fn is_tsconfig_json(s: &[u8]) -> bool
    ensures { result ≡ same_text s.now tsconfig_json }
{
    same_text(s, b"tsconfig.json")
}

// Nothing calls it: it stays with its must-fail edit.
pub fn is_json(s: &[u8]) -> bool
    ensures { result ≡ same_text s.now json }
{
    same_text(s, b".json")
}

#[tactic(auto, using(crate::proofs::Names::reads))]
pub fn is_ts_extension(s: &[u8]) -> bool
    ensures { result ≡ is_ts_extension s.now }
{
    matches!(s, b"ts" | b"tsx" | b"mts" | b"cts")
}

#[tactic(auto, using(crate::proofs::Names::reads))]
pub fn is_js_extension(s: &[u8]) -> bool
    ensures { result ≡ is_js_extension s.now }
{
    matches!(s, b"js" | b"jsx" | b"mjs" | b"cjs")
}
