// The places of a row: at each stands the record that supplies the field. They are indices, and flags and text options stand by their ids: an enum
// would be turned into this number each time.

use book::{LAST_FLAG, LAST_TEXT};

pub const FILES: usize = 0;

pub const INCLUDE: usize = 1;

pub const EXCLUDE: usize = 2;

pub const BASE_URL: usize = 3;

pub const PATHS: usize = 4;

pub const ROOT_DIRS: usize = 5;

pub const OUT_DIR: usize = 6;

pub const DECLARATION_DIR: usize = 7;

// Where the flags begin, by their ids.
pub const FLAGS: usize = 8;

// The id of the flag allowJs, and its place.
pub const ALLOW_JS_ID: u8 = 8;

pub const ALLOW_JS: usize = FLAGS + ALLOW_JS_ID as usize;

// Where the text options begin, by their ids.
pub const TEXTS: usize = 19;

// How many ids flags and text options have.
pub const FLAG_IDS: u8 = LAST_FLAG + 1;

pub const TEXT_IDS: u8 = LAST_TEXT + 1;

// The record that the base is of.
pub const BASE: usize = 26;

// The row's own record.
pub const OWN: usize = 27;
