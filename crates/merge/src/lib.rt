// The merge of two rows.
#![tactic(auto)]

ghost use Rattle.std.specs.Prelude.{◌≡◌};
ghost use Rattle.rows.specs.Merge.{nearer, base_by, merged_row};

use rows::{ABSENT, ROW, places};

// How many places of a row are fields'; after these come the place of the base and that of the row's own record.
const FIELDS: usize = places::BASE;

// The nearer's supplier, if it has one, else the other's.
#[tactic(auto, unfolding(rows::specs::Merge::nearer))]
fn pick(x: u8, y: u8) -> u8
    ensures { result ≡ nearer x y }
{
    if x == ABSENT { y } else { x }
}

// The supplier of the base, of x, the nearer's, and y, the other's: u and v supply baseUrl, p the nearer's paths.
#[tactic(auto, unfolding(rows::specs::Merge::base_by))]
fn pick_base(u: u8, v: u8, p: u8, x: u8, y: u8) -> u8
    ensures { result ≡ base_by u v p x y }
{
    if u != ABSENT {
        return x;
    }
    if v != ABSENT {
        return y;
    }
    if p != ABSENT { x } else { y }
}

// Merges another row into the row, nearer first.
pub fn merge_row(row: &mut [u8; ROW], far: &[u8; ROW])
    ensures { row.new ≡ merged_row row.old far.now }
{
    let base = pick_base(
        row[places::BASE_URL],
        far[places::BASE_URL],
        row[places::PATHS],
        row[places::BASE],
        far[places::BASE],
    );
    // By the place: the first 26 of a row's 28 places are fields.
    for i in 0..FIELDS {
        row[i] = pick(row[i], far[i]);
    }
    row[places::BASE] = base;
}
