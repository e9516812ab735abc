// The answer to a build: the listing of a config, where it fits the output.
#![tactic(auto)]

ghost use Rattle.std.specs.Prelude.{length};
ghost use Rattle.rows.specs.Checked.{records_in};
ghost use Rattle.sites.specs.Sites.{site_in};
ghost use Rattle.replies.specs.Replies.{fit, AnsweredAs};
ghost use Rattle.build_reply.specs.Reply.{build_reply};

use book::Refusal;
use listing::put_listing;
use replies::{Given, write_reply};
use sites::{Built, site_number};

// The listing of a config, where it fits the output.
#[tactic(auto, unfolding(rows::specs::Rows::site_of))]
pub fn write_listing(
    built: &Built,
    merges: usize,
    scratch: &mut [u8],
    out: &mut [u8],
) -> Result<Given, Refusal>
    ensures { AnsweredAs (fit (length out.old) (build_reply (records_in built.now.config.book.now) (site_in built.now.config) merges)) result out.old out.new }
{
    write_reply(scratch, out, |output| {
        put_listing(output, built);
        (site_number(built.config.row), merges)
    })
}
