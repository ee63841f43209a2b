// The trail of document 01: from the bytes of an input to the text that the program prints.
#![tactic(auto)]

ghost use Rattle.std.specs.Prelude.{◌≡◌, ◌<◌, length, take, drop};
ghost use Rattle.io.specs.Counts.{IsPrefixLen};
ghost use Rattle.octets.specs.Written.{Adds};
ghost use Rattle.trails.specs.Trail.{trail_of, trail_under, room};

use lines::put_bad;
use octets::limits::longest_first;
use octets::page::Page;
use octets::read::{byte_at, length_at};
use opening::{START, reset_by};
use run::events;

mod run;

// The bytes of the lent buffer: at most 5,041 lines of at most 39 bytes and the last line fit.
pub const ROOM: usize = 262144;

// Fills the start of the lent buffer with the whole text and answers its length. What stands after it stays.
pub fn trail(input: &[u8], out: &mut [u8; ROOM]) -> usize
    ensures text { take result out.new ≡ trail_of input.now }
    ensures size { result ≡ length (trail_of input.now) }
    ensures rest { drop result out.new ≡ drop result out.old }
    ensures prefix { IsPrefixLen result out.new }
{
    let mut page = Page::new(out);
    trail_under(&mut page, input, byte_at(input, 0));
    page.written()
}

// The text under the version, from the start of a page.
#[tactic(auto, using(crate::proofs::Starting::ways))]
fn trail_under(page: &mut Page, input: &[u8], version: u8)
    requires { page.old.at ≡ 0 }
    ensures text { Adds page.old (trail_under version input.now) page.new }
    ensures fits { page.new.at < room }
{
    if longest_first(version) == 0 {
        put_bad(page, 0);
        return;
    }
    match reset_by(version, input) {
        Ok(s) => {
            let n = length_at(input, 1) as usize;
            events(page, input, version, s, START + n);
        }
        Err(_) => put_bad(page, 1),
    }
}
