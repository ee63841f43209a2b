// From the first event to the last line: "reads one event after another until the input ends or a record is bad".
ghost use Rattle.std.specs.Prelude.{◌≡◌, ◌+◌, ◌<◌, ◌≤◌, true};
ghost use Rattle.rules.specs.Refusals.{number_said, value_said};
ghost use Rattle.rules.specs.Tree.{good_tree};
ghost use Rattle.octets.specs.Prefixed.{window, reach};
ghost use Rattle.octets.specs.Written.{Adds};
ghost use Rattle.lines.specs.Lines.{line};
ghost use Rattle.trails.specs.Trail.{room, closing, event_of, events_from};

use lines::{put_bad, put_end, put_line};
use octets::limits::{EVENT, PREFIX, reach};
use octets::page::Page;
use octets::read::{event_at, length_at};
use parts::act;
use rules::{Event, Refusal, State, told};

// An event record with its length.
const RECORD: usize = PREFIX + EVENT;

// The event of a record, as a trail of the version reads it: version 1 takes the fields as they stand.
#[tactic(auto, unfolding(crate::specs::Trail::event_of))]
fn event(version: u8, r: &[u8; RECORD]) -> Event
    ensures { result ≡ event_of version r.now }
{
    event_at(r, PREFIX)
}

// The line of an event that a trail prints: an index has at most five digits.
#[tactic(auto, using(lines::proofs::Composing::line_near))]
fn put_next(page: &mut Page, index: u64, ev: Event, answer: Result<u64, Refusal>)
    requires { index < 100000 }
    ensures text { Adds page.old (line index ev.kind ev.node (number_said answer) (value_said answer)) page.new }
    ensures near { page.new.at ≤ page.old.at + 39 }
{
    let (number, value) = told(answer);
    put_line(page, index, ev, number, value);
}

// The last line: the input ended at `end`, or a bad record stands there.
#[tactic(auto, using(crate::proofs::Running::closings), unfolding(crate::specs::Trail::closing_in, words::specs::Vocab::choose))]
fn put_closing(page: &mut Page, input: &[u8], end: usize, s: &State)
    requires { good_tree s.now ≡ true }
    ensures text { Adds page.old (closing input.now end s.now) page.new }
    ensures near { page.new.at ≤ page.old.at + 800 }
{
    if end >= input.len() {
        put_end(page, s);
    } else {
        put_bad(page, end);
    }
}

// The text of the events from the offset `first` on. The loop breaks with the offset of a bad record, or of the input's end.
// The configuration is changed in place. Its tree is good, so number 1 is not looked for at each event.
pub fn events(page: &mut Page, input: &[u8], version: u8, mut s: State, first: usize)
    requires empty { page.old.at ≡ 0 }
    requires tree { good_tree s ≡ true }
    requires low { 12 ≤ first }
    requires within { first ≤ reach input.now }
    ensures text { Adds page.old (events_from version window input.now first 1 s) page.new }
    ensures fits { page.new.at < room }
{
    let limit = reach(input);
    let mut at = first;
    let mut index = 1;
    let end = 'events: loop {
        if at >= input.len() {
            break 'events at;
        }
        let mut bytes = [0; RECORD];
        for k in 0..RECORD {
            if at + k >= limit {
                break 'events at;
            }
            bytes[k] = input[at + k];
        }
        if length_at(&bytes, 0) != EVENT as u64 {
            break 'events at;
        }
        let ev = event(version, &bytes);
        let answer = act(&mut s, ev);
        put_next(page, index, ev, answer);
        index += 1;
        at += RECORD;
    };
    put_closing(page, input, end, &s);
}
