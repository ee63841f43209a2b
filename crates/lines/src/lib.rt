// The lines that document 01 prints, put on a page.
#![tactic(auto)]

ghost use Rattle.octets.specs.Written.{Adds};
ghost use Rattle.lines.specs.Lines.{decimal, field, line, name_text, name_line, names_by, end_line, bad_line};

use names::named;
use octets::page::Page;
use rules::codes::Name;
use rules::{Event, State};

// A number in decimal. Most have one digit.
#[tactic(auto, using(crate::proofs::Decimal::digit_text, crate::proofs::Decimal::digits_text))]
fn put_decimal(page: &mut Page, n: u64)
    ensures { Adds page.old (decimal n) page.new }
{
    if n < 10 {
        page.byte(b'0' + n as u8);
        return;
    }
    let mut digits = [0u8; 20];
    let k = io::decimal(n, &mut digits);
    page.bytes(&digits[..k]);
}

// A number, and the byte after it.
#[tactic(auto, using(octets::proofs::Pages::puts), unfolding(crate::specs::Lines::field))]
fn put_number(page: &mut Page, n: u64, after: u8)
    ensures { Adds page.old (field n after) page.new }
{
    put_decimal(page, n);
    page.byte(after);
}

// The line of an event: what was asked, and the answer.
#[tactic(auto, using(octets::proofs::Pages::puts), unfolding(crate::specs::Lines::line, crate::specs::Lines::asked))]
pub fn put_line(page: &mut Page, index: u64, ev: Event, number: u8, value: u64)
    ensures { Adds page.old (line index ev.kind ev.node number value) page.new }
{
    put_number(page, index, b' ');
    put_number(page, u64::from(ev.kind), b' ');
    put_number(page, u64::from(ev.node), b' ');
    put_number(page, u64::from(number), b' ');
    put_number(page, value, b'\n');
}

// The name of a node, after a space.
#[tactic(auto, using(octets::proofs::Pages::puts), unfolding(crate::specs::Lines::name_text))]
fn put_name(page: &mut Page, name: u8)
    ensures { Adds page.old (name_text name) page.new }
{
    match name {
        Name::N => page.bytes(b" N"),
        Name::B => page.bytes(b" B"),
        Name::T => page.bytes(b" T"),
        Name::TB => page.bytes(b" TB"),
        Name::TT => page.bytes(b" TT"),
        _ => {}
    }
}

// The names of the nodes, one after the other.
#[tactic(auto, using(octets::proofs::Pages::puts, crate::proofs::Composing::naming))]
fn put_names(page: &mut Page, s: &State)
    ensures { Adds page.old (name_line (names_by s.now.rights s.now.entries s.now.count)) page.new }
{
    for x in 0..s.count {
        put_name(page, named(s, x));
    }
}

// "`end` and the node names in order"
#[tactic(auto, using(octets::proofs::Pages::puts), unfolding(crate::specs::Lines::end_line))]
pub fn put_end(page: &mut Page, s: &State)
    ensures { Adds page.old (end_line (names_by s.now.rights s.now.entries s.now.count)) page.new }
{
    page.bytes(b"end");
    put_names(page, s);
    page.byte(b'\n');
}

// "`bad P`"
#[tactic(auto, using(octets::proofs::Pages::puts), unfolding(crate::specs::Lines::bad_line))]
pub fn put_bad(page: &mut Page, offset: usize)
    ensures { Adds page.old (bad_line offset) page.new }
{
    page.bytes(b"bad ");
    put_number(page, offset as u64, b'\n');
}
