// Printed by tools/print from crates/rules/src/lib.rt: a configuration's bytes, field by field, put on a page.
ghost use Rattle.octets.specs.Written.{Adds};
ghost use Rattle.records.specs.StateBytes.{node_bytes, link_bytes, state_bytes};

use crate::rows::{Put, put_row};
use octets::page::Page;
use rules::{Link, Node, State};

impl Put for Node {
    ghost bytes = { node_bytes };

    #[tactic(auto, using(octets::proofs::Pages::puts), unfolding(crate::specs::StateBytes::node_bytes))]
    fn put(&self, page: &mut Page) {
        page.flag(self.dirty);
        page.word(self.value);
        page.byte(self.phase);
        page.byte(self.purpose);
        page.byte(self.requester);
        page.flag(self.probe);
        page.byte(self.cap);
        page.byte(self.release);
    }
}

impl Put for Link {
    ghost bytes = { link_bytes };

    #[tactic(auto, using(octets::proofs::Pages::puts), unfolding(crate::specs::StateBytes::link_bytes))]
    fn put(&self, page: &mut Page) {
        page.byte(self.a);
        page.byte(self.b);
        page.byte(self.c);
        page.byte(self.kept);
        page.word(self.up);
        page.byte(self.d);
        page.word(self.down);
        page.byte(self.e);
    }
}

#[tactic(auto, using(octets::proofs::Pages::puts), unfolding(crate::specs::StateBytes::state_bytes))]
pub fn put_state(page: &mut Page, s: &State)
    ensures { Adds page.old (state_bytes s.now) page.new }
{
    page.byte(s.count);
    page.bytes(&s.parents);
    page.bytes(&s.rights);
    page.bytes(&s.entries);
    put_row(page, &s.to_probe);
    put_row(page, &s.pending);
    put_row(page, &s.nodes);
    put_row(page, &s.links);
}
