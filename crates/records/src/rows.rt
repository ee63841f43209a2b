// Rows of items, put on a page one after the other.
ghost use Rattle.std.specs.Prelude.{ℕ, List};
ghost use mathlib.Core.List.{flat_map};
ghost use Rattle.octets.specs.Fields.{flag};
ghost use Rattle.octets.specs.Written.{Adds};

use octets::page::Page;

// What has bytes of its own.
pub trait Put {
    ghost bytes: { Self → List ℕ };

    fn put(&self, page: &mut Page)
        ensures { Adds page.old (bytes self.now) page.new };
}

impl Put for bool {
    ghost bytes = { flag };

    fn put(&self, page: &mut Page) {
        page.flag(*self);
    }
}

#[tactic(auto, using(octets::proofs::Pages::each))]
pub fn put_row<T: Put>(page: &mut Page, row: &[T])
    ensures { Adds page.old (flat_map T.bytes row.now) page.new }
{
    for x in row {
        x.put(page);
    }
}
