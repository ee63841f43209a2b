// Printed by tools/print from crates/rules/src/lib.rt: the places of the fields in bytes (docs/FORMAT.md).
use rules::State;

#[derive(Clone, Copy)]
pub struct Layout;

impl Layout {
    // Bytes of a node and of a link.
    pub const NODE: usize = 15;

    pub const LINK: usize = 22;

    // Where the fields of a configuration start, and its size.
    pub const COUNT: usize = 0;

    pub const PARENTS: usize = Layout::COUNT + 1;

    pub const RIGHTS: usize = Layout::PARENTS + State::NODES;

    pub const ENTRIES: usize = Layout::RIGHTS + State::NODES;

    pub const TO_PROBE: usize = Layout::ENTRIES + State::CELLS;

    pub const PENDING: usize = Layout::TO_PROBE + State::CELLS;

    pub const NODES: usize = Layout::PENDING + State::CELLS;

    pub const LINKS: usize = Layout::NODES + State::NODES * Layout::NODE;

    pub const STATE: usize = Layout::LINKS + State::NODES * Layout::LINK;
}
