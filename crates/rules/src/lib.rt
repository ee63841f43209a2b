// What a configuration, an event and an answer are (document 01, "What a configuration holds", "Events", "Numbers a caller
// may get"). The rules stand in specs/.
#![tactic(auto)]

ghost use Rattle.std.specs.Prelude.{◌≡◌, ◌<◌, ◌≤◌, MatchOption};
ghost use Rattle.rules.specs.Cells.{cell};
ghost use Rattle.rules.specs.Codes.{node_limit, cells};
ghost use Rattle.rules.specs.Refusals.{number_of, number_said, value_said};

pub mod codes;
pub mod kinds;

// A comment before a field is its row in docs/FORMAT.md; tools/print reads these structs.

// A node's dirty flag and value, its main transaction, its probe transaction and its release transaction.
#[derive(Clone, Copy, Default, PartialEq, Eq)]
pub struct Node {
    // flag
    pub dirty: bool,
    pub value: u64,
    // Idle 0, Clear 1, Ask 2, Wait 3, Confirm 4, Give 5, Await 6, LetGo 7, Leaving 8
    pub phase: u8,
    // none 0, load 1, store 2, evict 3
    pub purpose: u8,
    // 0, or the child
    pub requester: u8,
    // flag: the probe transaction is open
    pub probe: bool,
    // 0 where the probe is closed; B 1, N 2
    pub cap: u8,
    // 0 idle, or the child to acknowledge
    pub release: u8,
}

// The five slots of the link between a node and its parent. `kept` and `up` belong to the message in C, `down` to that in D.
#[derive(Clone, Copy, Default)]
pub struct Link {
    // 0 empty, AcquireB 1, AcquireT 2, AcquireU 3
    pub a: u8,
    // 0 empty, ProbeB 1, ProbeN 2
    pub b: u8,
    // 0 empty, ProbeAck without data 1, ProbeAck with data 2, Release 3, ReleaseData 4
    pub c: u8,
    // the rights kept, of a ProbeAck: N 0, B 1
    pub kept: u8,
    // the value that the message in C carries
    pub up: u64,
    // 0 empty, GrantT 1, GrantDataT 2, GrantDataB 3, ReleaseAck 4
    pub d: u8,
    // the value that the message in D carries
    pub down: u64,
    // 0 empty, GrantAck 1
    pub e: u8,
}

// The tree (the node count and each node's parent) and what it holds. A row of entries or of a set belongs to one node and
// has one cell for each child.
#[derive(Clone, Copy)]
pub struct State {
    // the node count
    pub count: u8,
    // the parent of each node; 0 at the root
    pub parents: [u8; State::NODES],
    // N 0, B 1, Tip 2
    pub rights: [u8; State::NODES],
    // row of node 0 first; in a row one entry for each node: None 0, Branch 1, Trunk 2
    pub entries: [u8; State::CELLS],
    // flags, rows as for entries
    pub to_probe: [bool; State::CELLS],
    // flags, rows as for entries
    pub pending: [bool; State::CELLS],
    // see below
    pub nodes: [Node; State::NODES],
    // the link of a node to its parent; see below
    pub links: [Link; State::NODES],
}

impl State {
    // The fewest nodes of a tree.
    pub const LEAST: u8 = 2;

    // The node limit, and the cells of as many rows.
    pub const NODES: usize = 16;

    pub const CELLS: usize = 256;
}

// The place of a node in the arrays, whether the tree reaches so far or not.
#[derive(Clone, Copy)]
pub struct Index {
    pub at: usize,
    ghost within: { at < node_limit },
}

impl Index {
    // That of a node; none beyond the limit.
    pub fn new(k: u8) -> Option<Index>
        ensures { MatchOption result (node_limit ≤ k) (λ x. x.at ≡ k) }
    {
        let at = usize::from(k);
        if at < State::NODES {
            Some(Index { at })
        } else {
            None
        }
    }

    // The node's number.
    pub fn number(self) -> u8
        ensures { result ≡ self.at }
    {
        self.at as u8
    }

    // "entry rows one for each node, kept flat": the cell of k in the row of this node.
    pub fn cell(self, k: Index) -> usize
        ensures value { result ≡ cell self.at k.at }
        ensures within { result < cells }
    {
        self.at * State::NODES + k.at
    }
}

// What a row of the event table sees, and all that it may change: a node's rights and fields; the link that it acts on and, where
// that is a child's, the entry and the set members for that child. The rest tells of the node's row and is only read: it is a leaf;
// both sets are empty; all entries are None; some entry is Trunk, or Branch; all entries but that child's are None.
#[derive(Clone, Copy)]
pub struct Scene {
    pub rights: u8,
    pub node: Node,
    pub link: Link,
    pub entry: u8,
    pub to_probe: bool,
    pub pending: bool,
    pub leaf: bool,
    pub still: bool,
    pub bare: bool,
    pub trunk: bool,
    pub branch: bool,
    pub alone: bool,
}

// "An event is kind, node, other, value."
#[derive(Clone, Copy)]
pub struct Event {
    pub kind: u8,
    pub node: u8,
    pub other: u8,
    pub value: u64,
}

// Why a tree, a configuration or an event is refused.
#[derive(Clone, Copy, PartialEq, Eq)]
pub enum Refusal {
    BadTree,
    NotAConfiguration,
    BadEvent,
    WrongPlace,
    OutOfTurn,
}

impl Refusal {
    // "The answers carry the numbers of this table."
    pub fn number(self) -> u8
        ensures { result ≡ number_of self }
    {
        match self {
            Refusal::BadTree => Answer::BAD_TREE,
            Refusal::NotAConfiguration => Answer::NOT_A_CONFIGURATION,
            Refusal::BadEvent => Answer::BAD_EVENT,
            Refusal::WrongPlace => Answer::WRONG_PLACE,
            Refusal::OutOfTurn => Answer::OUT_OF_TURN,
        }
    }
}

// The number and the answer value of what was done, or refused.
pub fn told(answer: Result<u64, Refusal>) -> (u8, u64)
    ensures { result ≡ (number_said answer, value_said answer) }
{
    match answer {
        Ok(value) => (Answer::ACCEPTED, value),
        Err(refusal) => (refusal.number(), 0),
    }
}

// A number of document 01's table, the answer value, and the configuration after the step.
#[derive(Clone, Copy)]
pub struct Answer {
    pub number: u8,
    pub value: u64,
    pub state: State,
}

impl Event {
    pub const LOAD: u8 = 1;

    pub const STORE: u8 = 2;

    pub const LOAD_MISS: u8 = 3;

    pub const STORE_MISS: u8 = 4;

    pub const EVICT: u8 = 5;

    pub const SEND_ACQUIRE: u8 = 6;

    pub const TAKE_ACQUIRE: u8 = 7;

    pub const SEND_PROBE: u8 = 8;

    pub const TAKE_PROBE: u8 = 9;

    pub const SEND_PROBE_ACK: u8 = 10;

    pub const TAKE_PROBE_ACK: u8 = 11;

    pub const TAKE_GRANT: u8 = 12;

    pub const SEND_GRANT_ACK: u8 = 13;

    pub const SEND_GRANT: u8 = 14;

    pub const TAKE_GRANT_ACK: u8 = 15;

    pub const SEND_RELEASE: u8 = 16;

    pub const TAKE_RELEASE: u8 = 17;

    pub const SEND_RELEASE_ACK: u8 = 18;

    pub const TAKE_RELEASE_ACK: u8 = 19;

    // What the other of a send Grant chooses.
    pub const SHARED: u8 = 0;

    pub const SOLE: u8 = 1;
}

impl Answer {
    pub const ACCEPTED: u8 = 0;

    pub const BAD_TREE: u8 = 1;

    pub const NOT_A_CONFIGURATION: u8 = 2;

    pub const BAD_EVENT: u8 = 3;

    pub const WRONG_PLACE: u8 = 4;

    pub const OUT_OF_TURN: u8 = 5;
}
