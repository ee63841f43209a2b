// A node: its copy of the line, its transactions, and the children that it names.
ghost use Rattle.std.specs.Prelude.{◌≡◌};
ghost use Rattle.rules.specs.Tree.{is_child, is_leaf};
ghost use Rattle.rules.specs.Configuration.{copy_ok, serving, evicting, work_ok, at_leaf, leaf_ok, has_requester, requester_ok, child_ok, probe_ok, blank, own_at};

use rules::codes::{Cap, Child, Phase, Purpose, Rights};
use rules::{Index, Node, State};
use trees::is_child;

// A node's copy of the line: "rights N with dirty set or value not 0, or B with dirty set".
#[tactic(auto, unfolding(rules::specs::Configuration::copy_ok))]
fn copy_ok(r: u8, dirty: bool, value: u64) -> bool
    ensures { result ≡ copy_ok r dirty value }
{
    (r <= Rights::TIP) & ((r != Rights::N) | (!dirty & (value == 0))) & ((r != Rights::B) | !dirty)
}

// The phases of a load or a store.
#[tactic(auto, unfolding(rules::specs::Configuration::serving, words::specs::Vocab::choose))]
fn serving(phase: u8) -> bool
    ensures { result ≡ serving phase }
{
    matches!(
        phase,
        Phase::CLEAR | Phase::ASK | Phase::WAIT | Phase::CONFIRM | Phase::GIVE | Phase::AWAIT
    )
}

// The phases of an evict.
#[tactic(auto, unfolding(rules::specs::Configuration::evicting, words::specs::Vocab::choose))]
fn evicting(phase: u8) -> bool
    ensures { result ≡ evicting phase }
{
    matches!(phase, Phase::CLEAR | Phase::LET_GO | Phase::LEAVING)
}

// "Idle with a purpose, or another phase without; evict outside Clear, LetGo, Leaving, or load/store inside LetGo or Leaving"
#[tactic(auto, unfolding(rules::specs::Configuration::work_ok, words::specs::Vocab::choose))]
fn work_ok(phase: u8, purpose: u8) -> bool
    ensures { result ≡ work_ok phase purpose }
{
    match purpose {
        Purpose::NONE => phase == Phase::IDLE,
        Purpose::LOAD | Purpose::STORE => serving(phase),
        Purpose::EVICT => evicting(phase),
        _ => false,
    }
}

#[tactic(auto, unfolding(rules::specs::Configuration::at_leaf, words::specs::Vocab::choose))]
fn at_leaf(phase: u8) -> bool
    ensures { result ≡ at_leaf phase }
{
    !matches!(phase, Phase::GIVE | Phase::AWAIT)
}

// "Give or Await at a leaf"
#[tactic(auto, unfolding(rules::specs::Configuration::leaf_ok))]
fn leaf_ok(leaf: bool, phase: u8) -> bool
    ensures { result ≡ leaf_ok leaf phase }
{
    !leaf | at_leaf(phase)
}

#[tactic(auto, unfolding(rules::specs::Configuration::has_requester, words::specs::Vocab::choose))]
fn has_requester(purpose: u8) -> bool
    ensures { result ≡ has_requester purpose }
{
    matches!(purpose, Purpose::LOAD | Purpose::STORE)
}

// "a requester missing for load/store at a non-leaf, or present elsewhere"
#[tactic(auto, unfolding(rules::specs::Configuration::requester_ok))]
fn requester_ok(leaf: bool, purpose: u8, q: u8) -> bool
    ensures { result ≡ requester_ok leaf purpose q }
{
    (q != Child::NONE) == (has_requester(purpose) & !leaf)
}

// "requester or release child that isn't a child of that node". Most nodes name none, and then no parent is looked at.
#[tactic(auto, unfolding(rules::specs::Configuration::child_ok))]
fn child_ok(s: &State, x: u8, q: u8) -> bool
    ensures { result ≡ child_ok q (is_child s.now x q) }
{
    (q == Child::NONE) || is_child(s, x, q)
}

// "a cap on a closed probe"; an open one has a cap
#[tactic(auto, unfolding(rules::specs::Configuration::probe_ok))]
fn probe_ok(opened: bool, cap: u8) -> bool
    ensures { result ≡ probe_ok opened cap }
{
    (cap <= Cap::N) & (opened == (cap != Cap::NONE))
}

// All that is asked of a node's rights and fields.
#[tactic(auto, unfolding(rules::specs::Configuration::node_ok))]
pub fn own_at(s: &State, leaf: bool, x: Index) -> bool
    requires { leaf ≡ is_leaf s.now x.at }
    ensures { result ≡ own_at s.now x.at }
{
    let m = &s.nodes[x.at];
    copy_ok(s.rights[x.at], m.dirty, m.value)
        & work_ok(m.phase, m.purpose)
        & leaf_ok(leaf, m.phase)
        & requester_ok(leaf, m.purpose, m.requester)
        & child_ok(s, x.number(), m.requester)
        & child_ok(s, x.number(), m.release)
        & probe_ok(m.probe, m.cap)
}

// "a nonzero field beyond the last node"
#[tactic(auto, unfolding(rules::specs::Configuration::blank))]
pub fn blank(r: u8, m: &Node) -> bool
    ensures { result ≡ blank r m.now }
{
    (r == 0) & (*m == Node::default())
}
