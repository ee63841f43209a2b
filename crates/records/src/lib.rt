// Configurations and answers as bytes: docs/FORMAT.md. Every public function is total and promises its definition.
#![tactic(auto)]

ghost use Rattle.std.specs.Prelude.{◌≡◌};
ghost use Rattle.octets.specs.BigEndian.{word};
ghost use Rattle.octets.specs.Written.{Adds};
ghost use Rattle.records.specs.AnswerBytes.{asked_parents, asked_first, answer_bytes};
ghost use Rattle.records.specs.StateBytes.{state_of, flags_ok, byte_row_at, state_bytes};

use layout::Layout;
use loops::row;
use octets::page::Page;
use octets::read::{byte_at, word_at};
use rules::State;

pub mod layout;
mod read;
pub mod rows;
mod write;

pub use read::{flags_ok, state_of};
pub use write::put_state;

// What a reset is asked with: count, parents, first value.
pub const PARENTS: usize = 1;

pub const FIRST: usize = PARENTS + State::NODES;

pub const RESET: usize = FIRST + 8;

// An answer: number, value, configuration.
pub const ANSWER: usize = 1 + 8 + Layout::STATE;

// The parents that a reset is asked with, after its node count, and its first value.
#[tactic(auto, unfolding(crate::specs::StateBytes::byte_row_at))]
pub fn parents_of(bs: &[u8]) -> [u8; State::NODES]
    ensures { result ≡ byte_row_at bs.now asked_parents }
{
    row(|k| byte_at(bs, PARENTS + k))
}

pub fn first_of(bs: &[u8]) -> u64
    ensures { result ≡ word bs.now asked_first }
{
    word_at(bs, FIRST)
}

// The bytes of an answer, put on a page.
#[tactic(auto, using(octets::proofs::Pages::puts), unfolding(crate::specs::AnswerBytes::answer_bytes))]
fn put_answer(page: &mut Page, number: u8, value: u64, s: &State)
    ensures { Adds page.old (answer_bytes number value s.now) page.new }
{
    page.byte(number);
    page.word(value);
    put_state(page, s);
}

// The bytes of an answer.
#[tactic(auto, using(crate::proofs::AnswerWhole::answer_whole))]
pub fn answer_bytes(number: u8, value: u64, s: State) -> [u8; ANSWER]
    ensures { result ≡ answer_bytes number value s }
{
    let mut out = [0u8; ANSWER];
    put_answer(&mut Page::new(&mut out), number, value, &s);
    out
}
