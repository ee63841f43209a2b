// What bytes say.
ghost use Rattle.std.specs.Prelude.{◌≡◌, drop};
ghost use Rattle.octets.specs.BigEndian.{byte, number, word};
ghost use Rattle.octets.specs.Fields.{flag_at, flag_ok, event_at};
ghost use Rattle.octets.specs.Prefixed.{length_at};

use rules::Event;
use std::array;

pub fn byte_at(s: &[u8], at: usize) -> u8
    ensures { result ≡ byte s.now at }
{
    s.get(at).copied().unwrap_or(0)
}

// The bytes from `at` on.
pub fn rest(s: &[u8], at: usize) -> &[u8]
    ensures { result.now ≡ drop at s.now }
{
    s.get(at..).unwrap_or(&[])
}

// The number in the eight bytes from `at` on.
#[tactic(auto, using(crate::proofs::BytesRead::rests), unfolding(crate::specs::BigEndian::number))]
pub fn word_at(s: &[u8], at: usize) -> u64
    ensures { result ≡ word s.now at }
{
    let t = rest(s, at);
    // All eight at once where they are there, as in most places.
    match t.first_chunk::<8>() {
        Some(bytes) => u64::from_be_bytes(*bytes),
        None => u64::from_be_bytes(array::from_fn(|k| byte_at(t, k))),
    }
}

// The length of a record that starts at `at`.
#[tactic(auto, using(crate::proofs::BytesRead::rests), unfolding(crate::specs::BigEndian::number))]
pub fn length_at(s: &[u8], at: usize) -> u64
    ensures { result ≡ length_at s.now at }
{
    let t = rest(s, at);
    u16::from_be_bytes([byte_at(t, 0), byte_at(t, 1)]) as u64
}

pub fn flag_at(s: &[u8], at: usize) -> bool
    ensures { result ≡ flag_at s.now at }
{
    byte_at(s, at) != 0
}

// Whether the byte is a flag.
pub fn flag_ok(s: &[u8], at: usize) -> bool
    ensures { result ≡ flag_ok s.now at }
{
    byte_at(s, at) <= 1
}

// The event in the eleven bytes from `at` on.
#[tactic(auto, using(crate::proofs::BytesRead::rests), unfolding(crate::specs::Fields::event_at))]
pub fn event_at(s: &[u8], at: usize) -> Event
    ensures { result ≡ event_at s.now at }
{
    let t = rest(s, at);
    Event {
        kind: byte_at(t, 0),
        node: byte_at(t, 1),
        other: byte_at(t, 2),
        value: word_at(t, 3),
    }
}
