// Reads a trail from standard input, and prints what crate trails says of it.
#![tactic(auto)]

ghost use Rattle.std.specs.Prelude.{◌≤◌, length, IfOk};

use octets::limits::WINDOW;
use std::io;
use std::io::{Read, Stdin, Write};

// Fills the bytes from the input, and answers how many there are before it ends.
fn read_full(input: &mut Stdin, bytes: &mut [u8]) -> io::Result<usize>
    ensures { IfOk result (λ n. n ≤ length bytes.new) }
{
    let mut done = 0;
    while done < bytes.len() {
        let n = input.read(&mut bytes[done..])?;
        if n == 0 {
            break;
        }
        done += n;
    }
    Ok(done)
}

fn main(rt: HostRuntime) -> io::Result<()> {
    // The window and one byte more, which tells whether the input goes on.
    let mut input = [0u8; WINDOW + 1];
    let n = read_full(&mut rt.stdin(), &mut input)?;
    let mut out = [0u8; trails::ROOM];
    let r = trails::trail(&input[..n], &mut out);
    rt.stdout().write_all(&out[..r])
}
