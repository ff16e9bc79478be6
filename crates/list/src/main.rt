// The listing: a stored mesh is read from standard input, and what list writes for it goes to standard output.
#![tactic(auto)]

ghost use Rattle.std.specs.Prelude.{◌≤◌, length};

use std::io;
use std::io::Read;

// One byte more than the largest mesh has: what is longer need not be read.
const MOST: usize = stored::LARGEST + 1;

// Reads until the bytes are full or the input ends, as one that can't be read does, and gives how many there are. Each turn gets a byte or is
// the last.
fn read_full(input: &mut impl Read, bytes: &mut [u8]) -> usize
    ensures { result ≤ length bytes.new }
{
    let most = bytes.len();
    let mut length: usize = 0;
    for _ in 0..most {
        if length >= most {
            break;
        }
        match input.read(&mut bytes[length..]) {
            Ok(0) => break,
            Ok(got) => length += got,
            Err(_) => break,
        }
    }
    length.min(most)
}

fn main(rt: HostRuntime) -> io::Result<()> {
    let mut mesh = [0u8; MOST];
    let length = read_full(&mut rt.stdin(), &mut mesh);
    let mut text = [0u8; list_service::LARGEST];
    let listed = list_service::list(&mesh[..length], &mut text);
    rt.write_all(slices::part(&text, 0, listed.length as usize))
}
