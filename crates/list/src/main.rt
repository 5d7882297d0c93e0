// Lists the packed plan that it reads from standard input.
#![tactic(auto)]

use std::io;
use std::io::Write;

fn main(rt: HostRuntime) -> io::Result<()> {
    let mut bytes = [0u8; 12288];
    let mut text = [0u8; 65536];
    let got = reading::read_full(&mut rt.stdin(), &mut bytes)?;
    let n = listing::list(&bytes[..got], &mut text);
    rt.stdout().write_all(&text[..n])
}
