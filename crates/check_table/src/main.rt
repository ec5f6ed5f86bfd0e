// The check program: a table on standard input, one line on standard output.
//
// It reads at most 32,769 bytes, one more than a table may have, so that longer input is refused without being read
// on. A read that fails is answered "refused 2 at K", K being the bytes that came before it: what did not arrive
// whole is never accepted.
#![tactic(auto)]

ghost use Rattle.std.specs.Prelude.{◌≤◌, length, IfOk};

use model::{Fault, Refusal};
use std::io::{Read, Stdin};

// How many bytes came: all of the input, or as much as there is room for. A read that failed is a refusal.
// (The library's `read_exact` does not say how many.)
fn read_input(mut stdin: Stdin, space: &mut [u8]) -> Result<usize, Refusal>
    ensures { IfOk result (λ n. n ≤ length space.new) }
{
    let mut n = 0;
    while n < space.len() {
        match stdin.read(&mut space[n..]) {
            Ok(0) => break,
            Ok(more) => n += more,
            Err(_) => return Err(Fault::TableCut.at(n)),
        }
    }
    Ok(n)
}

fn main(rt: HostRuntime) {
    let mut table = [0u8; 32769];
    let verdict = read_input(rt.stdin(), &mut table).and_then(|n| typing::check(&table[..n]));
    let mut line = [0u8; 80];
    let n = report::check_line(verdict, &mut line);
    io::write_all(1, &line[..n]);
}
