//! Replays turns from standard input, one to a line, and prints what each gave.
#![tactic(auto)]

ghost use Rattle.std.specs.Prelude.{◌≡◌};
ghost use Rattle.replay.specs.Lines.{unended};

mod answer;
mod hex;
mod line;
mod people;
#[cfg(test)]
mod tests;
mod turn;

use anyhow::{anyhow, ensure};
use line::{Outcome, Session};
use std::io::{BufRead, BufReader, Write};

// The line without the byte that ends it.
fn without_end(line: &[u8]) -> &[u8]
    ensures { result.now ≡ unended line.now }
{
    line.strip_suffix(b"\n").unwrap_or(line)
}

// Whether every line could be read.
fn run(rt: &HostRuntime) -> anyhow::Result<bool> {
    let heap = rt.alloc();
    let mut input = BufReader::new(heap, rt.stdin())?;
    let mut session = Session::new(heap);
    let mut all = true;
    // by number: it is printed
    for number in 1..=u64::MAX {
        let mut line = Vec::new(heap);
        if input.read_until(b'\n', &mut line)? == 0 {
            break;
        }
        let printed = session
            .replay(number, without_end(line.as_slice()))
            .map_err(|_| anyhow!("there is no memory left"))?;
        all = all && printed.outcome == Outcome::Done;
        rt.stdout().write_all(printed.text.as_slice())?;
    }
    Ok(all)
}

fn main(rt: HostRuntime) -> anyhow::Result<()> {
    ensure!(run(&rt)?, "some lines could not be read");
    Ok(())
}
