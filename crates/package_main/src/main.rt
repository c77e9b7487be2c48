// Says all that the entry points answer about a package: its typecodes and counts, its tree, and each of its statements. The standard input
// is the package, or a text that starts with `#`, as no good package does. A line of the text is a package in hex digits, or a remark: that
// is written out again.
#![tactic(auto)]

mod answers;
mod hex;
mod sentence;

use std::io;
use text::ReadError;

// One byte more than this program has room for: what fills a slice of so many may be longer.
const MOST: usize = 65536;

fn too_long<P: Print>(rt: &P) -> io::Result<()> {
    println!(rt;
        "package: REFUSED, it has more than the 65535 bytes that this program has room for"
    )
}

fn in_hex<P: Print>(rt: &P, line: &[u8]) -> io::Result<()> {
    let mut bytes = [0u8; MOST];
    match hex::read(line, &mut bytes) {
        Ok(n) => answers::package(rt, &bytes[..n]),
        Err(ReadError::NoNumber) => println!(rt; "this line can't be read"),
        Err(ReadError::NoRoom) => too_long(rt),
    }
}

fn take<P: Print>(rt: &P, line: &[u8]) -> io::Result<()> {
    match line.first() {
        None | Some(&text::REMARK) => {
            rt.write_all(line)?;
            println!(rt;)
        }
        Some(_) => in_hex(rt, line),
    }
}

fn each<P: Print>(rt: &P, lines: &[u8], whole: bool) -> io::Result<()> {
    for line in lines.split(|b| *b == b'\n') {
        take(rt, line)?;
    }
    if !whole {
        println!(rt; "the text is too long, its end is NOT read")?;
    }
    Ok(())
}

fn main(rt: HostRuntime) -> io::Result<()> {
    let mut all = [0u8; MOST];
    let n = text::read_full(&mut rt.stdin(), &mut all)?;
    let read = &all[..n];
    let whole = n < MOST;
    if read.first() == Some(&text::REMARK) {
        each(&rt, read, whole)
    } else if whole {
        answers::package(&rt, read)
    } else {
        too_long(&rt)
    }
}
