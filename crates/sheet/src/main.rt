// Runs the training sheet through the entry points. The sheet is the standard input. A line of it sets a table, or is a row: a call, and
// all that is to come back. Each line is written out again, a row with the numbers that did come back and whether they, and every lent
// word, are as on the sheet. The first letter of a line says what it is.
#![tactic(auto)]

mod calls;
mod line;
mod show;
mod tables;

use line::Line;
use std::{fmt, io};
use tables::Tables;

// What a line has come to: no row, a row as on the sheet, one that is not, a line that can't be read.
#[derive(Clone, Copy, Debug, PartialEq, Eq)]
enum Verdict {
    Said,
    Same,
    Other,
    Unread,
}

impl Verdict {
    // What can't be read counts as a row.
    fn is_row(self) -> bool {
        self != Verdict::Said
    }

    fn is_wrong(self) -> bool {
        matches!(self, Verdict::Other | Verdict::Unread)
    }
}

impl fmt::Display for Verdict {
    fn fmt<W: fmt::Write>(&self, f: &mut fmt::Formatter<W>) -> fmt::Result {
        f.write_str(match self {
            Verdict::Said => "",
            Verdict::Same => " | as on the sheet",
            Verdict::Other => " | NOT as on the sheet",
            Verdict::Unread => " | cannot read this line | NOT as on the sheet",
        })
    }
}

// Does what a line says, and tells what that has come to.
fn take<P: Print>(rt: &P, line: &[u8], t: &mut Tables) -> io::Result<Verdict> {
    match t.read(line) {
        Err(_) => Ok(Verdict::Unread),
        Ok(Line::Row(call)) if call.run(rt, t)? => Ok(Verdict::Same),
        Ok(Line::Row(_)) => Ok(Verdict::Other),
        Ok(_) => Ok(Verdict::Said),
    }
}

// Line after line, and the counts. A text has fewer lines than a word can count.
fn run<P: Print>(rt: &P, text: &[u8], t: &mut Tables) -> io::Result<()> {
    let mut rows: u32 = 0;
    let mut wrong: u32 = 0;
    for line in text.split(|b| *b == b'\n') {
        rt.write_all(line)?;
        let verdict = take(rt, line, t)?;
        println!(rt; "{verdict}")?;
        rows = rows.wrapping_add(u32::from(verdict.is_row()));
        wrong = wrong.wrapping_add(u32::from(verdict.is_wrong()));
    }
    println!(rt; "{rows} rows, {wrong} NOT as on the sheet")
}

fn main(rt: HostRuntime) -> io::Result<()> {
    let mut text = [0u8; 65536];
    let mut t = Tables::new();
    let n = text::read_full(&mut rt.stdin(), &mut text)?;
    run(&rt, &text[..n], &mut t)?;
    if n == text.len() {
        println!(rt; "the sheet is too long, its end is NOT read")?;
    }
    Ok(())
}
