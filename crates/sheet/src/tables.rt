// The tables that the sheet has set, and what a row asks.
ghost use Rattle.std.specs.Prelude.{◌≤◌};

use crate::line::{Call, Line, Set, Unreadable};
use text::ReadError;

// At most N words: an array and their count, since a program has fixed memory. A field that can't be read may leave some of its words in
// place of those that stood there.
#[derive(Drop)]
pub struct Table<const N: usize> {
    words: [u32; N],
    length: usize,
    ghost within: { length ≤ N },
}

impl<const N: usize> Table<N> {
    fn new() -> Self {
        Table {
            words: [0; N],
            length: 0,
        }
    }

    fn read(&mut self, field: &[u8]) -> Result<(), ReadError> {
        self.length = text::read(field, &mut self.words)?;
        Ok(())
    }

    pub fn as_slice(&self) -> &[u32] {
        &self.words[..self.length]
    }

    // 0 where the table has no such word.
    pub fn word(&self, i: usize) -> u32 {
        self.as_slice().get(i).copied().unwrap_or(0)
    }
}

// The typecodes; the allowance and the words lent; the rules and their tree. Then of a row: what it asks, its commands, list or body, and the
// numbers that it is to give back.
#[derive(Drop)]
pub struct Tables {
    pub codes: Table<2>,
    pub lent: Table<4>,
    pub rules: Table<10252>,
    pub nodes: Table<128>,
    pub edges: Table<1798>,
    pub asked: Table<4181>,
    pub words: Table<16382>,
    pub answer: Table<4>,
}

// The first fields of a line, an empty one for each that it doesn't have. No line of ours has more.
fn fields(line: &[u8]) -> [&[u8]; 5] {
    let mut first = [&line[..0]; 5];
    for (place, field) in first.iter_mut().zip(line.split(|b| *b == b'|')) {
        *place = field;
    }
    first
}

impl Tables {
    pub fn new() -> Self {
        Tables {
            codes: Table::new(),
            lent: Table::new(),
            rules: Table::new(),
            nodes: Table::new(),
            edges: Table::new(),
            asked: Table::new(),
            words: Table::new(),
            answer: Table::new(),
        }
    }

    pub fn typecodes(&self) -> rules::Codes {
        rules::Codes {
            provable: words::SymbolNo(self.codes.word(0)),
            logic: words::SymbolNo(self.codes.word(1)),
        }
    }

    fn set(&mut self, which: Set, field: &[u8]) -> Result<(), ReadError> {
        match which {
            Set::Codes => self.codes.read(field),
            Set::Lent => self.lent.read(field),
            Set::Rules => self.rules.read(field),
            Set::Nodes => self.nodes.read(field),
            Set::Edges => self.edges.read(field),
        }
    }

    // A line of a name and one more field; one with other fields sets its table too, but counts as unreadable.
    fn read_set(&mut self, which: Set, line: &[u8]) -> Result<(), Unreadable> {
        let [_, field, ..] = fields(line);
        self.set(which, field)?;
        if text::pieces(line, b'|') == 2 {
            Ok(())
        } else {
            Err(Unreadable)
        }
    }

    // Nothing stands after a row's last bar.
    fn read_row(&mut self, call: Call, line: &[u8]) -> Result<(), Unreadable> {
        let [_, asked, words, answer, end] = fields(line);
        self.asked.read(asked)?;
        self.words.read(words)?;
        self.answer.read(answer)?;
        let good = text::pieces(line, b'|') == 5
            && end.is_empty()
            && self.asked.as_slice().len() <= call.most_asked();
        if good { Ok(()) } else { Err(Unreadable) }
    }

    // Sets what a line says; what the line is.
    pub fn read(&mut self, line: &[u8]) -> Result<Line, Unreadable> {
        let what = Line::try_from(line)?;
        match what {
            Line::Remark => {}
            Line::Set(which) => self.read_set(which, line)?,
            Line::Row(call) => self.read_row(call, line)?,
        }
        Ok(what)
    }
}
