// The calls of the entry points, each with all that is to come back.
use crate::line::Call;
use crate::show;
use crate::tables::Tables;
use std::io;

// The tables that are built are those of the sheet.
fn build<P: Print>(rt: &P, t: &Tables) -> io::Result<bool> {
    let mut n = [0u32; text::MOST];
    let mut e = [0u32; text::MOST];
    let mut f = [0u32; text::MOST];
    let nodes = show::lent(&mut n, t.asked.word(0));
    let edges = show::lent(&mut e, t.asked.word(1));
    let frames = show::lent(&mut f, t.asked.word(2));
    let m = desk::build(
        t.typecodes(),
        t.rules.as_slice(),
        t.words.as_slice(),
        nodes,
        edges,
        frames,
    );
    let same = show::told(rt, [m.number, m.nodes, m.edges, 0], t.answer.as_slice())?
        & show::left(rt, nodes, t.nodes.as_slice())?
        & show::left(rt, edges, t.edges.as_slice())?
        & show::left(rt, frames, &[])?;
    Ok(same)
}

fn parse<P: Print>(rt: &P, t: &Tables) -> io::Result<bool> {
    let mut f = [0u32; text::MOST];
    let mut l = [0u32; text::MOST];
    let mut w = [0u32; text::MOST];
    let frames = show::lent(&mut f, t.lent.word(1));
    let list = show::lent(&mut l, t.lent.word(2));
    let work = show::lent(&mut w, t.lent.word(3));
    let a = desk::parse(
        t.typecodes(),
        t.rules.as_slice(),
        t.nodes.as_slice(),
        t.edges.as_slice(),
        t.asked.as_slice(),
        t.lent.word(0),
        frames,
        list,
        work,
    );
    let same = show::told(
        rt,
        [a.number, a.place, a.length, a.passes],
        t.answer.as_slice(),
    )? & show::left(rt, frames, &[])?
        & show::left(rt, list, t.words.as_slice())?
        & show::left(rt, work, &[])?;
    Ok(same)
}

fn verify<P: Print>(rt: &P, t: &Tables) -> io::Result<bool> {
    let mut w = [0u32; text::MOST];
    let work = show::lent(&mut w, t.lent.word(3));
    let a = desk::verify(
        t.typecodes(),
        t.rules.as_slice(),
        t.asked.as_slice(),
        t.words.as_slice(),
        work,
    );
    let same = show::told(
        rt,
        [a.number, a.place, a.length, a.passes],
        t.answer.as_slice(),
    )? & show::left(rt, work, &[])?;
    Ok(same)
}

// The stretch, and the part of the rules that is handed back for it.
fn stretch<P: Print>(rt: &P, t: &Tables) -> io::Result<bool> {
    let codes = t.typecodes();
    let rules = t.rules.as_slice();
    let no = words::RuleNo(t.asked.word(0));
    let s = desk::body_stretch(codes, rules, no);
    let b = desk::body(codes, rules, no);
    let same = show::told(rt, [s.start, s.length, 0, 0], t.answer.as_slice())?
        & show::left(rt, b, t.words.as_slice())?
        & (b.len() == t.words.as_slice().len());
    Ok(same)
}

impl Call {
    // Whether all that comes back is as on the sheet.
    pub fn run<P: Print>(self, rt: &P, t: &Tables) -> io::Result<bool> {
        match self {
            Call::Build => build(rt, t),
            Call::Parse => parse(rt, t),
            Call::Verify => verify(rt, t),
            Call::Stretch => stretch(rt, t),
        }
    }
}
