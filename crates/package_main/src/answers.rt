// What the entry points answer about a package: one line for the package, its tree, and each statement.
ghost use Rattle.std.specs.Prelude.{length};
ghost use Rattle.std.specs.Iterator.{at_most};

use crate::sentence::Outcome;
use std::io;

// The words that are in use: never more than there are.
fn front(s: &[u32], n: usize) -> &[u32] {
    s.get(..n).unwrap_or(&[])
}

// ---- a statement

// What statements are parsed by: the rules of a package and their tree.
#[derive(Clone, Copy)]
struct Grammar<'a> {
    codes: rules::Codes,
    rules: &'a [u32],
    nodes: &'a [u32],
    edges: &'a [u32],
}

// So many passes are always enough.
fn allowance(tokens: &[u32]) -> u32 {
    if words::MOST_TOKENS < tokens.len() {
        return 0;
    }
    4 * (tokens.len() as u32)
}

impl Grammar<'_> {
    // Says the answer to statement `k`. The slices are the caller's, the same for every statement: to make them anew for each costs more than
    // most parses.
    fn answer<P: Print>(
        &self,
        rt: &P,
        k: usize,
        tokens: &[u32],
        frames: &mut [u32],
        list: &mut [u32],
        work: &mut [u32],
    ) -> io::Result<()> {
        let a = desk::parse(
            self.codes,
            self.rules,
            self.nodes,
            self.edges,
            tokens,
            allowance(tokens),
            frames,
            list,
            work,
        );
        print!(rt;
            "statement {k}: number {}, place {}, passes {}, list",
            a.number, a.place, a.passes
        )?;
        for x in front(list, a.length as usize) {
            print!(rt; " {x}")?;
        }
        println!(rt; ": {}", Outcome(a.number))
    }
}

// Counted words, a statement's tokens after their count. A count of more words than are left counts as 0.
#[derive(Drop)]
struct Statements<'a>(&'a [u32]);

impl<'a> Iterator for Statements<'a> {
    type Item = &'a [u32];

    ghost remaining = { λ s. at_most (length s.0.now) };

    fn next(&mut self) -> Option<&'a [u32]> {
        let (count, others) = self.0.split_first()?;
        let (tokens, others) = others
            .split_at_checked(*count as usize)
            .unwrap_or((&[], others));
        self.0 = others;
        Some(tokens)
    }
}

// ---- the tree

// A package has no commands, so no frame is needed.
fn tree<P: Print>(
    rt: &P,
    codes: rules::Codes,
    rules: &[u32],
    all: Statements<'_>,
) -> io::Result<()> {
    let mut nodes = [0u32; text::MOST];
    let mut edges = [0u32; text::MOST];
    let mut frames = [0u32; 1];
    let m = desk::build(codes, rules, &[], &mut nodes, &mut edges, &mut frames);
    println!(rt;
        "tree: number {}, nodes {}, edges {}: {}",
        m.number,
        m.nodes,
        m.edges,
        Outcome(m.number)
    )?;
    if m.number != words::ACCEPTED {
        return Ok(());
    }
    let grammar = Grammar {
        codes,
        rules,
        nodes: front(&nodes, m.nodes as usize),
        edges: front(&edges, words::ROW_WIDTH * (m.edges as usize)),
    };
    let mut frames = [0u32; text::MOST];
    let mut list = [0u32; text::MOST];
    let mut work = [0u32; text::MOST];
    for (k, tokens) in all.enumerate() {
        grammar.answer(rt, k, tokens, &mut frames, &mut list, &mut work)?;
    }
    Ok(())
}

// ---- the package

fn show_counts<P: Print>(rt: &P, p: package::Package) -> io::Result<()> {
    println!(rt; "typecodes: provable {}, logic {}", p.provable, p.logic)?;
    println!(rt;
        "counts: rule words {}, statements {}, statement words {}",
        p.rules, p.statements, p.words
    )
}

// Four bytes are needed for each word of a statement, so the statements of a package that this program takes fit. Rules in the old form
// may not: they have more words than their records, and 7 says so.
pub fn package<P: Print>(rt: &P, bytes: &[u8]) -> io::Result<()> {
    let mut rules = [0u32; text::MOST];
    let mut all = [0u32; text::MOST];
    let p = desk::read(bytes, &mut rules, &mut all);
    println!(rt;
        "package: number {}, place {}: {}",
        p.number,
        p.place,
        Outcome(p.number)
    )?;
    if p.number != words::ACCEPTED {
        return Ok(());
    }
    show_counts(rt, p)?;
    let codes = rules::Codes {
        provable: words::SymbolNo(p.provable),
        logic: words::SymbolNo(p.logic),
    };
    let rules = front(&rules, p.rules);
    tree(rt, codes, rules, Statements(front(&all, p.words)))
}
