// Many statements under one set of tables: rules and tables are checked once, and an index says where each rule and each node's rows start.
ghost use Rattle.std.specs.Prelude.{◌≡◌, true, [], ◌∷◌, ◌++◌, ◌+◌, ◌*◌, ◌≤◌, Err, length};
ghost use Rattle.words.specs.Counted.{the_lists, lists_of};
ghost use Rattle.walk.specs.Walk.{Walked};
ghost use Rattle.desk.specs.Batch.{answer_width, whole, walk_one, walks_from, batch_gives};
ghost use Rattle.desk.specs.Code.{Packed, TriedMany, batch_of, whole_refused, asked_many, asked_many_over, lent, lent_many, Following};

use super::{Answer, Batch, Ground, parse_one};
use words::{Refusal, Refused};

// The words of an answer.
pub const ANSWER_WIDTH: usize = 4;

impl From<Result<Batch, Refused>> for Batch {
    ghost from_gives = { λ r b. b ≡ batch_of r };

    fn from(r: Result<Batch, Refused>) -> Batch {
        match r {
            Ok(b) => b,
            Err(y) => Batch {
                number: y.why.into(),
                place: y.place,
                statements: 0,
                words: 0,
            },
        }
    }
}

impl Answer {
    // The words of an answer.
    fn words(self) -> [u32; ANSWER_WIDTH]
        ensures { result ≡ self.number ∷ self.place ∷ self.length ∷ self.passes ∷ [] }
    {
        [self.number, self.place, self.length, self.passes]
    }
}

// How much of the list slice and of the answer slice is used.
#[derive(Clone, Copy)]
struct Used {
    list: usize,
    answers: usize,
}

// One statement more: its list after those before it, and its answer after theirs. How much of the list slice is used then.
fn parse_next(
    ground: &Ground,
    tokens: &[u32],
    allowance: u32,
    used: Used,
    frames: &mut [u32],
    list: &mut [u32],
    work: &mut [u32],
    answers: &mut [u32],
) -> usize
    requires { (used.list ≤ length list.old) × (used.answers + answer_width ≤ length answers.old) }
    ensures { Following (walk_one (asked_many_over ground.now []) allowance
        (lent frames.old list.old work.old) used.list tokens.now)
        used.list used.answers list.old answers.old result list.new answers.new }
{
    let i = used.answers;
    let from = used.list;
    let a = Answer::from(parse_one(ground, tokens, allowance, frames, &mut list[from..], work));
    answers[i..i + ANSWER_WIDTH].copy_from_slice(&a.words());
    from + a.length as usize
}

// All statements, one after another. How much of the list slice is used.
fn parse_all(
    ground: &Ground,
    statements: &[u32],
    allowance: u32,
    frames: &mut [u32],
    list: &mut [u32],
    work: &mut [u32],
    answers: &mut [u32],
) -> usize
    requires { (whole (lists_of statements.now) ≡ true) × (answer_width * length (the_lists statements.now) ≤ length answers.old) }
    ensures { Packed (walks_from (asked_many_over ground.now statements.now) allowance
        (lent frames.old list.old work.old) 0 (the_lists statements.now)) result list.new answers.new }
{
    let mut rest = statements;
    let mut used = Used {
        list: 0,
        answers: 0,
    };
    while let Some((size, after)) = rest.split_first() {
        let (tokens, others) = after.split_at(*size as usize);
        used.list = parse_next(ground, tokens, allowance, used, frames, list, work, answers);
        used.answers += ANSWER_WIDTH;
        rest = others;
    }
    used.list
}

// The index is filled, then the statements are parsed. There are `count` of them. What is lent beyond its size serves node 0's constants.
fn parse_indexed(
    ground: &Ground,
    statements: &[u32],
    allowance: u32,
    count: usize,
    frames: &mut [u32],
    list: &mut [u32],
    work: &mut [u32],
    answers: &mut [u32],
    index: &mut [u32],
) -> Result<Batch, Refusal>
    requires { (whole (lists_of statements.now) ≡ true) × (count ≡ length (the_lists statements.now)) }
    ensures { TriedMany (batch_gives (asked_many_over ground.now statements.now) allowance
        (lent_many frames.old list.old work.old answers.old index.old))
        (batch_of (whole_refused result)) list.new answers.new }
{
    let rules = ground.grammar.book.rules;
    let nodes = ground.grammar.nodes;
    let edges = ground.grammar.edges;
    let n = rules::count(rules) as usize;
    let size = n + nodes.len() + 1;
    if answers.len() / ANSWER_WIDTH < count {
        return Err(Refusal::NoRoom);
    }
    if index.len() < size {
        return Err(Refusal::NoRoom);
    }
    let (starts, others) = index.split_at_mut(n);
    let (firsts, roots) = others.split_at_mut(nodes.len() + 1);
    rules::index_rules(rules, starts);
    rows::index_rows(edges, firsts);
    rows::index_roots(edges, roots);
    let book = formula::RuleBook { rules, starts };
    let indexed = Ground {
        codes: ground.codes,
        grammar: walk::Grammar::new(book, nodes, edges, firsts, roots),
    };
    let used = parse_all(&indexed, statements, allowance, frames, list, work, answers);
    Ok(Batch {
        number: words::ACCEPTED,
        place: 0,
        statements: count,
        words: used,
    })
}

// The answer, and answers and lists at the fronts of their slices: what else stands in the slices is not said.
pub fn attempt(
    codes: rules::Codes,
    rules: &[u32],
    nodes: &[u32],
    edges: &[u32],
    statements: &[u32],
    allowance: u32,
    frames: &mut [u32],
    list: &mut [u32],
    work: &mut [u32],
    answers: &mut [u32],
    index: &mut [u32],
) -> Result<Batch, Refused>
    ensures { TriedMany (batch_gives (asked_many codes rules.now nodes.now edges.now statements.now) allowance
        (lent_many frames.old list.old work.old answers.old index.old))
        (batch_of result) list.new answers.new }
{
    let ground = Ground::new(codes, rules, nodes, edges)?;
    let count = words::count_lists(statements)?;
    let b = parse_indexed(
        &ground, statements, allowance, count, frames, list, work, answers, index,
    )?;
    Ok(b)
}
