// The entry points. None asks anything of its caller: any words may come in any slice.
#![tactic(auto)]

mod ground;
mod many;

ghost use Rattle.std.specs.Prelude.{◌≡◌, true, not, ltb, [], ◌∷◌, ◌≤◌, Err, IfOk, length};
ghost use Rattle.words.specs.Limits.{most_tokens};
ghost use Rattle.words.specs.Numbers.{too_few_tokens, too_many_tokens};
ghost use Rattle.words.specs.Outcome.{demand, first_fault};
ghost use Rattle.words.specs.Code.{number_of};
ghost use Rattle.rules.specs.Code.{stretch_of, PartOf};
ghost use Rattle.tree.specs.Code.{room_of};
ghost use Rattle.package.specs.Code.{read_is, written_is};
ghost use Rattle.desk.specs.Entry.{body_gives, build_room, build_gives, walk_room, walk_of, parse_gives, verify_demands, verify_gives, read_gives, write_gives};
ghost use Rattle.desk.specs.Batch.{batch_gives};
ghost use Rattle.desk.specs.Code.{verified_is, built_is, answer_of, made_of, Raised, parsed_is, Tried, asked_over, batch_is, asked, lent, asked_many, lent_many};

use ground::Ground;
use walk::{Halted, Walked};
use words::Refusal;

// What a parse or a check answers: the number, the place, the length of the list and the passes.
#[repr(C)]
#[derive(Clone, Copy)]
pub struct Answer {
    pub number: u32,
    pub place: u32,
    pub length: u32,
    pub passes: u32,
}

// What a batch answers: the number, the place, and the counts of statements and of list words.
#[repr(C)]
#[derive(Clone, Copy)]
pub struct Batch {
    pub number: u32,
    pub place: usize,
    pub statements: usize,
    pub words: usize,
}

// What a build answers: the number, and the counts of nodes and edges.
#[repr(C)]
#[derive(Clone, Copy)]
pub struct Made {
    pub number: u32,
    pub nodes: u32,
    pub edges: u32,
}

impl From<Result<Walked, Halted>> for Answer {
    ghost from_gives = { λ r a. a ≡ answer_of r };

    fn from(r: Result<Walked, Halted>) -> Answer {
        match r {
            Ok(w) => Answer {
                number: words::ACCEPTED,
                place: 0,
                length: w.length,
                passes: w.passes,
            },
            Err(h) => Answer {
                number: h.why.into(),
                place: h.place,
                length: 0,
                passes: h.passes,
            },
        }
    }
}

impl From<Result<Made, Refusal>> for Made {
    ghost from_gives = { λ r m. m ≡ made_of r };

    fn from(r: Result<Made, Refusal>) -> Made {
        match r {
            Ok(m) => m,
            Err(y) => Made {
                number: y.into(),
                nodes: 0,
                edges: 0,
            },
        }
    }
}

// ---- body

// The body pairs of rule `no`, as that stretch of the caller's rules; an empty one where the rules are bad or have no such rule.
pub fn body(codes: rules::Codes, rules: &[u32], no: words::RuleNo) -> &[u32]
    ensures { PartOf rules.entry result (body_gives codes.provable.0 codes.logic.0 rules.now no.0) }
{
    rules::body(rules, codes, no)
}

// Where that stretch starts, and how long it is.
pub fn body_stretch(codes: rules::Codes, rules: &[u32], no: words::RuleNo) -> rules::Stretch
    ensures { stretch_of result ≡ body_gives codes.provable.0 codes.logic.0 rules.now no.0 }
{
    rules::stretch_of(rules, codes, no)
}

// ---- build

// The room of two slices: their whole rows, or the limits.
fn build_room(nodes: usize, edges: usize) -> tree::Room
    ensures { room_of result ≡ build_room nodes edges }
{
    tree::Room {
        nodes: words::lesser(nodes, words::MOST_NODES),
        edges: words::lesser(edges / words::ROW_WIDTH, words::MOST_EDGES),
    }
}

// The tables at the front of the two slices: what stands after them is not said, nor what stands in the frames.
fn raise(
    codes: rules::Codes,
    rules: &[u32],
    commands: &[u32],
    nodes: &mut [u32],
    edges: &mut [u32],
    frames: &mut [u32],
) -> Result<Made, Refusal>
    ensures { Raised (build_gives codes.provable.0 codes.logic.0 rules.now commands.now
        (length nodes.old) (length edges.old) (length frames.old))
        (made_of result) nodes.new edges.new (length frames.old) }
{
    if !rules::rules_good(rules, codes) {
        return Err(Refusal::BadRules);
    }
    let room = build_room(nodes.len(), edges.len());
    let counts = garden::build(rules, commands, room, nodes, edges, frames)?;
    Ok(Made {
        number: words::ACCEPTED,
        nodes: counts.nodes as u32,
        edges: counts.edges as u32,
    })
}

// The tree of the rules and commands, in two slices of any length and content, with a third of frames. A refused build leaves all three
// zero, a good one zeros past its rows and in the frames.
pub fn build(
    codes: rules::Codes,
    rules: &[u32],
    commands: &[u32],
    nodes: &mut [u32],
    edges: &mut [u32],
    frames: &mut [u32],
) -> Made
    ensures { built_is result nodes.new edges.new frames.new
        ≡ build_gives codes.provable.0 codes.logic.0 rules.now commands.now
        (length nodes.old) (length edges.old) (length frames.old) }
{
    let m = Made::from(raise(codes, rules, commands, nodes, edges, frames));
    words::clear_from(nodes, m.nodes as usize);
    words::clear_from(edges, words::ROW_WIDTH * (m.edges as usize));
    frames.fill(0); // no clone is under way
    m
}

// ---- verify

// Whether a statement has as many tokens as one may have.
#[tactic(auto, unfolding(words::specs::Outcome::first_fault))]
fn allowed(tokens: &[u32]) -> Result<(), Refusal>
    ensures number { number_of result ≡ first_fault (demand (not (ltb (length tokens.now) 2)) too_few_tokens
        ∷ demand (not (ltb most_tokens (length tokens.now))) too_many_tokens ∷ []) }
    ensures few { IfOk result (λ _. (2 ≤ length tokens.now) × (length tokens.now ≤ most_tokens)) }
{
    if tokens.len() < 2 {
        return Err(Refusal::TooFewTokens);
    }
    if words::MOST_TOKENS < tokens.len() {
        return Err(Refusal::TooManyTokens);
    }
    Ok(())
}

// What stands in the work slice afterwards is not said.
fn judge(
    codes: rules::Codes,
    rules: &[u32],
    tokens: &[u32],
    list: &[u32],
    work: &mut [u32],
) -> Result<(), Refusal>
    ensures { number_of result ≡ first_fault (verify_demands codes.provable.0 codes.logic.0 rules.now tokens.now list.now
        (length work.old)) }
{
    if !rules::rules_good(rules, codes) {
        return Err(Refusal::BadRules);
    }
    allowed(tokens)?;
    if work.len() < list.len() {
        return Err(Refusal::NoRoom);
    }
    let goal = walk::goal_of(codes, words::SymbolNo(tokens[0]));
    let book = formula::RuleBook { rules, starts: &[] };
    if !formula::check(&book, goal, &tokens[1..], list, work) {
        return Err(Refusal::Misfit);
    }
    Ok(())
}

// The check alone: whether the list is a well typed tree of the stated typecode that spells the statement.
pub fn verify(
    codes: rules::Codes,
    rules: &[u32],
    tokens: &[u32],
    list: &[u32],
    work: &mut [u32],
) -> Answer
    ensures { verified_is result work.new
        ≡ verify_gives codes.provable.0 codes.logic.0 rules.now tokens.now list.now (length work.old) }
{
    let judged = judge(codes, rules, tokens, list, work);
    work.fill(0);
    let number = match judged {
        Ok(()) => words::ACCEPTED,
        Err(y) => y.into(),
    };
    Answer {
        number,
        place: 0,
        length: 0,
        passes: 0,
    }
}

// ---- parse

// The walk of a statement or the refusal of its length. The list stands at the front of its slice; what else stands in the slices is not said.
fn parse_one(
    ground: &Ground,
    tokens: &[u32],
    allowance: u32,
    frames: &mut [u32],
    list: &mut [u32],
    work: &mut [u32],
) -> Result<Walked, Halted>
    ensures { Tried (walk_of (asked_over ground.now tokens.now) allowance
        (walk_room (lent frames.old list.old work.old))) (answer_of result) list.new }
{
    allowed(tokens)?;
    let terms = walk::Terms {
        codes: ground.codes,
        allowance,
    };
    walk::walk(&ground.grammar, tokens, terms, frames, list, work)
}

// The answer, and the list at the front of its slice: what else stands in the slices is not said.
fn attempt(
    codes: rules::Codes,
    rules: &[u32],
    nodes: &[u32],
    edges: &[u32],
    tokens: &[u32],
    allowance: u32,
    frames: &mut [u32],
    list: &mut [u32],
    work: &mut [u32],
) -> Result<Walked, Halted>
    ensures { Tried (walk_of (asked codes rules.now nodes.now edges.now tokens.now) allowance
        (walk_room (lent frames.old list.old work.old))) (answer_of result) list.new }
{
    let ground = Ground::new(codes, rules, nodes, edges)?;
    parse_one(&ground, tokens, allowance, frames, list, work)
}

// The statement's list of rules, in postfix order, or a refusal. Frame and work slices are zero afterwards; so is the list slice, but for the
// list of an accepted statement.
pub fn parse(
    codes: rules::Codes,
    rules: &[u32],
    nodes: &[u32],
    edges: &[u32],
    tokens: &[u32],
    allowance: u32,
    frames: &mut [u32],
    list: &mut [u32],
    work: &mut [u32],
) -> Answer
    ensures { parsed_is result frames.new list.new work.new
        ≡ parse_gives (asked codes rules.now nodes.now edges.now tokens.now) allowance
        (lent frames.old list.old work.old) }
{
    let tried = attempt(
        codes, rules, nodes, edges, tokens, allowance, frames, list, work,
    );
    let a = Answer::from(tried);
    words::clear_from(list, a.length as usize);
    frames.fill(0);
    work.fill(0);
    a
}

// ---- many statements

// The statements' answers, four words for each, and their lists one after another: each as `parse` answers it with the part of the list slice
// that is still free. Rules and tables are checked once. Zeros stand after answers and lists and in the other slices, and after a refusal
// zeros alone.
pub fn parse_many(
    codes: rules::Codes,
    rules: &[u32],
    nodes: &[u32],
    edges: &[u32],
    statements: &[u32],
    allowance: u32,
    frames: &mut [u32],
    list: &mut [u32],
    work: &mut [u32],
    answers: &mut [u32],
    index: &mut [u32],
) -> Batch
    ensures { batch_is result frames.new list.new work.new answers.new index.new
        ≡ batch_gives (asked_many codes rules.now nodes.now edges.now statements.now) allowance
        (lent_many frames.old list.old work.old answers.old index.old) }
{
    let tried = many::attempt(
        codes, rules, nodes, edges, statements, allowance, frames, list, work, answers, index,
    );
    let b = Batch::from(tried);
    words::clear_from(list, b.words);
    words::clear_from(answers, many::ANSWER_WIDTH * b.statements);
    frames.fill(0);
    work.fill(0);
    index.fill(0);
    b
}

// ---- packages

// What a package's bytes say: its typecodes, its rule words and its statements as counted words. Zeros stand after them, and after a refusal
// zeros alone.
pub fn read(bytes: &[u8], rules: &mut [u32], statements: &mut [u32]) -> package::Package
    ensures { read_is result rules.new statements.new
        ≡ read_gives bytes.now (length rules.old) (length statements.old) }
{
    package::read(bytes, rules, statements)
}

// The package of typecodes, rules and statements, these as counted words. Zeros stand after it, and after a refusal zeros alone.
pub fn write(
    codes: rules::Codes,
    rules: &[u32],
    statements: &[u32],
    bytes: &mut [u8],
) -> package::Written
    ensures { written_is result bytes.new
        ≡ write_gives codes.provable.0 codes.logic.0 rules.now statements.now (length bytes.old) }
{
    package::write(codes, rules, statements, bytes)
}
