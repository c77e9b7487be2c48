// The walk of a statement through tables: its types, and where it begins.
#![tactic(auto)]

mod branch;
mod edge;
mod leaf;
mod passes;
mod refusal;
mod tables;
mod wanted;

ghost use Rattle.std.specs.Prelude.{◌≡◌, true, ◌≤◌, length};
ghost use Rattle.words.specs.Limits.{most_tokens};
ghost use Rattle.words.specs.Outcome.{lesser};
ghost use Rattle.rules.specs.Rules.{the_rules};
ghost use Rattle.rows.specs.Rows.{tables_good};
ghost use Rattle.walk.specs.Walk.{wanted_of, walk};
ghost use Rattle.walk.specs.Code.{stand_at, under, with_trees, room_of, tables, answer_of, Answers};

pub use refusal::Why;
pub use tables::Grammar;
use words::Refusal;

// Where a walk starts, and goes from a new frame.
const ROOT: words::NodeNo = words::NodeNo(0);

// List room past this is not used: a tree's size is one word, and no walk comes near it.
const MOST_ROOM: usize = 4294967295;

// Where a walk stands: its node, how many frames and which trees are in use, the place of the next token, and the last one noted.
#[derive(Clone, Copy)]
pub struct At {
    pub node: words::NodeNo,
    pub frames: usize,
    pub trees: formula::Trees,
    pub token: usize,
    pub last: u32,
}

// What is wanted of a tree: the goal's typecode, or one that the top frame's node has a variable edge for.
#[derive(Clone, Copy)]
pub enum Wish {
    Goal(words::SymbolNo),
    Frame(words::NodeNo),
}

// What a pass goes by: the typecode wanted without frames, what is wanted now, the list room, and where the walk stands.
#[derive(Clone, Copy)]
pub struct Stand {
    pub goal: words::SymbolNo,
    pub wish: Wish,
    pub room: usize,
    pub at: At,
}

impl Stand {
    // The top frame is popped.
    fn popped(self) -> Stand
        requires { 1 ≤ self.at.frames }
        ensures { result ≡ stand_at self (under self.at) }
    {
        let at = At {
            frames: self.at.frames - 1,
            ..self.at
        };
        Stand { at, ..self }
    }

    // The trees are these.
    fn with_trees(self, trees: formula::Trees) -> Stand
        ensures { result ≡ stand_at self (with_trees self.at trees) }
    {
        let at = At { trees, ..self.at };
        Stand { at, ..self }
    }
}

// What a walk is held to: the typecode wanted without frames, the passes allowed, and the list room.
#[derive(Clone, Copy)]
pub struct Held {
    pub goal: words::SymbolNo,
    pub allowance: u32,
    pub room: usize,
}

// What a caller of a walk says: its typecodes, and the passes allowed.
#[derive(Clone, Copy)]
pub struct Terms {
    pub codes: rules::Codes,
    pub allowance: u32,
}

// What comes of a pass that is not refused: the walk goes on, or ends with a list of so many words.
#[derive(Clone, Copy)]
pub enum Step {
    On(At),
    End(usize),
}

// A conversion: its rule, and the typecode that it goes to.
#[derive(Clone, Copy)]
pub struct Choice {
    pub rule: words::RuleNo,
    pub to: words::SymbolNo,
}

// What comes of a walk that is not refused: a list, the first `length` words of the list slice.
#[derive(Clone, Copy)]
pub struct Walked {
    pub length: u32,
    pub passes: u32,
}

// Why a walk is refused, and the place of the token where there is one.
#[derive(Clone, Copy)]
pub struct Halted {
    pub why: Refusal,
    pub place: u32,
    pub passes: u32,
}

// Before a pass.
impl From<Refusal> for Halted {
    ghost from_gives = { λ y h. h ≡ record { why = y; place = 0; passes = 0 } };

    fn from(why: Refusal) -> Halted {
        Halted {
            why,
            place: 0,
            passes: 0,
        }
    }
}

// The typecode wanted without frames: the logic one where the provable one is stated.
pub fn goal_of(codes: rules::Codes, stated: words::SymbolNo) -> words::SymbolNo
    ensures { result.0 ≡ wanted_of codes.provable.0 codes.logic.0 stated.0 }
{
    if stated == codes.provable {
        return codes.logic;
    }
    stated
}

// The walk of a statement, its typecode first. The tables have passed their check.
pub fn walk(
    g: &Grammar,
    tokens: &[u32],
    terms: Terms,
    frames: &mut [u32],
    list: &mut [u32],
    work: &mut [u32],
) -> Result<Walked, Halted>
    requires { (tables_good (length (the_rules g.now.book.rules.now)) g.now.nodes.now g.now.edges.now ≡ true)
        × (2 ≤ length tokens.now) × (length tokens.now ≤ most_tokens) }
    ensures { Answers (answer_of result) list.new
        (walk (tables g.now.book.rules.now g.now.nodes.now g.now.edges.now) terms.codes.provable.0 terms.codes.logic.0 terms.allowance
        (room_of (lesser (length list.old) (length work.old)) frames.old) tokens.now) }
{
    let goal = goal_of(terms.codes, words::SymbolNo(tokens[0]));
    let shorter = words::lesser(list.len(), work.len());
    let h = Held {
        goal,
        allowance: terms.allowance,
        room: words::lesser(shorter, MOST_ROOM),
    };
    passes::run(g, tokens, h, frames, list, work)
}
