// A formula's postfix list in lent slices: reducing, and the check.
#![tactic(auto)]

mod book;
mod sizes;
mod tail;

ghost use Rattle.std.specs.Prelude.{◌≡◌, true, [], ◌∷◌, ◌++◌, ◌+◌, ◌-◌, ◌≤◌, length, take, drop};
ghost use Rattle.words.specs.Limits.{most_reduces};
ghost use Rattle.rules.specs.Rules.{rule_of, the_rules};
ghost use Rattle.rules.specs.Code.{a_rule, some_rules, item_is};
ghost use Rattle.rows.specs.Code.{edge_is};
ghost use Rattle.formula.specs.Reducing.{reduce, reduce_all};
ghost use Rattle.formula.specs.Check.{check};
ghost use Rattle.formula.specs.Code.{trees_of, Inside, Gives, Whole, Stacked, Turned, Fills, Meets, still_of};

pub use book::RuleBook;
use std::ops::ControlFlow;

// The trees of a walk. The slices that they lie in are passed beside them: a reduce writes the one and then the other, and what ties the two to the
// trees does not hold between. The first `len` words of the list are theirs, the first `count` words of the work slice their sizes, the bottom
// tree's first.
#[derive(Clone, Copy)]
pub struct Trees {
    pub count: usize,
    pub len: usize,
}

// Why a reduce is refused: too few trees, or no room for its entry.
#[derive(Clone, Copy, PartialEq, Eq)]
pub enum Unfit {
    TooFew,
    Full,
}

// ---- reducing

// The rule is reduced under the top `offset` trees: too few trees before a full list. A rule that is not there has too few. The trees are taken
// over by their fields, as they were written: a copy of both at once waits for the two.
pub fn reduce(
    book: &RuleBook,
    room: usize,
    list: &mut [u32],
    work: &mut [u32],
    s: Trees,
    rule: words::RuleNo,
    offset: u32,
) -> Result<Trees, Unfit>
    requires { Inside room s list.old work.old }
    ensures { Gives room result list.new work.new
        (reduce (the_rules book.now.rules.now) room rule.0 offset (trees_of s list.old work.old)) }
{
    let fit = sizes::measure(book, room, work, s, rule, offset)?;
    words::insert(list, s.len, fit.place, rule.0);
    Ok(Trees {
        count: fit.trees.count,
        len: fit.trees.len,
    })
}

// The reduces of an edge, in order: the first that fails decides. The list's tail is moved once.
pub fn reduce_all(
    book: &RuleBook,
    room: usize,
    list: &mut [u32],
    work: &mut [u32],
    s: Trees,
    e: rows::Edge,
) -> Result<Trees, Unfit>
    requires { Inside room s list.old work.old }
    ensures { Gives room result list.new work.new
        (reduce_all (the_rules book.now.rules.now) room (edge_is e).reduces (trees_of s list.old work.old)) }
{
    match e.reduces.as_slice() {
        [] => Ok(s),
        [d] => reduce(book, room, list, work, s, d.rule, d.offset), // alone, it needs no plan
        reduces => tail::reduce_at_once(book, room, list, work, s, reduces),
    }
}

// ---- the check

// More than a body has items. A pending body is one word of the lent work slice: where its rule starts, times this, and how many items are left.
const PLACES: u32 = 64;

// The bodies that are pending, and the tokens and entries that are left.
#[derive(Clone, Copy)]
struct Seek {
    depth: usize,
    token: usize,
    entry: usize,
}

// The test goes on, or has an answer.
type Turn = ControlFlow<bool, Seek>;

// The last of the first `left` items of the rule that stands first.
fn last_item(s: &[u32], left: usize) -> rules::Item
    requires { (a_rule s.now ≡ true) × (1 ≤ left) × (left ≤ length (rule_of s.now).body) }
    ensures { take left (rule_of s.now).body ≡ take (left - 1) (rule_of s.now).body ++ item_is result ∷ [] }
{
    let body = rules::body_of(s);
    rules::item_in(body, left - 1)
}

// The body of the rule at word `i`, none of it met, as one word.
fn whole_body(rules: &[u32], i: usize) -> u32
    requires { (some_rules rules.now ≡ true) × (i ≤ length rules.now) × (a_rule (drop i rules.now) ≡ true) }
    ensures { Whole rules.now i result }
{
    let body = rules::body_of(&rules[i..]);
    let items = rules::items_in(body) as u32;
    (i as u32) * PLACES + items
}

// A constant: the last token left must be it.
fn meet(tokens: &[u32], s: Seek, symbol: words::SymbolNo) -> Turn
    requires { s.token ≤ length tokens.now }
    ensures { Meets tokens.now symbol.0 s result }
{
    let token = s.token;
    if token == 0 || tokens[token - 1] != symbol.0 {
        return ControlFlow::Break(false);
    }
    ControlFlow::Continue(Seek {
        token: token - 1,
        ..s
    })
}

// A slot: the last entry left must name a rule with this result, whose body is pending then.
fn fill(book: &RuleBook, list: &[u32], work: &mut [u32], s: Seek, wanted: words::SymbolNo) -> Turn
    requires { Stacked book.now.rules.now list.now s work.old }
    ensures { Fills book.now.rules.now list.now wanted.0 s work.old result work.new }
{
    let entry = s.entry;
    if entry == 0 {
        return ControlFlow::Break(false);
    }
    let Some(i) = rules::find_rule(book.rules, book.starts, words::RuleNo(list[entry - 1])) else {
        return ControlFlow::Break(false);
    };
    if rules::result_of(&book.rules[i..]) != wanted {
        return ControlFlow::Break(false);
    }
    let depth = s.depth;
    work[depth] = whole_body(book.rules, i);
    ControlFlow::Continue(Seek {
        depth: depth + 1,
        entry: entry - 1,
        ..s
    })
}

// One turn: a body that is all met is taken off, else its last item is met.
fn take_turn(book: &RuleBook, tokens: &[u32], list: &[u32], work: &mut [u32], s: Seek) -> Turn
    requires { Stacked book.now.rules.now list.now s work.old × (s.token ≤ length tokens.now) }
    ensures { Turned book.now.rules.now tokens.now list.now s
        (still_of book.now.rules.now tokens.now list.now s work.old) result work.new }
{
    let depth = s.depth;
    if depth == 0 {
        return ControlFlow::Break(s.entry == 0 && s.token == 0);
    }
    let top = depth - 1;
    let w = work[top];
    let left = (w % PLACES) as usize;
    if left == 0 {
        return ControlFlow::Continue(Seek { depth: top, ..s });
    }
    let i = (w / PLACES) as usize;
    let item = last_item(&book.rules[i..], left);
    work[top] = w - 1;
    match item {
        rules::Item::Con(symbol) => meet(tokens, s, symbol),
        rules::Item::Slot(wanted) => fill(book, list, work, s, wanted),
    }
}

// Turns until one ends.
fn run(book: &RuleBook, tokens: &[u32], list: &[u32], work: &mut [u32], start: Seek) -> bool
    requires { Stacked book.now.rules.now list.now start work.old × (start.token ≤ length tokens.now) }
    ensures { result ≡ still_of book.now.rules.now tokens.now list.now start work.old }
{
    let mut s = start;
    loop {
        match take_turn(book, tokens, list, work, s) {
            ControlFlow::Continue(q) => s = q,
            ControlFlow::Break(b) => return b,
        }
    }
}

// Whether the list is one well typed tree of typecode `goal` that spells the tokens: once over both, from their ends.
pub fn check(
    book: &RuleBook,
    goal: words::SymbolNo,
    tokens: &[u32],
    list: &[u32],
    work: &mut [u32],
) -> bool
    requires { length list.now ≤ length work.old }
    ensures { result ≡ check (the_rules book.now.rules.now) goal.0 tokens.now list.now }
{
    let start = Seek {
        depth: 0,
        token: tokens.len(),
        entry: list.len(),
    };
    match fill(book, list, work, start, goal) {
        ControlFlow::Continue(s) => run(book, tokens, list, work, s),
        ControlFlow::Break(b) => b,
    }
}
