// A pass at a leaf, and the end of a walk.
ghost use Rattle.std.specs.Prelude.{◌≤◌, length};
ghost use Rattle.walk.specs.Code.{choice_of, Lies, Finishes, Bare, Ready, Converted, Closes, Unwanted, Completes, Leaves};

use super::edge::{root_step, slot_key, step};
use super::{Choice, Grammar, Stand, Step, Why, Wish, edge, wanted};

// One tree must be left, and it must pass the check.
fn finish(
    g: &Grammar,
    tokens: &[u32],
    p: Stand,
    list: &[u32],
    work: &mut [u32],
) -> Result<Step, Why>
    requires { (1 ≤ length tokens.now) × Lies p.at.trees list.now work.old }
    ensures { Finishes g.now.book.rules.now p.goal.0 tokens.now p.at.trees list.now work.old
        result work.new }
{
    if p.at.trees.count != 1 {
        return Err(Why::Misfit);
    }
    let n = p.at.trees.len;
    if !formula::check(&g.book, p.goal, &tokens[1..], &list[0..n], work) {
        return Err(Why::Misfit);
    }
    Ok(Step::End(n))
}

// A conversion to `t` is reduced: without a frame the walk finishes; else the top one is popped and its edge for `t` followed.
fn converted(
    g: &Grammar,
    tokens: &[u32],
    p: Stand,
    t: words::SymbolNo,
    list: &mut [u32],
    work: &mut [u32],
) -> Result<Step, Why>
    requires { Ready tokens.now p list.old work.old }
    ensures { Converted g.now.book.rules.now g.now.edges.now tokens.now p list.old work.old
        result list.new work.new t.0 }
{
    match p.wish {
        Wish::Goal(_) => finish(g, tokens, p, list, work),
        Wish::Frame(top) => step(g, top, t, p.popped(), list, work),
    }
}

// The conversion is reduced.
fn convert(
    g: &Grammar,
    tokens: &[u32],
    p: Stand,
    k: Choice,
    list: &mut [u32],
    work: &mut [u32],
) -> Result<Step, Why>
    requires { Ready tokens.now p list.old work.old }
    ensures { Closes g.now.book.rules.now g.now.edges.now tokens.now p list.old work.old
        result list.new work.new (choice_of k) }
{
    let trees = formula::reduce(&g.book, p.room, list, work, p.at.trees, k.rule, 0)?;
    converted(g, tokens, p.with_trees(trees), k.to, list, work)
}

// The tree is not wanted. Where no token is left a conversion to a wanted typecode is reduced; otherwise the root step.
fn unwanted(
    g: &Grammar,
    tokens: &[u32],
    p: Stand,
    t: words::SymbolNo,
    list: &mut [u32],
    work: &mut [u32],
) -> Result<Step, Why>
    requires { Ready tokens.now p list.old work.old }
    ensures { Unwanted g.now.book.rules.now g.now.edges.now tokens.now p list.old work.old
        result list.new work.new t.0 }
{
    if p.at.token < tokens.len() {
        let stepped = root_step(g, t, p, list, work);
        return stepped;
    }
    match wanted::conversion(g, p.wish, t) {
        Some(k) => convert(g, tokens, p, k, list, work),
        None => {
            let stepped = root_step(g, t, p, list, work);
            stepped
        }
    }
}

// Without a frame: the goal is wanted, and finishes the walk where no token is left.
fn at_bottom(
    g: &Grammar,
    tokens: &[u32],
    p: Stand,
    t: words::SymbolNo,
    list: &mut [u32],
    work: &mut [u32],
) -> Result<Step, Why>
    requires { Ready tokens.now p list.old work.old × Bare p.wish }
    ensures { Completes g.now.book.rules.now g.now.edges.now tokens.now p list.old work.old
        result list.new work.new t.0 }
{
    if t != p.goal {
        let closed = unwanted(g, tokens, p, t, list, work);
        return closed;
    }
    if tokens.len() <= p.at.token {
        return finish(g, tokens, p, list, work);
    }
    let stepped = root_step(g, t, p, list, work);
    stepped
}

// Wanted by a frame, it is popped and its edge followed.
fn complete(
    g: &Grammar,
    tokens: &[u32],
    p: Stand,
    t: words::SymbolNo,
    list: &mut [u32],
    work: &mut [u32],
) -> Result<Step, Why>
    requires { Ready tokens.now p list.old work.old }
    ensures { Completes g.now.book.rules.now g.now.edges.now tokens.now p list.old work.old
        result list.new work.new t.0 }
{
    let Wish::Frame(top) = p.wish else {
        let completed = at_bottom(g, tokens, p, t, list, work);
        return completed;
    };
    let Some(row) = rows::row_of(g.edges, g.firsts, slot_key(top, t)) else {
        let closed = unwanted(g, tokens, p, t, list, work);
        return closed;
    };
    edge::follow(g, row, p.popped(), list, work)
}

// The leaf's rule is reduced.
pub fn leaf(
    g: &Grammar,
    tokens: &[u32],
    p: Stand,
    rule: words::RuleNo,
    list: &mut [u32],
    work: &mut [u32],
) -> Result<Step, Why>
    requires { Ready tokens.now p list.old work.old }
    ensures { Leaves g.now.book.rules.now g.now.edges.now tokens.now p list.old work.old
        result list.new work.new rule.0 }
{
    let Some(i) = rules::find_rule(g.book.rules, g.book.starts, rule) else {
        return Err(Why::Misfit);
    };
    let t = rules::result_of(&g.book.rules[i..]);
    let trees = formula::reduce(&g.book, p.room, list, work, p.at.trees, rule, 0)?;
    complete(g, tokens, p.with_trees(trees), t, list, work)
}
