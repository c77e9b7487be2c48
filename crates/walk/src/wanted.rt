// What is wanted, and conversions to it at the end.
ghost use Rattle.std.specs.Prelude.{◌≡◌, true, length};
ghost use Rattle.rules.specs.Rules.{the_rules, rule_of};
ghost use Rattle.rules.specs.Code.{a_rule};
ghost use Rattle.walk.specs.Code.{stack, wish_of, Wants, Converts, Chooses};

use super::{Choice, Grammar, Wish, edge};

// What is wanted with these frames.
pub fn wish_of(goal: words::SymbolNo, frames: &[u32]) -> Wish
    ensures { result ≡ wish_of goal.0 (stack (length frames.now) frames.now) }
{
    match frames.last() {
        Some(top) => Wish::Frame(words::NodeNo(*top)),
        None => Wish::Goal(goal),
    }
}

fn wanted(g: &Grammar, wish: Wish, t: words::SymbolNo) -> bool
    ensures { Wants g.now.edges.now wish t.0 result }
{
    match wish {
        Wish::Goal(goal) => t == goal,
        Wish::Frame(top) => rows::row_of(g.edges, g.firsts, edge::slot_key(top, t)).is_some(),
    }
}

// Whether the rule that stands first is a conversion from `t` to a wanted typecode.
fn converts(s: &[u32], g: &Grammar, wish: Wish, t: words::SymbolNo) -> bool
    requires { a_rule s.now ≡ true }
    ensures { Converts g.now.edges.now wish (rule_of s.now) t.0 result }
{
    rules::conversion_of(s) == Some(t) && wanted(g, wish, rules::result_of(s))
}

// The first conversion in rule order from `t` to a wanted typecode.
pub fn conversion(g: &Grammar, wish: Wish, t: words::SymbolNo) -> Option<Choice>
    ensures { Chooses g.now.edges.now wish (the_rules g.now.book.rules.now) t.0 result }
{
    for (no, rule) in rules::each(g.book.rules) {
        if converts(rule, g, wish, t) {
            return Some(Choice {
                rule: no,
                to: rules::result_of(rule),
            });
        }
    }
    None
}
