// One pass of the walk, and the passes under an allowance.
ghost use Rattle.std.specs.Prelude.{◌≡◌, ◌≤◌, length, get_or, drop};
ghost use Rattle.words.specs.Limits.{most_tokens};
ghost use Rattle.walk.specs.Walk.{pass, run, start};
ghost use Rattle.walk.specs.Code.{Stood, Ready, node_is, Passes, start_at, Lent, room_of, tables, answer_of, Answers};

use super::{At, Grammar, Halted, Held, ROOT, Stand, Step, Walked, Why, branch, leaf, wanted};
use words::Refusal;

// A leaf's rule. A node's word is 0 for a branch, else its rule.
fn leaf_rule(nodes: &[u32], node: words::NodeNo) -> Option<words::RuleNo>
    ensures { result ≡ node_is (get_or nodes.now node.0 0) }
{
    match nodes.get(node.0 as usize) {
        Some(&word) if word != 0 => Some(words::RuleNo(word)),
        _ => None,
    }
}

// One pass.
fn pass(
    g: &Grammar,
    tokens: &[u32],
    p: Stand,
    frames: &mut [u32],
    list: &mut [u32],
    work: &mut [u32],
) -> Result<Step, Why>
    requires { Ready tokens.now p list.old work.old × Stood p tokens.now frames.old }
    ensures { Passes g.now.book.rules.now g.now.nodes.now g.now.edges.now p.goal.0 tokens.now p.room p.at
        frames.old list.old work.old result frames.new list.new work.new }
{
    match leaf_rule(g.nodes, p.at.node) {
        None => branch::branch(g, tokens, p, frames, list, work),
        Some(rule) => leaf::leaf(g, tokens, p, rule, list, work),
    }
}

// A walk starts at node 0, with its typecode taken.
fn start() -> At
    ensures { result ≡ start_at }
{
    At {
        node: ROOT,
        frames: 0,
        trees: formula::Trees { count: 0, len: 0 },
        token: 1,
        last: 0,
    }
}

// Passes until one ends the walk, or the allowance is used up.
pub fn run(
    g: &Grammar,
    tokens: &[u32],
    h: Held,
    frames: &mut [u32],
    list: &mut [u32],
    work: &mut [u32],
) -> Result<Walked, Halted>
    requires { (1 ≤ length tokens.now) × (length tokens.now ≤ most_tokens) × Lent h.room (length list.old) (length work.old) }
    ensures { Answers (answer_of result) list.new (run (pass (tables g.now.book.rules.now g.now.nodes.now g.now.edges.now) h.goal.0 (drop 1 tokens.now))
        h.allowance (room_of h.room frames.old) 0 (start (drop 1 tokens.now))) }
{
    let mut s = start();
    for n in 0..h.allowance {
        let p = Stand {
            goal: h.goal,
            wish: wanted::wish_of(h.goal, &frames[..s.frames]),
            room: h.room,
            at: s,
        };
        match pass(g, tokens, p, frames, list, work) {
            Ok(Step::On(q)) => s = q,
            Ok(Step::End(length)) => {
                return Ok(Walked {
                    length: length as u32,
                    passes: n + 1,
                });
            }
            Err(y) => return Err(y.halted(n + 1)),
        }
    }
    Err(Halted {
        why: Refusal::NoPass,
        place: 0,
        passes: h.allowance,
    })
}
