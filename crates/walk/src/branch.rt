// A pass at a branch.
ghost use Rattle.std.specs.Prelude.{◌≤◌};
ghost use Rattle.words.specs.Limits.{most_tokens};
ghost use Rattle.walk.specs.Code.{Opens, Branches, Stood, Ready};

use super::{At, Grammar, ROOT, Stand, Step, Why, edge};

// No constant edge: the node becomes a frame and the walk goes to node 0. Not so node 0 itself, or a node with no edges.
fn open_frame(g: &Grammar, s: At, frames: &mut [u32]) -> Result<Step, Why>
    requires { s.token ≤ most_tokens }
    ensures { Opens g.now.edges.now s frames.old result frames.new }
{
    let place = s.token as u32;
    if s.node == ROOT || !rows::leaves(g.edges, g.firsts, s.node) {
        return Err(Why::Unparseable(place));
    }
    let n = s.frames;
    if frames.len() <= n {
        return Err(Why::NoFrame);
    }
    frames[n] = s.node.0;
    Ok(Step::On(At {
        node: ROOT,
        frames: n + 1,
        last: place,
        ..s
    }))
}

// At a token, its constant edge is followed and the token taken.
pub fn branch(
    g: &Grammar,
    tokens: &[u32],
    p: Stand,
    frames: &mut [u32],
    list: &mut [u32],
    work: &mut [u32],
) -> Result<Step, Why>
    requires { Ready tokens.now p list.old work.old × Stood p tokens.now frames.old }
    ensures { Branches g.now.book.rules.now g.now.edges.now tokens.now p.room p.at
        frames.old list.old work.old result frames.new list.new work.new }
{
    let i = p.at.token;
    if tokens.len() <= i {
        return Err(Why::TooShort((i - 1) as u32));
    }
    let Some(row) = rows::constant_row(
        g.edges,
        g.firsts,
        g.roots,
        p.at.node,
        words::SymbolNo(tokens[i]),
    ) else {
        return open_frame(g, p.at, frames);
    };
    let at = At {
        token: i + 1,
        last: i as u32,
        ..p.at
    };
    edge::follow(g, row, Stand { at, ..p }, list, work)
}
