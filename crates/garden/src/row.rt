// One row of a clone. On a row 16, 15, 14, 12, 13.
ghost use Rattle.std.specs.Prelude.{◌≡◌, List, ℕ, ◌≤◌, ◌<◌, length};
ghost use Rattle.std.proofs.Math.Option.{none};
ghost use Rattle.words.specs.Limits.{most_edges};
ghost use Rattle.rows.specs.Rows.{find};
ghost use Rattle.rows.specs.Code.{reduces_are, edge_is};
ghost use Rattle.tree.specs.Code.{room_of, grown_of, edges_in, Rowed, Stands, Rows, Meets};
ghost use Rattle.tree.specs.declared.Room as lent;
ghost use Rattle.garden.specs.Garden.{take_leaf, add_branch, new_branch, old_branch, take_branch, take_up};
ghost use Rattle.garden.specs.Code.{Keeps, Takes, TakesKeeping};

use crate::{copy, lists};

// A clone: from the node that is cloned to the node that it is cloned to, with the stored list.
#[derive(Clone, Copy)]
pub struct Cloning {
    pub from: words::NodeNo,
    pub to: words::NodeNo,
    pub stored: rows::Reduces,
}

// What comes of a row: the counts, and the clone that has to begin, if any.
#[derive(Clone, Copy)]
pub struct Taken {
    pub counts: tree::Counts,
    pub next: Option<Cloning>,
}

// A row that leads to a leaf: node `clone.to` gets a row to node `t` or, where it has the key, that row's end gets the rows of node `t`.
fn take_leaf(
    room: tree::Room,
    c: tree::Counts,
    t: words::NodeNo,
    clone: Cloning,
    e: rows::Edge,
    nodes: &[u32],
    edges: &mut [u32],
) -> Result<tree::Counts, tree::Fault>
    requires { Rowed room c edges.old × (room.edges ≤ most_edges) × (c.nodes ≤ length nodes.now) × (t.0 < c.nodes) × (e.to.0 < c.nodes) }
    ensures { Rows room c
        (take_leaf (room_of room) t.0 clone.to.0 (reduces_are clone.stored) (grown_of c nodes.now edges.old) (edge_is e)
        (find (edges_in c.edges edges.old) clone.to.0 e.key.kind e.key.symbol.0))
        result nodes.now edges.new
        × Keeps c edges.old result edges.new }
{
    let rule = words::RuleNo(nodes[e.to.0 as usize]);
    let listed = lists::leaf_reduces(e, clone.stored, rule);
    let key = rows::Key {
        from: clone.to,
        ..e.key
    };
    let Some(row) = tree::table::look(c, key, edges) else {
        let reduces = listed?;
        return copy::put_row(
            room,
            c,
            rows::Edge {
                key,
                to: t,
                reduces,
            },
            edges,
        );
    };
    let z = rows::end_of(edges, row);
    if !tree::convert::apart(nodes, t, z) {
        return Err(tree::Fault::BadCopy);
    }
    copy::clone_with_reduce_vec(room, c, t, z, listed?, edges)
}

// ---- a row that leads to a branch

// A branch more, and the row's edge to it from node `m`, with a new key: 12, then 13.
fn add_branch(
    room: tree::Room,
    c: tree::Counts,
    m: words::NodeNo,
    e: rows::Edge,
    nodes: &mut [u32],
    edges: &mut [u32],
) -> Result<tree::Counts, tree::Fault>
    requires { Stands room c nodes.old edges.old × (room.edges ≤ most_edges)
        × (find (edges_in c.edges edges.old) m.0 e.key.kind e.key.symbol.0 ≡ none) }
    ensures { Meets room (add_branch (room_of room) (grown_of c nodes.old edges.old) m.0 (edge_is e))
        result nodes.new edges.new
        × Keeps c edges.old result edges.new }
{
    let n = c.nodes;
    if room.nodes <= n {
        return Err(tree::Fault::NoNode);
    }
    nodes[n] = 0;
    let row = rows::Edge {
        key: rows::Key { from: m, ..e.key },
        to: words::NodeNo(n as u32),
        ..e
    };
    let grown = tree::Counts { nodes: n + 1, ..c };
    copy::put_row(room, grown, row, edges)
}

// The row's end is cloned to a new branch, which node `m` gets a row to.
fn new_branch(
    room: tree::Room,
    c: tree::Counts,
    m: words::NodeNo,
    e: rows::Edge,
    stored: rows::Reduces,
    nodes: &mut [u32],
    edges: &mut [u32],
) -> Result<Taken, tree::Fault>
    requires { Stands room c nodes.old edges.old × (room.edges ≤ most_edges)
        × (find (edges_in c.edges edges.old) m.0 e.key.kind e.key.symbol.0 ≡ none) }
    ensures { Takes room (new_branch (room_of room) m.0 (reduces_are stored) (grown_of c nodes.old edges.old) (edge_is e))
        result nodes.new edges.new
        × TakesKeeping c edges.old result edges.new }
{
    let counts = add_branch(room, c, m, e, nodes, edges)?;
    let next = Cloning {
        from: e.to,
        to: words::NodeNo(c.nodes as u32),
        stored,
    };
    Ok(Taken {
        counts,
        next: Some(next),
    })
}

// The row's end is cloned to the end of the edge `d` that is there. Other reduces than that one's are stored.
fn old_branch(
    c: tree::Counts,
    e: rows::Edge,
    stored: rows::Reduces,
    d: rows::Edge,
) -> Result<Taken, tree::Fault>
    requires { d.to.0 < c.nodes }
    ensures { (z : lent.Room) (ns es : List ℕ) → Stands z c ns es
        → Takes z (old_branch (reduces_are stored) (grown_of c ns es) (edge_is e) (edge_is d)) result ns es × TakesKeeping c es result es }
{
    let stored = lists::store_other(stored, e, d)?;
    let next = Cloning {
        from: e.to,
        to: d.to,
        stored,
    };
    Ok(Taken {
        counts: c,
        next: Some(next),
    })
}

fn take_branch(
    room: tree::Room,
    c: tree::Counts,
    clone: Cloning,
    e: rows::Edge,
    nodes: &mut [u32],
    edges: &mut [u32],
) -> Result<Taken, tree::Fault>
    requires { Stands room c nodes.old edges.old × (room.edges ≤ most_edges) }
    ensures { Takes room
        (take_branch (room_of room) clone.to.0 (reduces_are clone.stored) (grown_of c nodes.old edges.old) (edge_is e)
        (find (edges_in c.edges edges.old) clone.to.0 e.key.kind e.key.symbol.0))
        result nodes.new edges.new
        × TakesKeeping c edges.old result edges.new }
{
    let m = clone.to;
    let raised = lists::raised_on(e.key.kind, clone.stored)?;
    let key = rows::Key { from: m, ..e.key };
    let Some(row) = tree::table::look(c, key, edges) else {
        return new_branch(room, c, m, e, raised, nodes, edges);
    };
    let d = rows::read_row(edges, row);
    old_branch(c, e, raised, d)
}

// ---- any row

// A row that leads to the node that is cloned to is skipped; that node must be a branch, and another one than the node that is cloned.
pub fn take_up(
    room: tree::Room,
    c: tree::Counts,
    t: words::NodeNo,
    clone: Cloning,
    e: rows::Edge,
    nodes: &mut [u32],
    edges: &mut [u32],
) -> Result<Taken, tree::Fault>
    requires { Stands room c nodes.old edges.old × (room.edges ≤ most_edges) × (t.0 < c.nodes) × (clone.to.0 < c.nodes) × (e.to.0 < c.nodes) }
    ensures { Takes room
        (take_up (room_of room) t.0 clone.to.0 (reduces_are clone.stored) (grown_of c nodes.old edges.old) (edge_is e))
        result nodes.new edges.new
        × TakesKeeping c edges.old result edges.new }
{
    let x = clone.to;
    let y = e.to;
    if y == x {
        return Ok(Taken {
            counts: c,
            next: None,
        });
    }
    if e.key.from == x {
        return Err(tree::Fault::BadCopy);
    }
    if !tree::table::branch_at(nodes, x) {
        return Err(tree::Fault::BadCopy);
    }
    if tree::table::branch_at(nodes, y) {
        return take_branch(room, c, clone, e, nodes, edges);
    }
    let counts = take_leaf(room, c, t, clone, e, nodes, edges)?;
    Ok(Taken { counts, next: None })
}
