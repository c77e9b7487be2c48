// The nodes and edges so far: read, looked up, and added.
ghost use Rattle.std.specs.Prelude.{◌≡◌, List, ℕ, ◌≤◌, ◌<◌, eqb, length, get_or};
ghost use Rattle.std.proofs.Math.Option.{none};
ghost use Rattle.words.specs.Limits.{most_nodes};
ghost use Rattle.rows.specs.Rows.{find, leaving};
ghost use Rattle.rows.specs.Code.{edge_is, place_of};
ghost use Rattle.tree.specs.Grow.{add_edge, add_node};
ghost use Rattle.tree.specs.Code.{room_of, edges_in, grown_of, Rising, Looks, Rowed, Stands, Rows, Puts, Meets};

use super::{Counts, Fault, Room};

// Whether a node is a branch.
pub fn branch_at(nodes: &[u32], n: words::NodeNo) -> bool
    requires { n.0 < length nodes.now }
    ensures { result ≡ eqb (get_or nodes.now n.0 0) 0 }
{
    let at = n.0 as usize;
    nodes[at] == 0
}

// The row of the edge with this key, among those so far.
pub fn look(c: Counts, key: rows::Key, edges: &[u32]) -> Option<usize>
    requires { Rising c edges.now }
    ensures { Looks c edges.now key.from.0 key.kind key.symbol.0 result }
{
    let end = words::ROW_WIDTH * c.edges;
    rows::look_up(&edges[0..end], key)
}

// Where the row with this key stands among those so far, or would stand.
pub fn place_of(c: Counts, key: rows::Key, edges: &[u32]) -> usize
    requires { Rising c edges.now }
    ensures { result ≡ place_of key.from.0 key.kind key.symbol.0 (edges_in c.edges edges.now) }
{
    let end = words::ROW_WIDTH * c.edges;
    rows::place_of(&edges[0..end], key)
}

// The first row of this node, or where it would stand. No key is lower than kind 0 and symbol 0.
pub fn first_row(c: Counts, n: words::NodeNo, edges: &[u32]) -> usize
    requires { Rising c edges.now }
    ensures { result ≡ place_of n.0 0 0 (edges_in c.edges edges.now) }
{
    place_of(c, rows::Key::lowest(n, 0), edges)
}

// How many rows leave this node: they stand together.
pub fn rows_of(c: Counts, n: words::NodeNo, edges: &[u32]) -> usize
    requires { Rising c edges.now × (n.0 < most_nodes) }
    ensures { result ≡ length (leaving n.0 (edges_in c.edges edges.now)) }
{
    let first = first_row(c, n, edges);
    first_row(c, words::NodeNo(n.0 + 1), edges) - first
}

// An edge with a new key, at its place: 13 where there is no room for it.
pub fn add_edge(room: Room, c: Counts, e: rows::Edge, edges: &mut [u32]) -> Result<Counts, Fault>
    requires { Rowed room c edges.old × (e.to.0 < c.nodes)
        × (find (edges_in c.edges edges.old) e.key.from.0 e.key.kind e.key.symbol.0 ≡ none) }
    ensures { ((ns : List ℕ) → Rows room c (add_edge (room_of room) (grown_of c ns edges.old) (edge_is e)) result ns edges.new)
        × Puts c (edge_is e) edges.old result edges.new }
{
    let n = c.edges;
    if room.edges <= n {
        return Err(Fault::NoEdge);
    }
    let row = place_of(c, e.key, edges);
    rows::insert_edge(edges, row, n, e);
    Ok(Counts { edges: n + 1, ..c })
}

// A node more, the leaf of this rule or, where that is 0, a branch, and an edge to it with this key, which is new: 12, then 13.
pub fn add_node(
    room: Room,
    c: Counts,
    key: rows::Key,
    rule: words::RuleNo,
    nodes: &mut [u32],
    edges: &mut [u32],
) -> Result<Counts, Fault>
    requires { Stands room c nodes.old edges.old × (find (edges_in c.edges edges.old) key.from.0 key.kind key.symbol.0 ≡ none) }
    ensures { Meets room (add_node (room_of room) (grown_of c nodes.old edges.old) key.from.0 key.kind key.symbol.0 rule.0)
        result nodes.new edges.new }
{
    let n = c.nodes;
    if room.nodes <= n {
        return Err(Fault::NoNode);
    }
    nodes[n] = rule.0;
    let e = rows::Edge {
        key,
        to: words::NodeNo(n as u32),
        reduces: rows::Reduces::none(),
    };
    let grown = Counts { nodes: n + 1, ..c };
    add_edge(room, grown, e, edges)
}
