// The rows of a node that stood when a copy began, and `clone_with_reduce_vec`. A row's last word is its age while the tree grows: how many
// rows there were when it was put in.
ghost use Rattle.std.specs.Prelude.{◌≡◌, List, ℕ, ◌/◌, ◌≤◌, ◌<◌, ltb, length, get_or};
ghost use Rattle.std.proofs.Math.Option.{none};
ghost use Rattle.words.specs.Limits.{most_edges, row_width};
ghost use Rattle.rows.specs.Rows.{find};
ghost use Rattle.rows.specs.Code.{reduces_are, edge_is, row_at};
ghost use Rattle.tree.specs.Grow.{add_edge};
ghost use Rattle.tree.specs.Code.{room_of, grown_of, edges_in, Rising, Rowed, Rows};
ghost use Rattle.garden.specs.Garden.{copy_with, clone_with_reduce_vec};
ghost use Rattle.garden.specs.Code.{Nexts, Keeps};

use crate::lists;

// Whether a row was put in when there were fewer than `stood`.
fn stood_at(edges: &[u32], row: usize, stood: usize) -> bool
    requires { row < length edges.now / row_width }
    ensures { result ≡ ltb (get_or (row_at edges.now row) 15 0) stood }
{
    (edges[words::ROW_WIDTH * row + 15] as usize) < stood
}

// The node's next row among those that stood, after `place` of them. Its rows stand together.
pub fn next_row(
    c: tree::Counts,
    from: words::NodeNo,
    stood: usize,
    place: usize,
    edges: &[u32],
) -> Option<usize>
    requires { Rising c edges.now }
    ensures { Nexts c from.0 stood place edges.now result }
{
    let first = tree::table::first_row(c, from, edges);
    let mut left = place;
    for at in first..c.edges {
        if edges[words::ROW_WIDTH * at] != from.0 {
            return None;
        }
        if stood_at(edges, at, stood) {
            if left == 0 {
                return Some(at);
            }
            left -= 1;
        }
    }
    None
}

// A row with a new key, and its age: 13 where there is no room for it.
pub fn put_row(
    room: tree::Room,
    c: tree::Counts,
    e: rows::Edge,
    edges: &mut [u32],
) -> Result<tree::Counts, tree::Fault>
    requires { Rowed room c edges.old × (room.edges ≤ most_edges) × (e.to.0 < c.nodes)
        × (find (edges_in c.edges edges.old) e.key.from.0 e.key.kind e.key.symbol.0 ≡ none) }
    ensures { ((ns : List ℕ) → Rows room c (add_edge (room_of room) (grown_of c ns edges.old) (edge_is e)) result ns edges.new)
        × Keeps c edges.old result edges.new }
{
    let row = tree::table::place_of(c, e.key, edges);
    let age = c.edges as u32;
    let d = tree::table::add_edge(room, c, e, edges)?;
    edges[words::ROW_WIDTH * row + 15] = age;
    Ok(d)
}

// A row is copied to node `m` with a list behind its reduces, unless that has the key: 15, 14, 13.
fn copy_with(
    room: tree::Room,
    c: tree::Counts,
    m: words::NodeNo,
    list: rows::Reduces,
    e: rows::Edge,
    edges: &mut [u32],
) -> Result<tree::Counts, tree::Fault>
    requires { Rowed room c edges.old × (room.edges ≤ most_edges) × (e.to.0 < c.nodes) }
    ensures { ((ns : List ℕ) → Rows room c
        (copy_with (room_of room) m.0 (reduces_are list) (grown_of c ns edges.old) (edge_is e)
        (find (edges_in c.edges edges.old) m.0 e.key.kind e.key.symbol.0))
        result ns edges.new)
        × Keeps c edges.old result edges.new }
{
    let key = rows::Key { from: m, ..e.key };
    if tree::table::look(c, key, edges).is_some() {
        return Ok(c);
    }
    let more = lists::raised_on(key.kind, list)?;
    let reduces = lists::extend(e.reduces, more)?;
    put_row(room, c, rows::Edge { key, reduces, ..e }, edges)
}

// The rows of node `n` are copied to node `m` with a list behind their reduces.
pub fn clone_with_reduce_vec(
    room: tree::Room,
    start: tree::Counts,
    n: words::NodeNo,
    m: words::NodeNo,
    list: rows::Reduces,
    edges: &mut [u32],
) -> Result<tree::Counts, tree::Fault>
    requires { Rowed room start edges.old × (room.edges ≤ most_edges) }
    ensures { ((ns : List ℕ) → Rows room start
        (clone_with_reduce_vec (room_of room) n.0 m.0 (reduces_are list) (grown_of start ns edges.old))
        result ns edges.new)
        × Keeps start edges.old result edges.new }
{
    let stood = start.edges;
    let mut c = start;
    for place in 0..stood {
        let Some(at) = next_row(c, n, stood, place, edges) else {
            return Ok(c);
        };
        let e = rows::read_row(edges, at);
        c = copy_with(room, c, m, list, e, edges)?;
    }
    Ok(c)
}
