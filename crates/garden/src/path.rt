// `handle_common_prefixes`. A path's lists are words: a pair is its kind and its symbol.
ghost use Rattle.std.specs.Prelude.{◌≡◌, true, List, [], ℕ, ◌≤◌, ◌<◌, length};
ghost use Rattle.words.specs.Limits.{most_edges};
ghost use Rattle.rows.specs.Code.{edge_is};
ghost use Rattle.tree.specs.Grow.{branch_at};
ghost use Rattle.tree.specs.Code.{room_of, grown_of, Rowed, Stands, Rows, Meets};
ghost use Rattle.garden.specs.Garden.{good_pairs, pairs_of, edge_for, part_at, leads_to, of_kind, move_on, along_pair, along, graft_leaf, graft, graft_at, handle_common_prefixes};
ghost use Rattle.garden.specs.Code.{pair_is, FirstPair, reached_of, ReachedIn, parted_of, PartedIn, places_of, Placed, Along, bounds_of};

use crate::row::Cloning;
use crate::{clones, copy, lists};

// A pair of a path's lists. Its kind is a word, as in the key of the row that it is looked up by.
#[derive(Clone, Copy, PartialEq, Eq)]
pub struct Pair {
    pub kind: u32,
    pub symbol: words::SymbolNo,
}

// Where the two lists part: the node there, what is left of the prefix, and the shadow's pair.
#[derive(Clone, Copy)]
pub struct Parting<'a> {
    pub node: words::NodeNo,
    pub rest: &'a [u32],
    pub shadow: Pair,
}

// The pair that stands first, and the words after it.
fn first_pair(list: &[u32]) -> Option<(Pair, &[u32])>
    ensures { FirstPair list.now result }
{
    let [kind, symbol, after @ ..] = list else {
        return None;
    };
    let pair = Pair {
        kind: *kind,
        symbol: words::SymbolNo(*symbol),
    };
    Some((pair, after))
}

// The node that the edge for a pair leads to, which has to be of this kind.
fn follow(
    room: tree::Room,
    c: tree::Counts,
    n: words::NodeNo,
    kind: u32,
    pair: Pair,
    edges: &[u32],
) -> Option<words::NodeNo>
    requires { Rowed room c edges.now }
    ensures { ReachedIn c result × ((ns : List ℕ) → reached_of result
        ≡ of_kind kind (pair_is pair) (leads_to (edge_for (grown_of c ns edges.now) n.0 (pair_is pair)))) }
{
    if pair.kind != kind {
        return None;
    }
    let key = rows::Key {
        from: n,
        kind: pair.kind,
        symbol: pair.symbol,
    };
    let row = tree::table::look(c, key, edges)?;
    Some(rows::end_of(edges, row))
}

// From node 0 along the common part, which is constants alone, to where the two lists part.
fn part_at<'a>(
    room: tree::Room,
    c: tree::Counts,
    prefix: &'a [u32],
    shadow: &[u32],
    edges: &[u32],
) -> Option<Parting<'a>>
    requires { Rowed room c edges.now × (0 < c.nodes) × (good_pairs prefix.now ≡ true) }
    ensures { PartedIn c result × ((ns : List ℕ) → parted_of result
        ≡ part_at (grown_of c ns edges.now) 0 (pairs_of prefix.now) (pairs_of shadow.now)) }
{
    let mut node = words::NodeNo(0);
    let mut ps = prefix;
    let mut qs = shadow;
    while let Some((p, ps_after)) = first_pair(ps) {
        let (q, qs_after) = first_pair(qs)?;
        if p != q {
            return Some(Parting {
                node,
                rest: ps,
                shadow: q,
            });
        }
        node = follow(room, c, node, 0, p, edges)?;
        ps = ps_after;
        qs = qs_after;
    }
    None
}

// ---- the two places

// Where the prefix is, from the node where the two lists part and from node 0, and the reduces that the second place lacks.
#[derive(Clone, Copy)]
pub struct Places {
    pub first: words::NodeNo,
    pub second: words::NodeNo,
    pub stored: rows::Reduces,
}

// Both places move on along their edges: 16, 15, 14.
fn move_on(
    c: tree::Counts,
    kind: u32,
    s: Places,
    e: rows::Edge,
    f: rows::Edge,
) -> Result<Places, tree::Fault>
    requires { (e.to.0 < c.nodes) × (f.to.0 < c.nodes) }
    ensures { Along c (move_on kind (places_of s) (edge_is e) (edge_is f)) result }
{
    let missing = lists::diff_extend(f.reduces, e.reduces)?;
    let raised = lists::raised_on(kind, s.stored)?;
    let stored = lists::extend(raised, missing)?;
    Ok(Places {
        first: e.to,
        second: f.to,
        stored,
    })
}

// One pair of the prefix.
fn along_pair(
    room: tree::Room,
    c: tree::Counts,
    s: Places,
    pair: Pair,
    edges: &[u32],
) -> Result<Places, tree::Fault>
    requires { Rowed room c edges.now }
    ensures { (ns : List ℕ) → Along c (along_pair (grown_of c ns edges.now) (places_of s) (pair_is pair)) result }
{
    let first = rows::Key {
        from: s.first,
        kind: pair.kind,
        symbol: pair.symbol,
    };
    let second = rows::Key {
        from: s.second,
        ..first
    };
    let Some(i) = tree::table::look(c, first, edges) else {
        return Err(tree::Fault::BadCopy);
    };
    let Some(j) = tree::table::look(c, second, edges) else {
        return Err(tree::Fault::BadCopy);
    };
    let e = rows::read_row(edges, i);
    let f = rows::read_row(edges, j);
    move_on(c, pair.kind, s, e, f)
}

// The rest of the prefix, from the node where the two lists part and from node 0.
fn along(
    room: tree::Room,
    c: tree::Counts,
    n: words::NodeNo,
    rest: &[u32],
    edges: &[u32],
) -> Result<Places, tree::Fault>
    requires { Rowed room c edges.now × (n.0 < c.nodes) × (good_pairs rest.now ≡ true) }
    ensures { (ns : List ℕ) → Along c
        (along (grown_of c ns edges.now) (record { first = n.0; second = 0; stored = [] }) (pairs_of rest.now)) result }
{
    let mut s = Places {
        first: n,
        second: words::NodeNo(0),
        stored: rows::Reduces::none(),
    };
    let mut left = rest;
    while let Some((pair, after)) = first_pair(left) {
        s = along_pair(room, c, s, pair, edges)?;
        left = after;
    }
    Ok(s)
}

// ---- the copy

// The second place is a leaf: the shadow's rows are copied to the first one.
fn graft_leaf(
    room: tree::Room,
    c: tree::Counts,
    t: words::NodeNo,
    s: Places,
    nodes: &[u32],
    edges: &mut [u32],
) -> Result<tree::Counts, tree::Fault>
    requires { Rowed room c edges.old × (room.edges ≤ most_edges) × (c.nodes ≤ length nodes.now) × (t.0 < c.nodes) × Placed c s }
    ensures { Rows room c (graft_leaf (room_of room) t.0 (places_of s) (grown_of c nodes.now edges.old))
        result nodes.now edges.new }
{
    if !tree::convert::apart(nodes, t, s.first) {
        return Err(tree::Fault::BadCopy);
    }
    let rule = words::RuleNo(nodes[s.second.0 as usize]);
    let list = lists::push(s.stored, rows::Reduce { rule, offset: 0 })?;
    copy::clone_with_reduce_vec(room, c, t, s.first, list, edges)
}

fn graft(
    room: tree::Room,
    c: tree::Counts,
    t: words::NodeNo,
    s: Places,
    nodes: &mut [u32],
    edges: &mut [u32],
    frames: &mut [u32],
) -> Result<tree::Counts, tree::Fault>
    requires { Stands room c nodes.old edges.old × (room.edges ≤ most_edges) × (t.0 < c.nodes) × Placed c s }
    ensures { Meets room (graft (bounds_of room (length frames.old)) t.0 (places_of s) (grown_of c nodes.old edges.old)
        (branch_at (grown_of c nodes.old edges.old) s.second.0))
        result nodes.new edges.new }
{
    if tree::table::branch_at(nodes, s.second) {
        let clone = Cloning {
            from: s.second,
            to: s.first,
            stored: s.stored,
        };
        return clones::clone_branches(room, c, t, clone, nodes, edges, frames);
    }
    graft_leaf(room, c, t, s, nodes, edges)
}

// From where the two lists part: the shadow's node is there, and the prefix is walked to its end.
fn graft_at(
    room: tree::Room,
    c: tree::Counts,
    n: words::NodeNo,
    t: words::NodeNo,
    rest: &[u32],
    nodes: &mut [u32],
    edges: &mut [u32],
    frames: &mut [u32],
) -> Result<tree::Counts, tree::Fault>
    requires { Stands room c nodes.old edges.old × (room.edges ≤ most_edges) × (n.0 < c.nodes) × (t.0 < c.nodes) × (good_pairs rest.now ≡ true) }
    ensures { Meets room
        (graft_at (bounds_of room (length frames.old)) n.0 t.0 (pairs_of rest.now) (grown_of c nodes.old edges.old))
        result nodes.new edges.new }
{
    let s = along(room, c, n, rest, edges)?;
    graft(room, c, t, s, nodes, edges, frames)
}

pub fn handle_common_prefixes(
    room: tree::Room,
    c: tree::Counts,
    prefix: &[u32],
    shadow: &[u32],
    nodes: &mut [u32],
    edges: &mut [u32],
    frames: &mut [u32],
) -> Result<tree::Counts, tree::Fault>
    requires { Stands room c nodes.old edges.old × (room.edges ≤ most_edges) × (good_pairs prefix.now ≡ true) × (good_pairs shadow.now ≡ true) }
    ensures { Meets room
        (handle_common_prefixes (bounds_of room (length frames.old)) (pairs_of prefix.now) (pairs_of shadow.now)
        (grown_of c nodes.old edges.old))
        result nodes.new edges.new }
{
    let Some(parting) = part_at(room, c, prefix, shadow, edges) else {
        return Err(tree::Fault::BadCopy);
    };
    let n = parting.node;
    let Some(t) = follow(room, c, n, 1, parting.shadow, edges) else {
        return Err(tree::Fault::BadCopy);
    };
    graft_at(room, c, n, t, parting.rest, nodes, edges, frames)
}
