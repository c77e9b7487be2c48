// Conversions in rule order; for each, nodes in number order. 16, then for each new row 14, then 13.
ghost use Rattle.std.specs.Prelude.{◌≡◌, true, not, ◌&&◌, List, ◌≢◌, ℕ, ◌≤◌, ◌<◌, eqb, length, get_or};
ghost use Rattle.std.proofs.Math.Option.{none};
ghost use Rattle.words.specs.Limits.{most_nodes};
ghost use Rattle.rules.specs.Rules.{the_rules};
ghost use Rattle.rules.specs.Code.{a_rule, some_rules};
ghost use Rattle.rows.specs.Rows.{find, leaving};
ghost use Rattle.rows.specs.Code.{edge_is, Adds};
ghost use Rattle.tree.specs.Grow.{add_converted, offset_on, copy_branches, convert_to, convert_at, convert_nodes, convert_all};
ghost use Rattle.tree.specs.Code.{room_of, grown_of, edges_in, reduces_in, copy_of, convert_first, Rowed, Rows};

use super::{Counts, Fault, Room, table};

// A conversion: its rule, and the typecodes that it goes from and to.
#[derive(Clone, Copy)]
pub struct Change {
    pub rule: words::RuleNo,
    pub source: words::SymbolNo,
    pub result: words::SymbolNo,
}

// The edge `e` with one reduce more, from node `from` and with this symbol, a new key: 14 where there was no place for it, then 13.
fn add_converted(
    room: Room,
    c: Counts,
    from: words::NodeNo,
    symbol: words::SymbolNo,
    e: rows::Edge,
    reduces: Option<rows::Reduces>,
    edges: &mut [u32],
) -> Result<Counts, Fault>
    requires { Rowed room c edges.old × (e.to.0 < c.nodes) × (find (edges_in c.edges edges.old) from.0 e.key.kind symbol.0 ≡ none) }
    ensures { (ns : List ℕ) → Rows room c
        (add_converted (room_of room) (grown_of c ns edges.old) from.0 symbol.0 (edge_is e) (reduces_in reduces))
        result ns edges.new }
{
    let reduces = reduces.ok_or(Fault::SixthReduce)?;
    let key = rows::Key {
        from,
        symbol,
        ..e.key
    };
    table::add_edge(room, c, rows::Edge { key, reduces, ..e }, edges)
}

// The conversion before an edge's reduces: at offset 0 on a constant edge, 1 on a variable one.
fn with_conversion(e: rows::Edge, rule: words::RuleNo) -> Option<rows::Reduces>
    ensures { Adds e.reduces (record { rule = rule.0; offset = offset_on e.key.kind }) result }
{
    let first = rows::Reduce { rule, offset: 0 };
    let kind = e.key.kind;
    if kind == 0 {
        return e.reduces.with_reduce(first);
    }
    e.reduces.with_offset_reduce(first)
}

// An edge is copied to node `m`, unless that has the key.
fn copy_row(
    room: Room,
    c: Counts,
    rule: words::RuleNo,
    m: words::NodeNo,
    e: rows::Edge,
    edges: &mut [u32],
) -> Result<Counts, Fault>
    requires { Rowed room c edges.old × (e.to.0 < c.nodes) }
    ensures { (ns : List ℕ) → Rows room c (copy_of (room_of room) rule.0 m.0 (edge_is e) (grown_of c ns edges.old))
        result ns edges.new }
{
    let key = rows::Key { from: m, ..e.key };
    if table::look(c, key, edges).is_some() {
        return Ok(c);
    }
    let reduces = with_conversion(e, rule);
    add_converted(room, c, m, key.symbol, e, reduces, edges)
}

// The edges that node `n` has now are copied to node `m`, in key order. They stay together, while others may come to stand before them.
fn copy_branches(
    room: Room,
    start: Counts,
    rule: words::RuleNo,
    n: words::NodeNo,
    m: words::NodeNo,
    edges: &mut [u32],
) -> Result<Counts, Fault>
    requires { Rowed room start edges.old × (n.0 ≢ m.0) × (n.0 < most_nodes) }
    ensures { (ns : List ℕ) → Rows room start
        (copy_branches (room_of room) rule.0 m.0 (leaving n.0 (edges_in start.edges edges.old)) (grown_of start ns edges.old))
        result ns edges.new }
{
    let end = table::rows_of(start, n, edges);
    let mut c = start;
    for k in 0..end {
        let row = table::first_row(c, n, edges) + k;
        let e = rows::read_row(edges, row);
        c = copy_row(room, c, rule, m, e, edges)?;
    }
    Ok(c)
}

// Whether these are two different branches.
pub fn apart(nodes: &[u32], n: words::NodeNo, m: words::NodeNo) -> bool
    requires { (n.0 < length nodes.now) × (m.0 < length nodes.now) }
    ensures { result ≡ not (eqb n.0 m.0) && eqb (get_or nodes.now n.0 0) 0 && eqb (get_or nodes.now m.0 0) 0 }
{
    n != m && table::branch_at(nodes, n) && table::branch_at(nodes, m)
}

// At a node with the edge `e` for the conversion's result: an edge for its source, or the branches copied.
fn convert_to(
    room: Room,
    c: Counts,
    change: Change,
    n: words::NodeNo,
    e: rows::Edge,
    nodes: &[u32],
    edges: &mut [u32],
) -> Result<Counts, Fault>
    requires { Rowed room c edges.old × (c.nodes ≤ length nodes.now) × (e.to.0 < c.nodes)
        × (e.key.kind ≡ 1) × (c.nodes ≤ most_nodes) }
    ensures { Rows room c
        (convert_to (room_of room) change.rule.0 change.source.0 (grown_of c nodes.now edges.old) n.0 (edge_is e)
        (find (edges_in c.edges edges.old) n.0 1 change.source.0))
        result nodes.now edges.new }
{
    let rule = change.rule;
    let source = change.source;
    let key = rows::Key {
        from: n,
        kind: 1,
        symbol: source,
    };
    let Some(row) = table::look(c, key, edges) else {
        let reduces = e.reduces.with_reduce(rows::Reduce { rule, offset: 0 });
        return add_converted(room, c, n, source, e, reduces, edges);
    };
    let from = e.to;
    let to = rows::end_of(edges, row);
    if !apart(nodes, from, to) {
        return Err(Fault::BadCopy);
    }
    copy_branches(room, c, rule, from, to, edges)
}

// At any node.
fn convert_at(
    room: Room,
    c: Counts,
    change: Change,
    n: words::NodeNo,
    nodes: &[u32],
    edges: &mut [u32],
) -> Result<Counts, Fault>
    requires { Rowed room c edges.old × (c.nodes ≤ length nodes.now) × (c.nodes ≤ most_nodes) }
    ensures { Rows room c
        (convert_at (room_of room) change.rule.0 change.source.0 (grown_of c nodes.now edges.old) n.0
        (find (edges_in c.edges edges.old) n.0 1 change.result.0))
        result nodes.now edges.new }
{
    let key = rows::Key {
        from: n,
        kind: 1,
        symbol: change.result,
    };
    let Some(row) = table::look(c, key, edges) else {
        return Ok(c);
    };
    let e = rows::read_row(edges, row);
    convert_to(room, c, change, n, e, nodes, edges)
}

// At every node, in number order.
fn convert_nodes(
    room: Room,
    start: Counts,
    change: Change,
    nodes: &[u32],
    edges: &mut [u32],
) -> Result<Counts, Fault>
    requires { Rowed room start edges.old × (start.nodes ≤ length nodes.now) × (start.nodes ≤ most_nodes) }
    ensures { Rows room start
        (convert_nodes (room_of room) change.rule.0 change.result.0 change.source.0 start.nodes 0
        (grown_of start nodes.now edges.old))
        result nodes.now edges.new }
{
    let mut c = start;
    for n in 0..start.nodes {
        c = convert_at(room, c, change, words::NodeNo(n as u32), nodes, edges)?;
    }
    Ok(c)
}

// The rule that stands first in a slice is carried out, if it is a conversion.
fn convert_rule(
    room: Room,
    c: Counts,
    no: words::RuleNo,
    rule: &[u32],
    nodes: &[u32],
    edges: &mut [u32],
) -> Result<Counts, Fault>
    requires { Rowed room c edges.old × (c.nodes ≤ length nodes.now) × (c.nodes ≤ most_nodes) × (a_rule rule.now ≡ true) }
    ensures { Rows room c
        (convert_first (room_of room) no.0 rule.now (grown_of c nodes.now edges.old))
        result nodes.now edges.new }
{
    let Some(source) = rules::conversion_of(rule) else {
        return Ok(c);
    };
    let result = rules::result_of(rule);
    let change = Change {
        rule: no,
        source,
        result,
    };
    convert_nodes(room, c, change, nodes, edges)
}

// Every conversion, in rule order.
pub fn convert_all(
    room: Room,
    start: Counts,
    rules: &[u32],
    nodes: &[u32],
    edges: &mut [u32],
) -> Result<Counts, Fault>
    requires { Rowed room start edges.old × (start.nodes ≤ length nodes.now) × (start.nodes ≤ most_nodes) × (some_rules rules.now ≡ true) }
    ensures { Rows room start
        (convert_all (room_of room) 1 (the_rules rules.now) (grown_of start nodes.now edges.old))
        result nodes.now edges.new }
{
    let mut c = start;
    for (no, rule) in rules::each(rules) {
        c = convert_rule(room, c, no, rule, nodes, edges)?;
    }
    Ok(c)
}
