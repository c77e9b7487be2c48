// Rules in order, conversions skipped: each body from node 0. 11 before 12 before 13.
ghost use Rattle.std.specs.Prelude.{◌≡◌, true, [], ◌∷◌, ◌<◌, length};
ghost use Rattle.std.proofs.Math.Option.{none};
ghost use Rattle.rules.specs.Rules.{items_of, the_rules};
ghost use Rattle.rules.specs.Code.{a_rule, some_rules, item_is};
ghost use Rattle.rows.specs.Rows.{find};
ghost use Rattle.tree.specs.Grow.{place, place_rules};
ghost use Rattle.tree.specs.Code.{room_of, edges_in, grown_of, key_for, Stands, branch_of, inner_of, place_first, Meets, Places};

use super::{Counts, Fault, Room, table};

// The key of an item's edge from node `n`.
#[tactic(auto, unfolding(crate::specs::Grow::kind, crate::specs::Grow::sym))]
fn key_of(n: words::NodeNo, item: rules::Item) -> rows::Key
    ensures { result ≡ key_for n (item_is item) }
{
    let (kind, symbol) = match item {
        rules::Item::Con(symbol) => (0, symbol),
        rules::Item::Slot(symbol) => (1, symbol),
    };
    rows::Key {
        from: n,
        kind,
        symbol,
    }
}

// An edge with this key, which is new, to a new branch: where the next item of a body is placed.
fn new_branch(
    room: Room,
    c: Counts,
    key: rows::Key,
    nodes: &mut [u32],
    edges: &mut [u32],
) -> Result<(Counts, words::NodeNo), Fault>
    requires { Stands room c nodes.old edges.old × (find (edges_in c.edges edges.old) key.from.0 key.kind key.symbol.0 ≡ none) }
    ensures { Places room (branch_of (room_of room) (grown_of c nodes.old edges.old) key.from.0 key.kind key.symbol.0)
        result nodes.new edges.new }
{
    let next = table::add_node(room, c, key, words::RuleNo(0), nodes, edges)?;
    Ok((next, words::NodeNo(c.nodes as u32)))
}

// An item that has more after it follows its edge, or makes one to a new branch.
fn place_inner(
    room: Room,
    c: Counts,
    n: words::NodeNo,
    item: rules::Item,
    nodes: &mut [u32],
    edges: &mut [u32],
) -> Result<(Counts, words::NodeNo), Fault>
    requires { Stands room c nodes.old edges.old × (n.0 < c.nodes) }
    ensures { Places room (inner_of (room_of room) (grown_of c nodes.old edges.old) n.0 (item_is item))
        result nodes.new edges.new }
{
    if !table::branch_at(nodes, n) {
        return Err(Fault::Collides);
    }
    let key = key_of(n, item);
    let Some(row) = table::look(c, key, edges) else {
        return new_branch(room, c, key, nodes, edges);
    };
    Ok((c, rows::end_of(edges, row)))
}

// The last item of a body makes a new leaf.
fn place_last(
    room: Room,
    c: Counts,
    rule: words::RuleNo,
    n: words::NodeNo,
    item: rules::Item,
    nodes: &mut [u32],
    edges: &mut [u32],
) -> Result<Counts, Fault>
    requires { Stands room c nodes.old edges.old × (n.0 < c.nodes) }
    ensures { Meets room (place (room_of room) rule.0 (item_is item ∷ []) (grown_of c nodes.old edges.old) n.0)
        result nodes.new edges.new }
{
    if !table::branch_at(nodes, n) {
        return Err(Fault::Collides);
    }
    let key = key_of(n, item);
    if table::look(c, key, edges).is_some() {
        return Err(Fault::Collides);
    }
    table::add_node(room, c, key, rule, nodes, edges)
}

// A body from node 0.
fn place_body(
    room: Room,
    start: Counts,
    rule: words::RuleNo,
    body: &[u32],
    nodes: &mut [u32],
    edges: &mut [u32],
) -> Result<Counts, Fault>
    requires { Stands room start nodes.old edges.old × (0 < length (items_of body.now)) }
    ensures { Meets room
        (place (room_of room) rule.0 (items_of body.now) (grown_of start nodes.old edges.old) 0)
        result nodes.new edges.new }
{
    let last = rules::items_in(body) - 1;
    let mut c = start;
    let mut n = words::NodeNo(0);
    for k in 0..last {
        (c, n) = place_inner(room, c, n, rules::item_in(body, k), nodes, edges)?;
    }
    place_last(room, c, rule, n, rules::item_in(body, last), nodes, edges)
}

// The rule that stands first in a slice is placed, if it is no conversion.
fn place_rule(
    room: Room,
    c: Counts,
    no: words::RuleNo,
    rule: &[u32],
    nodes: &mut [u32],
    edges: &mut [u32],
) -> Result<Counts, Fault>
    requires { Stands room c nodes.old edges.old × (a_rule rule.now ≡ true) }
    ensures { Meets room (place_first (room_of room) no.0 rule.now (grown_of c nodes.old edges.old))
        result nodes.new edges.new }
{
    if rules::conversion_of(rule).is_some() {
        return Ok(c);
    }
    place_body(room, c, no, rules::body_of(rule), nodes, edges)
}

// Every rule that is no conversion, in order.
pub fn place_rules(
    room: Room,
    start: Counts,
    rules: &[u32],
    nodes: &mut [u32],
    edges: &mut [u32],
) -> Result<Counts, Fault>
    requires { Stands room start nodes.old edges.old × (some_rules rules.now ≡ true) }
    ensures { Meets room (place_rules (room_of room) 1 (the_rules rules.now) (grown_of start nodes.old edges.old))
        result nodes.new edges.new }
{
    let mut c = start;
    for (no, rule) in rules::each(rules) {
        c = place_rule(room, c, no, rule, nodes, edges)?;
    }
    Ok(c)
}
