// Rows of words: edges, read and written, and the look-up among them. reduce_list.rt has an edge's reduces, check.rt the table check.
#![tactic(auto)]

ghost use Rattle.std.specs.Prelude.{◌≡◌, true, not, ◌+◌, ◌/◌, ◌%◌, ◌≤◌, ◌<◌, ltb, length, get_or};
ghost use Rattle.words.specs.Limits.{row_width, most_reduces, most_nodes, most_edges};
ghost use Rattle.rows.specs.Rows.{edge_of, rows_from, edges_of, row_words, rising, bare};
ghost use Rattle.rows.specs.Code.{reduce_is, key_of, edge_is, Holds, row_at, Spells, written, put_in, cleared, place_of, looks_up, mark, Firsts, Tabled, Spans, row_named, RootRows};
ghost use Rattle.rules.specs.Every.{All};

mod check;
mod reduce_list;

pub use check::tables_good;
use reduce_list::PLACES;
pub use reduce_list::{Reduce, Reduces};

// What a row is found by: the node that it leaves, its kind and its symbol. Rows stand in the order of their keys. The kind is a word and no
// enum: a row is whatever a caller wrote, and only checked tables have the kinds that there are.
#[derive(Clone, Copy, PartialEq, Eq, PartialOrd, Ord)]
pub struct Key {
    pub from: words::NodeNo,
    pub kind: u32,
    pub symbol: words::SymbolNo,
}

impl Key {
    // The lowest key of this node and kind.
    pub fn lowest(from: words::NodeNo, kind: u32) -> Key
        ensures { result ≡ record { from = from; kind = kind; symbol = record { 0 = 0 } } }
    {
        Key {
            from,
            kind,
            symbol: words::SymbolNo(0),
        }
    }
}

// An edge by value.
#[derive(Clone, Copy)]
pub struct Edge {
    pub key: Key,
    pub to: words::NodeNo,
    pub reduces: Reduces,
}

// The rows from `low` on, up to `high`.
#[derive(Clone, Copy)]
struct Span {
    low: usize,
    high: usize,
}

// More than a table has rows. An index word is the first row of its node, times this, and the first of its variable edges.
const MARK: u32 = 32768;

// ---- rows

fn reduce_at(row: &[u32], at: usize) -> Reduce
    requires { at + 2 ≤ length row.now }
    ensures { reduce_is result ≡ record { rule = get_or row.now at 0; offset = get_or row.now (at + 1) 0 } }
{
    Reduce {
        rule: words::RuleNo(row[at]),
        offset: row[at + 1],
    }
}

// The words of row number `row`.
fn row_at(edges: &[u32], row: usize) -> &[u32]
    requires { row < length edges.now / row_width }
    ensures { result.now ≡ row_at edges.now row }
{
    let at = words::ROW_WIDTH * row;
    &edges[at..at + words::ROW_WIDTH]
}

// The key that a row says.
fn key_of(row: &[u32]) -> Key
    requires { length row.now ≡ row_width }
    ensures { result ≡ key_of (edge_of row.now) }
{
    Key {
        from: words::NodeNo(row[0]),
        kind: row[1],
        symbol: words::SymbolNo(row[2]),
    }
}

// The edge that a row says.
fn read_edge(row: &[u32]) -> Edge
    requires { (length row.now ≡ row_width) × (length (edge_of row.now).reduces ≤ most_reduces) }
    ensures { Holds result (edge_of row.now) }
{
    let items = [
        reduce_at(row, 5),
        reduce_at(row, 7),
        reduce_at(row, 9),
        reduce_at(row, 11),
        reduce_at(row, 13),
    ];
    Edge {
        key: key_of(row),
        to: words::NodeNo(row[3]),
        reduces: Reduces {
            count: row[4],
            items,
        },
    }
}

// The edge of row number `row`.
pub fn read_row(edges: &[u32], row: usize) -> Edge
    requires { (row < length edges.now / row_width) × (length (edge_of (row_at edges.now row)).reduces ≤ most_reduces) }
    ensures { Holds result (edge_of (row_at edges.now row)) }
{
    read_edge(row_at(edges, row))
}

// Where a row leads.
pub fn end_of(edges: &[u32], row: usize) -> words::NodeNo
    requires { row < length edges.now / row_width }
    ensures { result.0 ≡ (edge_of (row_at edges.now row)).to }
{
    words::NodeNo(edges[words::ROW_WIDTH * row + 3])
}

// Whether a row has reduces, so that one without any need not be read whole.
pub fn has_reduces(edges: &[u32], row: usize) -> bool
    requires { row < length edges.now / row_width }
    ensures { result ≡ ltb 0 (length (edge_of (row_at edges.now row)).reduces) }
{
    0 < edges[words::ROW_WIDTH * row + 4]
}

// The words of an edge, in a row.
fn write_row(row: &mut [u32], e: Edge)
    requires { length row.old ≡ row_width }
    ensures { row.new ≡ row_words (edge_is e) }
{
    row[0] = e.key.from.0;
    row[1] = e.key.kind;
    row[2] = e.key.symbol.0;
    row[3] = e.to.0;
    row[4] = e.reduces.count;
    for k in 0..PLACES {
        let r = e.reduces.get(k);
        row[5 + 2 * k] = r.rule.0;
        row[6 + 2 * k] = r.offset;
    }
    row[15] = 0;
}

// Row number `row` of the table, written.
pub fn write_edge(edges: &mut [u32], row: usize, e: Edge)
    requires { row < length edges.old / row_width }
    ensures { edges.new ≡ written edges.old row (edge_is e) }
{
    let at = words::ROW_WIDTH * row;
    write_row(&mut edges[at..at + words::ROW_WIDTH], e);
}

// A row for `e` before row number `row` of the first `count`, which move up by one from there on.
pub fn insert_edge(edges: &mut [u32], row: usize, count: usize, e: Edge)
    requires { (row ≤ count) × (count < length edges.old / row_width) }
    ensures { edges.new ≡ put_in edges.old row count (edge_is e) }
{
    words::move_up(
        edges,
        words::ROW_WIDTH * row,
        words::ROW_WIDTH * count,
        words::ROW_WIDTH,
    );
    write_edge(edges, row, e);
}

// The last words of the first `count` rows, which are free while a table grows, become 0.
pub fn clear_last(edges: &mut [u32], count: usize)
    requires { (count ≤ length edges.old / row_width) × All Spells (rows_from count edges.old) }
    ensures { edges.new ≡ cleared edges.old count }
{
    for row in 0..count {
        edges[words::ROW_WIDTH * row + 15] = 0;
    }
}

// ---- the look-up

// How many rows are lower than this key: where its row stands, or would stand. Found by halving.
pub fn place_of(edges: &[u32], key: Key) -> usize
    requires { rising (edges_of edges.now) ≡ true }
    ensures { result ≡ place_of key.from.0 key.kind key.symbol.0 (edges_of edges.now) }
{
    let mut low = 0;
    let mut high = edges.len() / words::ROW_WIDTH;
    while low < high {
        let half = low + (high - low) / 2;
        if key_of(row_at(edges, half)) < key {
            low = half + 1;
        } else {
            high = half;
        }
    }
    low
}

// The row with this key, looked for among all. With an index few nodes need it, so it stays out of line.
#[inline(never)]
pub fn look_up(edges: &[u32], key: Key) -> Option<usize>
    requires { rising (edges_of edges.now) ≡ true }
    ensures { result ≡ looks_up edges.now key.from.0 key.kind key.symbol.0 }
{
    let row = place_of(edges, key);
    let found = row < edges.len() / words::ROW_WIDTH && key_of(row_at(edges, row)) == key;
    found.then_some(row)
}

// Whether any row leaves this node, looked for among all.
fn leaves_any(edges: &[u32], from: words::NodeNo) -> bool
    requires { rising (edges_of edges.now) ≡ true }
    ensures { result ≡ not (bare (edges_of edges.now) from.0) }
{
    let row = place_of(edges, Key::lowest(from, 0));
    row < edges.len() / words::ROW_WIDTH && key_of(row_at(edges, row)).from == from
}

// ---- the look-up by an index of the nodes' rows

// The rows of node `from`'s constant edges, as the index has them: those of its variable edges come after.
fn constants_of(firsts: &[u32], from: usize) -> Span
    requires { from < length firsts.now }
    ensures { (result.low ≡ get_or firsts.now from 0 / mark) × (result.high ≡ get_or firsts.now from 0 % mark) }
{
    let word = firsts[from];
    Span {
        low: (word / MARK) as usize,
        high: (word % MARK) as usize,
    }
}

// The rows of this node and kind.
fn span_of(edges: &[u32], firsts: &[u32], from: usize, kind: u32) -> Span
    requires { Tabled edges.now firsts.now × (from + 1 < length firsts.now) × (kind ≤ 1) }
    ensures { Spans edges.now from kind result.low result.high }
{
    let constants = constants_of(firsts, from);
    if kind == 0 {
        return constants;
    }
    let after = constants_of(firsts, from + 1);
    Span {
        low: constants.high,
        high: after.low,
    }
}

// The row with this key among those of its node and kind, by halving. A half is taken or left by one comparison of symbols, without a jump.
fn search(edges: &[u32], span: Span, key: Key) -> Option<usize>
    requires { (rising (edges_of edges.now) ≡ true) × Spans edges.now key.from.0 key.kind span.low span.high }
    ensures { result ≡ looks_up edges.now key.from.0 key.kind key.symbol.0 }
{
    if span.high <= span.low {
        return None;
    }
    let mut row = span.low;
    let mut size = span.high - row;
    while 1 < size {
        let half = size / 2;
        if edges[words::ROW_WIDTH * (row + half) + 2] <= key.symbol.0 {
            row += half;
        }
        size -= half;
    }
    if edges[words::ROW_WIDTH * row + 2] == key.symbol.0 {
        Some(row)
    } else {
        None
    }
}

// The row with this key: among those of its node and kind, or among all where the index does not have the node. In line, the kind is known and
// neither the key nor the answer goes through memory.
#[inline(always)]
pub fn row_of(edges: &[u32], firsts: &[u32], key: Key) -> Option<usize>
    requires { Tabled edges.now firsts.now × (key.kind ≤ 1) }
    ensures { result ≡ looks_up edges.now key.from.0 key.kind key.symbol.0 }
{
    let node = key.from.0 as usize;
    if firsts.len() <= node + 1 {
        return look_up(edges, key);
    }
    let span = span_of(edges, firsts, node, key.kind);
    search(edges, span, key)
}

// The row that a word of a table of symbols names: its number and one, or 0 for none.
fn row_named(word: u32) -> Option<usize>
    ensures { result ≡ row_named word }
{
    (word as usize).checked_sub(1)
}

// The constant edge with this key. Node 0 has most of them and is asked most: its row is in the table, as far as that goes.
pub fn constant_row(
    edges: &[u32],
    firsts: &[u32],
    roots: &[u32],
    from: words::NodeNo,
    symbol: words::SymbolNo,
) -> Option<usize>
    requires { Tabled edges.now firsts.now × RootRows edges.now roots.now }
    ensures { result ≡ looks_up edges.now from.0 0 symbol.0 }
{
    let t = symbol.0 as usize;
    if from.0 == 0 && t < roots.len() {
        return row_named(roots[t]);
    }
    let key = Key {
        from,
        kind: 0,
        symbol,
    };
    row_of(edges, firsts, key)
}

// Whether any row leaves this node.
pub fn leaves(edges: &[u32], firsts: &[u32], from: words::NodeNo) -> bool
    requires { Tabled edges.now firsts.now }
    ensures { result ≡ not (bare (edges_of edges.now) from.0) }
{
    let node = from.0 as usize;
    if firsts.len() <= node + 1 {
        return leaves_any(edges, from);
    }
    constants_of(firsts, node).low < constants_of(firsts, node + 1).low
}

// The first row from `row` on that is not lower than those of this node and kind.
fn past(edges: &[u32], row: usize, from: words::NodeNo, kind: u32) -> usize
    requires { (rising (edges_of edges.now) ≡ true) × (row ≤ place_of from.0 kind 0 (edges_of edges.now)) }
    ensures { result ≡ place_of from.0 kind 0 (edges_of edges.now) }
{
    let n = edges.len() / words::ROW_WIDTH;
    let lowest = Key::lowest(from, kind);
    for i in row..n {
        if key_of(row_at(edges, i)) >= lowest {
            return i;
        }
    }
    n
}

// The index of the rows, a word for each node and one more: once over all rows.
#[tactic(auto, using(crate::proofs::Laws::place_in))]
pub fn index_rows(edges: &[u32], firsts: &mut [u32])
    requires { (rising (edges_of edges.now) ≡ true) × (length edges.now / row_width ≤ most_edges) × (length firsts.old ≤ most_nodes + 1) }
    ensures { Firsts edges.now firsts.new × (length firsts.new ≡ length firsts.old) }
{
    let mut row = 0;
    for (node, word) in firsts.iter_mut().enumerate() {
        let from = words::NodeNo(node as u32);
        let first = past(edges, row, from, 0);
        row = past(edges, first, from, 1);
        *word = (first as u32) * MARK + row as u32;
    }
}

// The table of node 0's constant edges, a word for each symbol below its length.
#[tactic(auto, using(crate::proofs::Laws::place_in))]
pub fn index_roots(edges: &[u32], roots: &mut [u32])
    requires { (rising (edges_of edges.now) ≡ true) × (length edges.now / row_width ≤ most_edges) }
    ensures { RootRows edges.now roots.new × (length roots.new ≡ length roots.old) }
{
    roots.fill(0);
    let low = past(edges, 0, words::NodeNo(0), 0);
    let high = past(edges, low, words::NodeNo(0), 1);
    for row in low..high {
        let t = edges[words::ROW_WIDTH * row + 2] as usize;
        if t < roots.len() {
            roots[t] = row as u32 + 1;
        }
    }
}
