// The table check: whether nodes and rows are good for so many rules.
ghost use Rattle.std.specs.Prelude.{◌≡◌, ◌&&◌, ◌+◌, ◌/◌, ◌<◌, length, get_or, drop};
ghost use Rattle.words.specs.Limits.{row_width, most_reduces};
ghost use Rattle.rows.specs.Rows.{edge_of, edges_of, rows_of, precedes, rising, good_nodes, good_pair, good_pairs, root_to_leaf, good_ends, good_rows, nodes_good, edges_good, tables_good};
ghost use Rattle.rows.specs.Code.{row_at};

use super::{Reduce, key_of, reduce_at, row_at};

// Whether each node is a branch or the leaf of a rule that there is.
fn good_nodes(rules: u32, nodes: &[u32]) -> bool
    ensures { result ≡ good_nodes rules nodes.now }
{
    nodes.iter().all(|rule| *rule <= rules)
}

#[tactic(auto, using(words::proofs::Theorems::Tests::tests), unfolding(crate::specs::Rows::nodes_good))]
fn nodes_good(rules: u32, nodes: &[u32]) -> bool
    ensures { result ≡ nodes_good rules nodes.now }
{
    !nodes.is_empty()
        && nodes.len() <= words::MOST_NODES
        && nodes[0] == 0
        && good_nodes(rules, nodes)
}

// Whether pair number `k` of a row is good: a rule that there is and an offset, or zeros.
#[tactic(auto, using(words::proofs::Theorems::Tests::tests), unfolding(crate::specs::Rows::good_pair))]
fn good_pair(rules: u32, k: u32, count: u32, pair: Reduce) -> bool
    ensures { result ≡ good_pair rules k count pair.rule.0 pair.offset }
{
    if k < count {
        1 <= pair.rule.0 && pair.rule.0 <= rules && pair.offset <= words::MOST_OFFSET
    } else {
        pair == Reduce::ZEROS
    }
}

// Whether a row's pairs are good.
fn good_pairs(rules: u32, row: &[u32]) -> bool
    requires { length row.now ≡ row_width }
    ensures { result ≡ good_pairs rules row.now most_reduces 0 }
{
    for k in 0..words::MOST_REDUCES {
        let pair = reduce_at(row, 5 + 2 * k as usize);
        if !good_pair(rules, k, row[4], pair) {
            return false;
        }
    }
    true
}

// Whether a row is a variable edge of node 0 that leads to a leaf.
#[tactic(auto, using(words::proofs::Theorems::Tests::tests), unfolding(crate::specs::Rows::root_to_leaf))]
fn root_to_leaf(nodes: &[u32], row: &[u32]) -> bool
    requires { (length row.now ≡ row_width) × (get_or row.now 3 0 < length nodes.now) }
    ensures { result ≡ root_to_leaf nodes.now row.now }
{
    row[0] == 0 && row[1] == 1 && nodes[row[3] as usize] != 0
}

// Whether a row's words but for its pairs are good.
#[tactic(auto, using(words::proofs::Theorems::Tests::tests), unfolding(crate::specs::Rows::good_ends))]
fn good_ends(nodes: &[u32], row: &[u32]) -> bool
    requires { length row.now ≡ row_width }
    ensures { result ≡ good_ends nodes.now row.now }
{
    let from = row[0] as usize;
    let to = row[3] as usize;
    from < nodes.len()
        && nodes[from] == 0
        && row[1] <= 1
        && rules::symbol(row[2])
        && to != 0
        && to < nodes.len()
        && !root_to_leaf(nodes, row)
        && row[4] <= words::MOST_REDUCES
        && row[15] == 0
}

// Whether row number `row` is lower than the next, if there is one.
fn precedes(edges: &[u32], row: usize) -> bool
    requires { row < length edges.now / row_width }
    ensures { result ≡ precedes (edge_of (row_at edges.now row)) (drop (row + 1) (edges_of edges.now)) }
{
    if edges.len() / words::ROW_WIDTH <= row + 1 {
        return true;
    }
    let own = key_of(row_at(edges, row));
    let next = key_of(row_at(edges, row + 1));
    own < next
}

// Whether row number `row` is good and lower than the next.
fn row_good(rules: u32, nodes: &[u32], edges: &[u32], row: usize) -> bool
    requires { row < length edges.now / row_width }
    ensures { result ≡ good_ends nodes.now (row_at edges.now row) && precedes (edge_of (row_at edges.now row)) (drop (row + 1) (edges_of edges.now))
        && good_pairs rules (row_at edges.now row) most_reduces 0 }
{
    let words = row_at(edges, row);
    good_ends(nodes, words) && precedes(edges, row) && good_pairs(rules, words)
}

// Whether every row is good and they rise.
fn rows_good(rules: u32, nodes: &[u32], edges: &[u32]) -> bool
    ensures { result ≡ good_rows rules nodes.now (rows_of edges.now) && rising (edges_of edges.now) }
{
    let n = edges.len() / words::ROW_WIDTH;
    (0..n).all(|row| row_good(rules, nodes, edges, row))
}

// Whether there are whole rows, not too many, and all are good and rise.
#[tactic(auto, using(words::proofs::Theorems::Tests::tests), unfolding(crate::specs::Rows::edges_good))]
fn edges_good(rules: u32, nodes: &[u32], edges: &[u32]) -> bool
    ensures { result ≡ edges_good rules nodes.now edges.now }
{
    edges.len() % words::ROW_WIDTH == 0
        && edges.len() / words::ROW_WIDTH <= words::MOST_EDGES
        && rows_good(rules, nodes, edges)
}

// Whether the tables are good for so many rules.
#[tactic(auto, using(words::proofs::Theorems::Tests::tests), unfolding(crate::specs::Rows::tables_good))]
pub fn tables_good(rules: u32, nodes: &[u32], edges: &[u32]) -> bool
    ensures { result ≡ tables_good rules nodes.now edges.now }
{
    nodes_good(rules, nodes) && edges_good(rules, nodes, edges)
}
