// Lists of reduces.
ghost use Rattle.std.specs.Prelude.{◌≡◌, [], ◌∷◌, map};
ghost use Rattle.rows.specs.Code.{reduce_is, reduces_are, edge_is};
ghost use Rattle.garden.specs.Garden.{increment_offsets, raised_on, extend, diff_extend, same_reduces, store_other, leaf_reduces};
ghost use Rattle.garden.specs.Code.{list_of, has_rule};

use rows::{Reduce, Reduces};
use tree::Fault;

// Every offset raised by one; refused (15) where one is 255.
fn increment_offsets(list: Reduces) -> Result<Reduces, Fault>
    ensures { list_of result ≡ increment_offsets (reduces_are list) }
{
    let count = list.count;
    let mut items = list.items;
    for k in 0..count as usize {
        let d = items[k];
        if words::MOST_OFFSET <= d.offset {
            return Err(Fault::FarOffset);
        }
        items[k] = Reduce {
            offset: d.offset + 1,
            ..d
        };
    }
    Ok(Reduces { count, items })
}

// As it is before a constant, raised by one before a variable.
pub fn raised_on(kind: u32, list: Reduces) -> Result<Reduces, Fault>
    ensures { list_of result ≡ raised_on kind (reduces_are list) }
{
    if kind == 0 {
        return Ok(list);
    }
    increment_offsets(list)
}

// A reduce behind the others; a sixth is refused (14).
pub fn push(list: Reduces, r: Reduce) -> Result<Reduces, Fault>
    ensures { list_of result ≡ extend (reduces_are list) (reduce_is r ∷ []) }
{
    let count = list.count;
    if words::MOST_REDUCES <= count {
        return Err(Fault::SixthReduce);
    }
    let mut items = list.items;
    items[count as usize] = r;
    Ok(Reduces {
        count: count + 1,
        items,
    })
}

// Another list behind the first.
pub fn extend(list: Reduces, more: Reduces) -> Result<Reduces, Fault>
    ensures { list_of result ≡ extend (reduces_are list) (reduces_are more) }
{
    let mut out = list;
    for d in more.as_slice() {
        out = push(out, *d)?;
    }
    Ok(out)
}

// Whether the first of these is of this rule.
fn has_rule(list: &[Reduce], rule: words::RuleNo) -> bool
    ensures { result ≡ has_rule rule.0 (map reduce_is list.now) }
{
    match list {
        [first, ..] => first.rule == rule,
        [] => false,
    }
}

// Those reduces of `f` that `e` lacks, by their rules; refused (16) where some of `e` are left over.
pub fn diff_extend(f: Reduces, e: Reduces) -> Result<Reduces, Fault>
    ensures { list_of result ≡ diff_extend (reduces_are f) (reduces_are e) }
{
    let mut out = Reduces::none();
    let mut left = e.as_slice();
    for d in f.as_slice() {
        if has_rule(left, d.rule) {
            left = &left[1..];
        } else {
            out = push(out, *d)?;
        }
    }
    if !left.is_empty() {
        return Err(Fault::BadCopy);
    }
    Ok(out)
}

// Whether two lists have the same reduces.
pub fn same_reduces(a: Reduces, b: Reduces) -> bool
    ensures { result ≡ same_reduces (reduces_are a) (reduces_are b) }
{
    a.as_slice() == b.as_slice()
}

// The reduces of `e` behind the stored ones, where `d` has others: 14.
pub fn store_other(stored: Reduces, e: rows::Edge, d: rows::Edge) -> Result<Reduces, Fault>
    ensures { list_of result ≡ store_other (reduces_are stored) (edge_is e) (edge_is d) }
{
    if same_reduces(e.reduces, d.reduces) {
        return Ok(stored);
    }
    extend(stored, e.reduces)
}

// What a row that leads to the leaf of this rule carries: its own reduces, the stored ones and the rule. 15, then 14.
pub fn leaf_reduces(e: rows::Edge, stored: Reduces, rule: words::RuleNo) -> Result<Reduces, Fault>
    ensures { list_of result ≡ leaf_reduces rule.0 (edge_is e) (reduces_are stored) }
{
    let raised = raised_on(e.key.kind, stored)?;
    let own = extend(e.reduces, raised)?;
    push(own, Reduce { rule, offset: 0 })
}
