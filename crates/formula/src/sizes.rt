// The sizes of a walk's trees in its work slice, the bottom tree's first: what a reduce does to them, and where in the list its entry goes.
ghost use Rattle.std.specs.Prelude.{◌≡◌, ◌∷◌, ◌++◌, ◌+◌, ◌-◌, ◌≤◌, ◌<◌, length, take, drop, sum};
ghost use Rattle.rules.specs.Rules.{the_rules};
ghost use Rattle.formula.specs.Code.{most_room};
ghost use Rattle.formula.specs.Tail.{measure};
ghost use Rattle.formula.specs.TailCode.{Sized, Joins, Measures};

use super::{RuleBook, Trees, Unfit};

// What a reduce comes to: the words of the list before its entry, and the trees after it.
#[derive(Clone, Copy)]
pub struct Fit {
    pub place: usize,
    pub trees: Trees,
}

fn total(sizes: &[u32]) -> u32
    requires { sum sizes.now ≤ most_room }
    ensures { result ≡ sum sizes.now }
{
    sizes.iter().sum()
}

// Of the first `count` sizes, the `k` from `at` on become one.
fn replace(work: &mut [u32], count: usize, at: usize, k: usize, size: u32)
    requires { (at + k ≤ count) × (count < length work.old) }
    ensures { take (count + 1 - k) work.new ≡ take at work.old ++ size ∷ drop (at + k) (take count work.old) }
{
    work.copy_within(at + k..count, at + 1);
    work[at] = size;
}

// The `k` trees under the top `o` become one. The words of the list up to them are given back.
fn join(room: usize, work: &mut [u32], s: Trees, k: usize, o: usize) -> usize
    requires { Sized room s work.old × (o + k ≤ s.count) × (s.len < room) }
    ensures { Joins s k o work.old result work.new }
{
    let count = s.count;
    let len = s.len;
    let under = count - o;
    let below = under - k;
    let place = len - (total(&work[under..count]) as usize);
    let size = total(&work[below..under]) + 1;
    replace(work, count, below, k, size);
    place
}

// The rule under the top `offset` trees: too few trees before a full list. A rule that is not there has too few.
pub fn measure(
    book: &RuleBook,
    room: usize,
    work: &mut [u32],
    s: Trees,
    rule: words::RuleNo,
    offset: u32,
) -> Result<Fit, Unfit>
    requires { Sized room s work.old }
    ensures { Measures room s result work.new (measure (the_rules book.now.rules.now) room rule.0 offset (take s.count work.old)) }
{
    let Some(i) = rules::find_rule(book.rules, book.starts, rule) else {
        return Err(Unfit::TooFew);
    };
    let k = rules::slots_at(book.rules, book.starts, rule, i) as usize;
    let o = offset as usize;
    let needed = o + k;
    let count = s.count;
    let len = s.len;
    let grown = len + 1;
    if count < needed {
        return Err(Unfit::TooFew); // for its slots and the offset
    }
    if room < grown {
        return Err(Unfit::Full); // for the rule itself
    }
    let place = join(room, work, s, k, o);
    Ok(Fit {
        place,
        trees: Trees {
            count: count + 1 - k,
            len: grown,
        },
    })
}
