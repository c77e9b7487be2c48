// The reduces of an edge: a short list, held in as many places as an edge has.
ghost use Rattle.std.specs.Prelude.{◌≤◌};
ghost use Rattle.words.specs.Limits.{most_reduces};

// An edge's places for reduces.
pub const PLACES: usize = words::MOST_REDUCES as usize;

// A rule, reduced under the top `offset` trees.
#[derive(Clone, Copy, PartialEq, Eq)]
pub struct Reduce {
    pub rule: words::RuleNo,
    pub offset: u32,
}

impl Reduce {
    // What an unused place of a row says.
    pub const ZEROS: Reduce = Reduce {
        rule: words::RuleNo(0),
        offset: 0,
    };
}

// Reduces in their order. Of the places the first `count` are taken; the others hold anything.
#[derive(Clone, Copy)]
pub struct Reduces {
    pub count: u32,
    pub items: [Reduce; PLACES],
    ghost few: { count ≤ most_reduces },
}

impl Reduces {
    ghost use Rattle.std.specs.Prelude.{◌≡◌, [], ◌+◌, ◌<◌, map, get_or};
    ghost use Rattle.words.specs.Limits.{most_offset};
    ghost use Rattle.rows.specs.Code.{reduce_is, reduces_are, Adds};

    // No reduces.
    pub fn none() -> Reduces
        ensures { reduces_are result ≡ [] }
    {
        Reduces {
            count: 0,
            items: [Reduce::ZEROS; PLACES],
        }
    }

    // The reduces, as a slice.
    pub fn as_slice(&self) -> &[Reduce]
        ensures { map reduce_is result.now ≡ reduces_are self.now }
    {
        &self.items[..self.count as usize]
    }

    // The reduce at place `k`; zeros where there is none.
    pub fn get(&self, k: usize) -> Reduce
        requires { k < most_reduces }
        ensures { reduce_is result ≡ get_or (reduces_are self.now) k (record { rule = 0; offset = 0 }) }
    {
        if (k as u32) < self.count {
            self.items[k]
        } else {
            Reduce::ZEROS
        }
    }

    // These with `r` before them; none where that is a sixth.
    pub fn with_reduce(self, r: Reduce) -> Option<Reduces>
        ensures { Adds self (reduce_is r) result }
    {
        if words::MOST_REDUCES <= self.count {
            return None;
        }
        let mut items = self.items;
        items.copy_within(..PLACES - 1, 1);
        items[0] = r;
        Some(Reduces {
            count: self.count + 1,
            items,
        })
    }

    // The same, with the reduce under one tree more.
    pub fn with_offset_reduce(self, r: Reduce) -> Option<Reduces>
        requires { r.offset < most_offset }
        ensures { Adds self (record { rule = r.rule.0; offset = r.offset + 1 }) result }
    {
        let raised = Reduce {
            offset: r.offset + 1,
            ..r
        };
        self.with_reduce(raised)
    }
}
