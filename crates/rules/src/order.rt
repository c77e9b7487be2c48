// The rules of a slice one after another, each with its number.
ghost use Rattle.std.specs.Prelude.{◌≡◌, true, length};
ghost use Rattle.std.specs.Iterator.{at_most};
ghost use Rattle.rules.specs.Code.{some_rules};
ghost use Rattle.rules.specs.Order.{Left, TakesRule};

// The rules that are left, and how many were taken.
#[derive(Drop)]
pub struct Rules<'a> {
    words: &'a [u32],
    taken: u32,
    pub ghost good: { Left taken words.now },
}

impl<'a> Iterator for Rules<'a> {
    // A rule's number, and the slice that begins with the rule.
    type Item = (words::RuleNo, &'a [u32]);

    ghost next_gives = { TakesRule (λ s. s.taken) (λ s. s.words.now) };

    ghost remaining = { λ s. at_most (length s.words.now) };

    #[inline]
    fn next(&mut self) -> Option<(words::RuleNo, &'a [u32])> {
        let rule = self.words;
        if rule.is_empty() {
            return None;
        }
        let no = self.taken + 1;
        self.words = crate::rest_of(rule);
        self.taken = no;
        Some((words::RuleNo(no), rule))
    }
}

// Every rule, in order.
#[inline]
pub fn each(rules: &[u32]) -> Rules<'_>
    requires { some_rules rules.now ≡ true }
    ensures { (result.words.now ≡ rules.now) × (result.taken ≡ 0) }
{
    Rules {
        words: rules,
        taken: 0,
    }
}
