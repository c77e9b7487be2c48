// Rules with an index of them.
ghost use Rattle.rules.specs.Code.{Ruled};

// Good rules as words, and a word for each of the first so many, which says where it starts.
#[derive(Clone, Copy)]
pub struct RuleBook<'a> {
    pub rules: &'a [u32],
    pub starts: &'a [u32],
    ghost ruled: { Ruled rules.now starts.now },
}
