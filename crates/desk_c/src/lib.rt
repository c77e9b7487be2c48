// The C boundary: the entry points of `desk` under C names. A slice passes as a pointer and a length. Nothing is asked of a caller but that its
// slices are there; what comes back is what `desk` says.
#![tactic(auto)]

ghost use Rattle.std.specs.Prelude.{◌≡◌, length};
ghost use Rattle.rules.specs.Code.{stretch_of};
ghost use Rattle.package.specs.Code.{read_is, written_is};
ghost use Rattle.desk.specs.Entry.{body_gives, build_gives, parse_gives, verify_gives, read_gives, write_gives};
ghost use Rattle.desk.specs.Batch.{batch_gives};
ghost use Rattle.desk.specs.Code.{built_is, parsed_is, verified_is, batch_is, lent, lent_many};

fn codes_of(provable: u32, logic: u32) -> rules::Codes
    ensures { result ≡ record { provable = record { 0 = provable }; logic = record { 0 = logic } } }
{
    rules::Codes {
        provable: words::SymbolNo(provable),
        logic: words::SymbolNo(logic),
    }
}

// Where rule `rule`'s body stands in the rules; 0, 0 where there is none.
#[unsafe(no_mangle)]
pub extern "C" fn jiehkavon_body(
    provable: u32,
    logic: u32,
    rules: &[u32],
    rule: u32,
) -> rules::Stretch
    ensures { stretch_of result ≡ body_gives provable logic rules.now rule }
{
    let codes = codes_of(provable, logic);
    desk::body_stretch(codes, rules, words::RuleNo(rule))
}

// The tree of the rules and commands.
#[unsafe(no_mangle)]
pub extern "C" fn jiehkavon_build(
    provable: u32,
    logic: u32,
    rules: &[u32],
    commands: &[u32],
    nodes: &mut [u32],
    edges: &mut [u32],
    frames: &mut [u32],
) -> desk::Made
    ensures { built_is result nodes.new edges.new frames.new
        ≡ build_gives provable logic rules.now commands.now
        (length nodes.old) (length edges.old) (length frames.old) }
{
    let codes = codes_of(provable, logic);
    desk::build(codes, rules, commands, nodes, edges, frames)
}

// The check alone.
#[unsafe(no_mangle)]
pub extern "C" fn jiehkavon_verify(
    provable: u32,
    logic: u32,
    rules: &[u32],
    tokens: &[u32],
    list: &[u32],
    work: &mut [u32],
) -> desk::Answer
    ensures { verified_is result work.new
        ≡ verify_gives provable logic rules.now tokens.now list.now (length work.old) }
{
    let codes = codes_of(provable, logic);
    desk::verify(codes, rules, tokens, list, work)
}

// The statement's list of rules, or a refusal.
#[unsafe(no_mangle)]
pub extern "C" fn jiehkavon_parse(
    provable: u32,
    logic: u32,
    rules: &[u32],
    nodes: &[u32],
    edges: &[u32],
    tokens: &[u32],
    allowance: u32,
    frames: &mut [u32],
    list: &mut [u32],
    work: &mut [u32],
) -> desk::Answer
    ensures { parsed_is result frames.new list.new work.new
        ≡ parse_gives (record {
          provable = provable;
          logic = logic;
          rules = rules.now;
          nodes = nodes.now;
          edges = edges.now;
          tokens = tokens.now;
        }) allowance
        (lent frames.old list.old work.old) }
{
    let codes = codes_of(provable, logic);
    desk::parse(
        codes, rules, nodes, edges, tokens, allowance, frames, list, work,
    )
}

// Many statements, each answered as a parse answers it.
#[unsafe(no_mangle)]
pub extern "C" fn jiehkavon_parse_many(
    provable: u32,
    logic: u32,
    rules: &[u32],
    nodes: &[u32],
    edges: &[u32],
    statements: &[u32],
    allowance: u32,
    frames: &mut [u32],
    list: &mut [u32],
    work: &mut [u32],
    answers: &mut [u32],
    index: &mut [u32],
) -> desk::Batch
    ensures { batch_is result frames.new list.new work.new answers.new index.new
        ≡ batch_gives (record {
          provable = provable;
          logic = logic;
          rules = rules.now;
          nodes = nodes.now;
          edges = edges.now;
          statements = statements.now;
        }) allowance
        (lent_many frames.old list.old work.old answers.old index.old) }
{
    let codes = codes_of(provable, logic);
    desk::parse_many(
        codes, rules, nodes, edges, statements, allowance, frames, list, work, answers, index,
    )
}

// What a package's bytes say.
#[unsafe(no_mangle)]
pub extern "C" fn jiehkavon_package_read(
    bytes: &[u8],
    rules: &mut [u32],
    statements: &mut [u32],
) -> package::Package
    ensures { read_is result rules.new statements.new
        ≡ read_gives bytes.now (length rules.old) (length statements.old) }
{
    desk::read(bytes, rules, statements)
}

// The package of typecodes, rules and statements.
#[unsafe(no_mangle)]
pub extern "C" fn jiehkavon_package_write(
    provable: u32,
    logic: u32,
    rules: &[u32],
    statements: &[u32],
    bytes: &mut [u8],
) -> package::Written
    ensures { written_is result bytes.new
        ≡ write_gives provable logic rules.now statements.now (length bytes.old) }
{
    let codes = codes_of(provable, logic);
    desk::write(codes, rules, statements, bytes)
}
