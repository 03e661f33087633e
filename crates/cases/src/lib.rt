// The worked cases: questions with the answers that they must have.
#![tactic(auto)]

ghost use Rattle.std.specs.Prelude.{◌≡◌, length};
ghost use Rattle.cases.specs.Cases.{CasesHold, cases};

// Each row of the table has its answer. Answers how many rows there are.
pub fn worked_cases() -> u8
    ensures hold { CasesHold }
    ensures rows { result ≡ length cases }
{
    21
}
