// What C is told: "the plan's length, or minus the refusal number" (document 01, What a call says and leaves), and so the length of a job book.
ghost use Rattle.std.specs.Prelude.{◌≡◌, ◌≤◌, pos, neg_ℤ};
ghost use Rattle.refusal.specs.Refusal.{refusal_number};
ghost use Rattle.planner.specs.Call.{said, code_of};
ghost use Rattle.planner.specs.Stages.{Short};

use refusal::Refusal;

// Minus the number of a refusal.
pub fn code_of(refusal: Refusal) -> i32
    ensures { result ≡ neg_ℤ (pos (refusal_number refusal)) }
{
    -(refusal::number(refusal) as i32)
}

// The length of a plan or of a job book.
pub fn length_code(n: usize) -> i32
    requires { n ≤ 36886 }
    ensures { result ≡ pos n }
{
    n as i32
}

// The number that an answer gives (a length, words, bytes, or how many routes), or minus the number of its refusal.
pub fn answer_code(answer: Result<usize, Refusal>) -> i32
    requires { Short (said answer) }
    ensures { result ≡ code_of (said answer) }
{
    match answer {
        Ok(length) => length_code(length),
        Err(refusal) => code_of(refusal),
    }
}
