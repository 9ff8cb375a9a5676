// The listing of a job: what the planner says of it, as text (document 01, "Listing").
#![tactic(auto)]

ghost use Rattle.std.specs.Prelude.{◌≡◌, ◌≤◌, length, take};
ghost use Rattle.job.specs.Parse.{parse};
ghost use Rattle.planner.specs.Verdict.{judged};
ghost use Rattle.report.specs.Report.{Reported};

// The text of a job's plan, or of its refusal, as much of it as there is room for, and how many bytes that is. The work words and the plan
// buffer are its own, enough for every job.
pub fn list_job(job: &[u8], text: &mut [u8]) -> usize
    ensures reported { Reported (judged (parse job.now)) text.old text.new result }
    ensures within { (result ≤ length text.new) × (result ≡ length (take result text.new)) }
{
    let mut work = [0u32; 16384];
    let mut out = [0u8; 36886];
    match planner::plan(job, &mut work, &mut out) {
        Ok(length) => text::list_plan(&out[..length], text),
        Err(refusal) => text::list_refusal(refusal, text),
    }
}
