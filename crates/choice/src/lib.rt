// The contractor's book or ours (document 02, C-17): one of two plan books of a job, handed back as lent.
#![tactic(auto)]

ghost use Rattle.std.specs.Prelude.{◌≡◌, MatchOption};
ghost use Rattle.refusal.specs.Refusal.{refusal_number, refusal_place};
ghost use Rattle.std.specs.Result.{result_err};
ghost use Rattle.job.specs.Parse.{accepted};
ghost use Rattle.planner.specs.Verdict.{judged};
ghost use Rattle.planner.specs.Held.{runs_in, Held};
ghost use Rattle.judge.specs.Steps.{Knows};
ghost use Rattle.choice.specs.Choice.{choice_for, choice_of, Handed, number_of, place_of};

use job::Job;
use judge::Known;
use refusal::Refusal;

// The book to stake from.
#[derive(Clone, Copy)]
pub enum Chosen {
    First,
    Second,
}

// The books of a job of which everything is known.
fn choose_known(known: &Known, first: &[u8], second: &[u8]) -> Result<Chosen, Refusal>
    requires { Knows known.now }
    ensures { result ≡ choice_for (accepted known.now.job.number (runs_in known.now.job)) first.now second.now }
{
    let trench = judge::judge(first, 1, known)?;
    let other = judge::judge(second, 2, known)?;
    if trench <= other {
        Ok(Chosen::First)
    } else {
        Ok(Chosen::Second)
    }
}

// The books of a well-formed job, unless some group of its runs is no star.
fn choose_for(j: &Job, first: &[u8], second: &[u8]) -> Result<Chosen, Refusal>
    requires { Held j.now }
    ensures { result ≡ choice_for (judged (accepted j.now.number (runs_in j.now))) first.now second.now }
{
    let neighbours = planner::meetings::neighbours_of(j);
    let Some(centres) = intersection::finder::centres_of(&neighbours, j.count) else {
        return Err(Refusal::NoStar);
    };
    choose_known(&judge::known_of(j, &neighbours, &centres), first, second)
}

// Which of two plan books of a job is to be staked from, or why there is none.
pub fn which(job: &[u8], first: &[u8], second: &[u8]) -> Result<Chosen, Refusal>
    ensures { result ≡ choice_of job.now first.now second.now }
{
    let found = job::read(job)?;
    choose_for(&found, first, second)
}

// The book to stake from, as lent; where the call is refused, no byte of the first.
pub fn choose<'a>(job: &[u8], first: &'a [u8], second: &'a [u8]) -> &'a [u8]
    ensures { Handed (choice_of job.now first.now second.now) first.entry second.entry result }
{
    match which(job, first, second) {
        Ok(Chosen::First) => first,
        Ok(Chosen::Second) => second,
        Err(_) => &first[..0],
    }
}

// The refusal of a call with the same arguments, if there is one.
pub fn refusal_of(job: &[u8], first: &[u8], second: &[u8]) -> Option<Refusal>
    ensures refusal { result ≡ result_err (choice_of job.now first.now second.now) }
    ensures number { MatchOption result (number_of (choice_of job.now first.now second.now) ≡ 0) (λ x. number_of (choice_of job.now first.now second.now) ≡ refusal_number x) }
    ensures place { MatchOption result (place_of (choice_of job.now first.now second.now) ≡ 0) (λ x. place_of (choice_of job.now first.now second.now) ≡ refusal_place x) }
{
    which(job, first, second).err()
}
