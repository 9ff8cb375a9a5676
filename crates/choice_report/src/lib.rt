// The text of a choice between two plan books of a job: which of them is to be staked from, or the refusal (document 02, C-17).
#![tactic(auto)]

ghost use Rattle.std.specs.Prelude.{◌≡◌, ◌≤◌, length, take};
ghost use Rattle.book.specs.Parse.{parse_plan};
ghost use Rattle.choice.specs.Choice.{choice_of};
ghost use Rattle.text.specs.Listed.{Listed};
ghost use Rattle.choice_report.specs.ChoiceText.{trench_of, choice_text};

use choice::Chosen;

// The trench figure of a book, 0 where the book is refused.
fn trench_of(book: &[u8]) -> u32
    ensures { result ≡ trench_of (parse_plan book.now) }
{
    book::figures_of(book).map_or(0, |head| head.trench)
}

// The text of the choice between two plan books of a job, or of its refusal, as much of it as there is room for, and how many bytes that is.
pub fn list_choice(job: &[u8], first: &[u8], second: &[u8], text: &mut [u8]) -> usize
    ensures listed { Listed
        (choice_text (choice_of job.now first.now second.now) (trench_of (parse_plan first.now)) (trench_of (parse_plan second.now)))
        text.old text.new result }
    ensures within { (result ≤ length text.new) × (result ≡ length (take result text.new)) }
{
    match choice::which(job, first, second) {
        Ok(Chosen::First) => text::list_chosen(false, trench_of(first), trench_of(second), text),
        Ok(Chosen::Second) => text::list_chosen(true, trench_of(second), trench_of(first), text),
        Err(refusal) => text::list_refusal(refusal, text),
    }
}
