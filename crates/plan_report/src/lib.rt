// The listing of a stored plan: what reading its book says, as text (document 01, "Listing").
#![tactic(auto)]

ghost use Rattle.std.specs.Prelude.{◌≡◌, ◌≤◌, length, take};
ghost use Rattle.book.specs.Parse.{parse_plan};
ghost use Rattle.plan_report.specs.BookListed.{BookListed};

// The text of the plan that a book holds, or of the refusal of the book, as much of it as there is room for, and how many bytes that is.
pub fn list_book(book: &[u8], text: &mut [u8]) -> usize
    ensures listed { BookListed (parse_plan book.now) text.old text.new result }
    ensures within { (result ≤ length text.new) × (result ≡ length (take result text.new)) }
{
    match book::read(book) {
        Ok(_) => text::list_plan(book, text),
        Err(refusal) => text::list_refusal(refusal, text),
    }
}
