// Chooses between two plan books of a job (document 02, C-17). Its arguments are the names of files: JOB FIRST SECOND [OUT]. It prints which book is to be staked
// from, or the refusal; where a book is chosen, its bytes go to OUT, if that is named.
#![tactic(auto)]

use console::{Output, Screen};
use std::env::Env;
use std::io;
use std::io::Stderr;
use std::rt::Files;

// Opens the file that an argument names, and says so where it cannot.
fn open<R: Files + Env>(rt: &R, errors: &mut Output<Stderr>, argument: usize) -> Option<R::File> {
    let mut name = [0u8; 4096];
    let n = console::argument(rt, argument, &mut name);
    match console::open(rt, &name[..n]) {
        Ok(file) => Some(file),
        Err(error) => {
            errors.put_error(&name[..n], error);
            None
        }
    }
}

// Prints what is chosen, or the refusal. The text buffer has room for every text (`choice_whole` of choice_report).
fn print(screen: &mut Screen, job: &[u8], first: &[u8], second: &[u8]) {
    let mut text = [0u8; 72];
    let n = choice_report::list_choice(job, first, second, &mut text);
    screen.put(&text[..n]);
}

// Writes a book to the file that an argument names, or says why it cannot.
fn store<R: Files + Env>(rt: &R, errors: &mut Output<Stderr>, book: &[u8], argument: usize) {
    let mut name = [0u8; 4096];
    let n = console::argument(rt, argument, &mut name);
    if let Err(error) = console::store(rt, &name[..n], book) {
        errors.put_error(&name[..n], error);
    }
}

// The book that is chosen goes to the file OUT as it was lent. No book that can be chosen is empty: no bytes are a refusal, and OUT is left alone.
fn store_chosen<'a, R: Files + Env>(
    rt: &R,
    errors: &mut Output<Stderr>,
    job: &[u8],
    first: &'a [u8],
    second: &'a [u8],
) {
    let chosen = choice::choose(job, first, second);
    if !chosen.is_empty() {
        store(rt, errors, chosen, 4);
    }
}

// The first 640 bytes of the job and the first 36,887 of each book decide (`choice_prefix` of choice_report), and a book that is chosen has no more (`choice_in`).
fn read<R: Files + Env>(
    rt: &R,
    screen: &mut Screen,
    errors: &mut Output<Stderr>,
    mut job_file: R::File,
    mut first_file: R::File,
    mut second_file: R::File,
    stores: bool,
) -> io::Result<()> {
    let mut job = [0u8; 640];
    let n = console::read_full(&mut job_file, &mut job)?;
    let mut first = [0u8; 36887];
    let f = console::read_full(&mut first_file, &mut first)?;
    let mut second = [0u8; 36887];
    let s = console::read_full(&mut second_file, &mut second)?;
    print(screen, &job[..n], &first[..f], &second[..s]);
    if stores {
        store_chosen(rt, errors, &job[..n], &first[..f], &second[..s]);
    }
    Ok(())
}

fn main(rt: HostRuntime) -> io::Result<()> {
    let mut screen = Output::new(rt.stdout());
    let mut errors = Output::new(rt.stderr());
    let words = console::argument_count(&rt, 6);
    if words < 4 || words > 5 {
        errors.put(
            b"usage: plan_choice JOB FIRST SECOND [OUT]: files of a job and of two plan books of it, and one for the chosen book\n",
        );
        return errors.end();
    }
    let job_file = open(&rt, &mut errors, 1);
    let first_file = open(&rt, &mut errors, 2);
    let second_file = open(&rt, &mut errors, 3);
    if let (Some(job), Some(first), Some(second)) = (job_file, first_file, second_file) {
        read(
            &rt,
            &mut screen,
            &mut errors,
            job,
            first,
            second,
            words == 5,
        )?;
    }
    screen.end()?;
    errors.end()
}
