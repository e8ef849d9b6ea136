// Which line decided? Answers, for each path of a listing on standard input, what rule files say of it, and the entry, the file
// and the line that decided. `whichline --help` says how it is asked.
#![tactic(auto)]

mod arguments;
mod asking;
mod buffers;
mod fields;
mod given;
mod listing;
mod messages;
mod reading;
mod written;

use crate::messages::Said;

// Whether any argument asks for help.
fn wants_help(rt: HostRuntime) -> bool {
    (1..arguments::count(rt)).any(|i| arguments::is(rt, i, b"--help"))
}

// Reads what is asked, and answers it.
fn answer(rt: HostRuntime) -> Result<(), Said> {
    let mut name = io::buffer();
    let question = arguments::what_is_asked(rt, &mut name)?;
    asking::run(rt, question)
}

fn main(rt: HostRuntime) {
    if wants_help(rt) {
        messages::help(rt);
        return;
    }
    // What went wrong was said where it did.
    let _ = answer(rt);
}
