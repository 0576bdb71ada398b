// Answers written, and where they end a call.
ghost use Rattle.std.specs.Prelude.{◌≡◌, set};
ghost use Rattle.telling.specs.Answers.{number};
ghost use Rattle.telling.specs.Runs;

use crate::{NONE, Reduced, Run};

// Writes an answer, NONE for None, where its memory has a place for it.
pub fn tell(answer: Option<u32>, at: usize, answers: &mut [u32])
    ensures { answers.new ≡ set answers.old at (number answer) }
{
    if at < answers.len() {
        answers[at] = answer.unwrap_or(NONE);
    }
}

// A call that checks for dependence ends at the first None.
pub fn ended(check: bool, answer: Option<u32>, run: Run) -> Reduced
    ensures { result ≡ Runs.ended check answer run }
{
    match answer {
        None => {
            if check {
                return Reduced::Dependent(run);
            }
            Reduced::Taken(run)
        }
        Some(_) => Reduced::Taken(run),
    }
}
