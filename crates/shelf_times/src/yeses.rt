//! How many answers are a yes.
ghost use Rattle.std.specs.Prelude.{◌≡◌, count_by};
ghost use Rattle.shelf_times.specs.Yeses.{yes?};

use shelf::Answer;

fn is_yes(answer: &Answer) -> bool
    ensures { result ≡ yes? answer.now }
{
    matches!(*answer, Answer::Yes(_))
}

/// How many of the answers are a yes.
pub fn count_yeses(answers: &[Answer]) -> usize
    ensures { result ≡ count_by yes? answers.now }
{
    answers.iter().filter(|a| is_yes(a)).count()
}
