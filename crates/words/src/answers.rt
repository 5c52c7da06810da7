// What a call answers: a value, or why not (specs/Answers.antt).
ghost use Rattle.std.specs.Prelude.{◌≡◌};
ghost use Rattle.words.specs.Answers.{answered, code};

use super::refusals::Refusal;

// For C: 0 where it is done, else the refusal's number.
pub fn code<T: Drop>(answer: Result<T, Refusal>) -> u32
    ensures { result ≡ code (answered answer) }
{
    match answer {
        Ok(_) => 0,
        Err(why) => why.number(),
    }
}
