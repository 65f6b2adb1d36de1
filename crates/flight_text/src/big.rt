ghost use Rattle.flight_text.specs.Big.{IsBig};
ghost use Rattle.flight_text.specs.Answer.{Answers};

use crate::mark::Marked;

/// The number that decimal digits spell, perhaps behind a minus.
pub fn read_big(digits: &str) -> Result<i128, Marked>
    ensures { Answers (IsBig digits.now) result }
{
    if digits.starts_with('+') {
        return Err(Marked::BadToken);
    }
    match digits.parse() {
        Ok(big) => Ok(big),
        Err(_) => Err(Marked::BadToken),
    }
}
