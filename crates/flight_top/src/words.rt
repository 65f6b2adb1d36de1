ghost use Rattle.std.specs.Prelude.{◌≡◌, ◌↔◌, ◌++◌, ◌^◌, ◌<◌, ◌≤◌, ℕ, codes, List, None, IfSome, IsTrue, MatchOption, string_bytes};
ghost use Rattle.flight_top.specs.Words.{IsNumber, AreNumbered, AreOf};
ghost use Rattle.flight_top.specs.Due.{texts};

/// The number that the words of a command ask for by its option, or the most where they have none.
pub fn numbered(words: &[String], command: &str, option: &str, most: usize) -> Option<usize>
    requires { 1 ≤ most }
    ensures is { MatchOption result (¬ (AreOf command.now option.now most (texts words.now))) (AreNumbered command.now option.now most (texts words.now)) }
    ensures within { IfSome result (λ n. (1 ≤ n) × (n ≤ most)) }
{
    match words {
        [word] if is_word(word, command) => Some(most),
        [word, joined] if is_word(word, command) => joined_number(joined.as_str(), option, most),
        [word, name, value] if is_word(word, command) && is_word(name, option) => {
            number_in(value.as_str(), most)
        }
        _ => None,
    }
}

/// Whether a word is this text.
pub fn is_word(word: &String, text: &str) -> bool
    ensures { IsTrue result ↔ (string_bytes word.now ≡ text.now) }
{
    word.as_str() == text
}

/// The number in a word with its option.
fn joined_number(text: &str, option: &str, most: usize) -> Option<usize>
    ensures some { IfSome result (λ n. (value : List ℕ) × (text.now ≡ option.now ++ codes "=" ++ value) × IsNumber most value n) }
    ensures none { result ≡ None → (value : List ℕ) (n : ℕ) → text.now ≡ option.now ++ codes "=" ++ value → ¬ (IsNumber most value n) }
{
    number_in(behind(behind(text, option)?, "=")?, most)
}

/// What stands behind a front of a text.
fn behind<'a>(text: &'a str, front: &str) -> Option<&'a str>
    ensures { MatchOption result ((rest : List ℕ) → ¬ (text.now ≡ front.now ++ rest)) (λ rest. text.now ≡ front.now ++ rest.now) }
{
    text.strip_prefix(front)
}

/// The number that a word spells, from 1 to the most.
fn number_in(text: &str, most: usize) -> Option<usize>
    ensures { MatchOption result ((n : ℕ) → ¬ (IsNumber most text.now n)) (IsNumber most text.now) }
{
    if text.is_empty() || text.len() > 10 || text.as_bytes()[0] == b'+' {
        return None;
    }
    match text.parse::<usize>() {
        Ok(number) if number >= 1 && number <= most => Some(number),
        _ => None,
    }
}
