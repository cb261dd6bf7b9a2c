// The words of the command line.
ghost use Rattle.std.specs.Prelude.{◌≡◌, ◌≢◌, ◌≤◌, ◌↔◌, ℕ, length, get_or, IsTrue, IfSome, option_map};
ghost use Rattle.commands.specs.Words.{asked, are_distinct as names_distinct, shrink_in, check_in, number_in, make_in};
ghost use Rattle.commands.specs.inside.Words.{meant, CanBeDone};

/// The three files that are named.
#[derive(Clone, Copy)]
pub struct Names<'a> {
    pub input: &'a str,
    pub output: &'a str,
    pub certificate: &'a str,
}

/// The file that is to be drawn.
#[derive(Clone, Copy)]
pub struct Drawing<'a> {
    /// The number from which all of it is drawn.
    pub number: u32,
    /// How many units it gets.
    pub units: u32,
    pub output: &'a str,
}

/// What is asked for: to write a file anew, to say whether that was done as promised, to say what it would win, or to write a file that is
/// drawn from a number.
#[derive(Clone, Copy)]
pub enum Command<'a> {
    Shrink(Names<'a>),
    Check(Names<'a>),
    Stat(&'a str),
    Make(Drawing<'a>),
}

// Whether no two of three names are the same.
fn are_distinct(input: &str, output: &str, certificate: &str) -> bool
    ensures { result ≡ names_distinct input.now output.now certificate.now }
{
    input != output && input != certificate && output != certificate
}

// What three words behind `shrink` ask for: the files have different names.
fn shrink_of<'a>(input: &'a str, output: &'a str, certificate: &'a str) -> Option<Command<'a>>
    ensures asked { option_map meant result ≡ shrink_in input.now output.now certificate.now }
    ensures right { IfSome result CanBeDone }
{
    if !are_distinct(input, output, certificate) {
        return None;
    }
    Some(Command::Shrink(Names {
        input,
        output,
        certificate,
    }))
}

// What three words behind `check` ask for: here too.
fn check_of<'a>(input: &'a str, output: &'a str, certificate: &'a str) -> Option<Command<'a>>
    ensures asked { option_map meant result ≡ check_in input.now output.now certificate.now }
    ensures right { IfSome result CanBeDone }
{
    if !are_distinct(input, output, certificate) {
        return None;
    }
    Some(Command::Check(Names {
        input,
        output,
        certificate,
    }))
}

// Whether digits are as they are written of a number: without a plus, and without a zero before others. `parse` takes both.
fn is_plain(word: &[u8]) -> bool
    ensures { IsTrue result ↔ ((get_or word.now 0 0 ≢ 43) × (get_or word.now 0 0 ≡ 48 → length word.now ≡ 1)) }
{
    match word {
        [b'+', ..] => false,
        [b'0', _, ..] => false,
        _ => true,
    }
}

// The number that a word is in decimal, where it is in a range.
fn number_of(word: &str, least: u32, most: u32) -> Option<u32>
    ensures read { result ≡ number_in least most word.now }
    ensures within { IfSome result (λ n. n ≤ most) }
{
    match word.parse::<u32>() {
        Ok(number) if is_plain(word.as_bytes()) && least <= number && number <= most => {
            Some(number)
        }
        _ => None,
    }
}

// What three words behind `make` ask for: a number of 32 bits, and 1 to 4,096 units.
fn make_of<'a>(number: &str, units: &str, output: &'a str) -> Option<Command<'a>>
    ensures asked { option_map meant result ≡ make_in number.now units.now output.now }
    ensures right { IfSome result CanBeDone }
{
    let number = number_of(number, 0, u32::MAX)?;
    let units = number_of(units, 1, 4096)?;
    Some(Command::Make(Drawing {
        number,
        units,
        output,
    }))
}

/// What is asked for, where the words are right.
pub fn command_of(words: &Vec<String>) -> Option<Command<'_>>
    ensures asked { option_map meant result ≡ asked words.now.items }
    ensures right { IfSome result CanBeDone }
{
    match words.as_slice() {
        [verb, a, b, c] => {
            if verb.as_str() == "shrink" {
                shrink_of(a.as_str(), b.as_str(), c.as_str())
            } else if verb.as_str() == "check" {
                check_of(a.as_str(), b.as_str(), c.as_str())
            } else if verb.as_str() == "make" {
                make_of(a.as_str(), b.as_str(), c.as_str())
            } else {
                None
            }
        }
        [verb, input] if verb.as_str() == "stat" => Some(Command::Stat(input.as_str())),
        _ => None,
    }
}
