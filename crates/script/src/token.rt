// The fields of a line. A token borrows its part of the line and holds its place.
ghost use Rattle.std.specs.Prelude.{◌≡◌, ◌<◌, ◌≤◌, length, take_while, MatchOption};
ghost use Rattle.std.specs.Char.{is_ascii_digit};
ghost use Rattle.script.specs.Tokens.{TokenAt};

// A field of a line: a letter is one byte, a number a row of digits, a blank one space.
// The three cases, each with its text and its place, stay as they are: a rule of the project fixes them.
#[derive(Clone, Copy, Debug)]
pub enum Token<'a> {
    Letter { text: &'a [u8], place: usize },
    Number { text: &'a [u8], place: usize },
    Blank { text: &'a [u8], place: usize },
}

// How many digits a text begins with.
fn digit_count(text: &[u8]) -> usize
    ensures { result ≡ length (take_while is_ascii_digit text.now) }
{
    text.iter().take_while(|byte| byte.is_ascii_digit()).count()
}

// The row of digits that a text begins with.
fn leading_digits(text: &[u8]) -> &[u8]
    ensures { result.now ≡ take_while is_ascii_digit text.now }
{
    &text[..digit_count(text)]
}

// The token at a place of the line; nothing at or past its end.
pub fn token_at<'a>(line: &'a [u8], at: usize) -> Option<Token<'a>>
    ensures { MatchOption result (length line.now ≤ at) (λ t. (at < length line.now) × TokenAt line.now at t) }
{
    let rest = line.get(at..)?;
    match rest.first()? {
        b' ' => Some(Token::Blank {
            text: &rest[..1],
            place: at,
        }),
        b'0'..=b'9' => Some(Token::Number {
            text: leading_digits(rest),
            place: at,
        }),
        _ => Some(Token::Letter {
            text: &rest[..1],
            place: at,
        }),
    }
}
