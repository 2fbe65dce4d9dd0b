// A place in a line, and how the line goes on there.
ghost use Rattle.std.specs.Prelude.{◌≡◌, ℕ, ◌≤◌, ◌↔◌, List, ◌∷◌, length, drop, IsTrue};
ghost use Rattle.script.specs.Readings.{ReadsOn, IsReading};
ghost use Rattle.script.specs.Fields.{NumberThen, SpacedThen, LastNumber, LetterThen};

use crate::number::value_of;
use crate::token::{Token, token_at};
use std::marker::Model;

// A place in a line, at its end at most. A clause sees the bytes that are left of the line there.
#[derive(Drop)]
pub(crate) struct Cursor<'a> {
    line: &'a [u8],
    at: usize,
}

impl<'a> Model for Cursor<'a> {
    ghost Value = { List ℕ };

    ghost view = { λ c. drop c.at c.line.now };

    ghost invariant = { λ c. c.at ≤ length c.line.now };
}

impl<'a> Cursor<'a> {
    // The first place of a line.
    pub(crate) fn start(line: &'a [u8]) -> Self
        ensures { result ≡ line.now }
    {
        Cursor { line, at: 0 }
    }

    // The place that many bytes further on.
    fn past(&self, count: usize) -> Self
        requires { count ≤ length self.now }
        ensures { result ≡ drop count self.now }
    {
        Cursor {
            line: self.line,
            at: self.at + count,
        }
    }

    // Whether nothing is left of the line.
    fn is_at_end(&self) -> bool
        ensures { IsTrue result ↔ (length self.now ≡ 0) }
    {
        self.at == self.line.len()
    }

    // The letter here, and the place after it; nothing where there is none.
    pub(crate) fn letter(&self) -> Option<(char, Self)>
        ensures { ReadsOn LetterThen self.now result }
    {
        match token_at(self.line, self.at)? {
            Token::Letter { text, .. } => Some((char::from(text[0]), self.past(text.len()))),
            _ => None,
        }
    }

    // The place after the blank here; nothing where there is none.
    fn past_blank(&self) -> Option<Self>
        ensures { IsReading (λ rest. self.now ≡ 32 ∷ rest) result }
    {
        match token_at(self.line, self.at)? {
            Token::Blank { text, .. } => Some(self.past(text.len())),
            _ => None,
        }
    }

    // The number here, and the place after it; nothing where there is none.
    fn number(&self) -> Option<(u16, Self)>
        ensures { ReadsOn NumberThen self.now result }
    {
        match token_at(self.line, self.at)? {
            Token::Number { text, .. } => Some((value_of(text)?, self.past(text.len()))),
            _ => None,
        }
    }

    // The number after one blank here, and the place after it; nothing where the line goes on otherwise.
    pub(crate) fn spaced_number(&self) -> Option<(u16, Self)>
        ensures { ReadsOn SpacedThen self.now result }
    {
        self.past_blank()?.number()
    }

    // The number after one blank here, if the line ends with it.
    pub(crate) fn last_number(&self) -> Option<u16>
        ensures { IsReading (LastNumber self.now) result }
    {
        let (value, end) = self.spaced_number()?;
        end.is_at_end().then_some(value)
    }
}
