//! Lines and columns, kept while bytes are passed.
ghost use Rattle.std.specs.Prelude.{◌≡◌, ◌+◌, ◌<◌, ◌^◌, ◌-◌, ℕ, List, [], ◌++◌, length};
ghost use Rattle.mesa_lexer.specs.Positions.{IsBehind, passed, place_of, step_over};

use mesa_base::Place;

/// A line and a column, kept while bytes are passed. A line feed behind a carriage return ends no further line.
#[derive(Clone, Copy)]
pub struct Position {
    line: u32,
    column: u32,
    after_return: bool,
}

impl Position {
    /// The first line and column.
    pub fn start() -> Position
        ensures { IsBehind result [] }
    {
        Position {
            line: 1,
            column: 1,
            after_return: false,
        }
    }

    fn step_over(self, byte: u8) -> Position
        requires lines { self.line < 2 ^ 32 - 1 }
        requires columns { self.column < 2 ^ 32 - 1 }
        ensures { result ≡ step_over self byte }
    {
        let feeds = byte == b'\n';
        let returns = byte == b'\r';
        if !feeds && !returns {
            return Position {
                line: self.line,
                column: self.column + 1,
                after_return: false,
            };
        }
        let line = if feeds && self.after_return {
            self.line
        } else {
            self.line + 1
        };
        Position {
            line,
            column: 1,
            after_return: returns,
        }
    }

    /// The position behind these bytes, which stand here.
    pub fn behind(self, bytes: &[u8]) -> Position
        requires lines { self.line + length bytes.now < 2 ^ 32 }
        requires columns { self.column + length bytes.now < 2 ^ 32 }
        ensures { result ≡ passed self bytes.now }
    {
        let mut position = self;
        for byte in bytes {
            position = position.step_over(*byte);
        }
        position
    }

    /// The place here, behind so many tokens.
    pub fn place(self, tokens: usize) -> Place
        requires { tokens < 2 ^ 32 }
        ensures { result ≡ place_of self tokens }
    {
        Place {
            token: tokens as u32,
            line: self.line,
            column: self.column,
        }
    }
}
