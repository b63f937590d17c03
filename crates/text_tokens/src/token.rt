//! Tokens.

ghost use Rattle.std.specs.Prelude.{◌≡◌};
ghost use Rattle.text_tokens.specs.Marks.{mark_text};

/// A token of one or two bytes that are neither letters nor digits.
#[derive(Clone, Copy, Debug)]
pub enum Mark {
    OpenBrace,
    CloseBrace,
    OpenBracket,
    CloseBracket,
    OpenParen,
    CloseParen,
    Semicolon,
    Bar,
    Colon,
    Equals,
    Comma,
    Dollar,
    Tilde,
    /// `/\`
    And,
    /// `\/`
    Or,
}

impl Mark {
    /// How the mark is written.
    pub fn text(self) -> &'static [u8]
        ensures { result.now ≡ mark_text self }
    {
        match self {
            Mark::OpenBrace => b"{",
            Mark::CloseBrace => b"}",
            Mark::OpenBracket => b"[",
            Mark::CloseBracket => b"]",
            Mark::OpenParen => b"(",
            Mark::CloseParen => b")",
            Mark::Semicolon => b";",
            Mark::Bar => b"|",
            Mark::Colon => b":",
            Mark::Equals => b"=",
            Mark::Comma => b",",
            Mark::Dollar => b"$",
            Mark::Tilde => b"~",
            Mark::And => b"/\\",
            Mark::Or => b"\\/",
        }
    }
}

/// Why no token stands where one would have to begin.
#[derive(Clone, Copy, Debug)]
pub enum Bad {
    /// Digits past 4294967295, or digits with a letter or `_` behind them.
    Number,
    /// A `-`, with which no number begins.
    Minus,
    /// The text stops inside a token or a comment: behind half of `/\` or `\/`, or before the `*)` of a `(*`.
    Unfinished,
    /// Any other byte.
    Stray,
}

/// A token, with a word of its own.
#[derive(Drop)]
pub enum Token {
    Word(Vec<u8>),
    Number(u32),
    Mark(Mark),
    /// What is no token: here the text is read no further.
    Bad(Bad),
}
