//! Laws of what a text's tokens are.

ghost use Rattle.std.specs.Prelude.{◌≡◌, ℕ, List};
ghost use Rattle.text_tokens.specs.Tokens.{Tok, AreAllTokens};
ghost use Rattle.text_tokens.specs.Lexing.{Lexes, LexesTo};
ghost use Rattle.text_tokens.specs.Pieces.{Piece, text_of, tokens_of, AreApart};

/// A text has one list of tokens.
pub fn a_text_has_one_list_of_tokens()
    ensures { (text : List ℕ) (ts us : List Tok) → LexesTo text ts → LexesTo text us → ts ≡ us }
{}

/// What is read of a whole text are tokens.
pub fn a_whole_text_has_no_bad_token()
    ensures { (text : List ℕ) (ts : List Tok) → Lexes text ts → AreAllTokens ts }
{}

/// A text that was written in pieces is read as their tokens.
pub fn pieces_are_read_again()
    ensures { (ps : List Piece) → AreApart ps → Lexes (text_of ps) (tokens_of ps) }
{}
