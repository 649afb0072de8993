//! Where a message on tokens stands.
ghost use Rattle.std.specs.Prelude.{◌≡◌, ℕ, ◌<◌, All};
ghost use Rattle.asl_syntax.specs.Place as spec;

use asl_lexer::token::Token;
use iasl_messages::place::Place;

/// The first character of the main file.
const FIRST_PLACE: Place = Place {
    file: 0,
    line: 1,
    column: 1,
};

fn place_behind(token: &Token) -> Place
    ensures { result ≡ spec.place_behind token.now }
{
    Place {
        column: token.end,
        ..token.place
    }
}

/// The place of the token of this number, counted from 0; behind the last token where there is none of that number, as
/// where the end is missed; or the first character of the main file where there is no token.
pub fn place_at(tokens: &[Token], number: u32) -> Place
    ensures exact { result ≡ spec.place_at tokens.now number }

    // It is in one of the files that the tokens stand in.
    ensures within { (files : ℕ) → 0 < files → All (λ token. token.place.file < files) tokens.now → result.file < files }
{
    match (tokens.get(number as usize), tokens.last()) {
        (Some(token), _) => token.place,
        (None, Some(last)) => place_behind(last),
        (None, None) => FIRST_PLACE,
    }
}
