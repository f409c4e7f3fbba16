//! Laws that no single call states. Each function is empty: its contract is the law.

ghost use Rattle.std.specs.Prelude.{◌≡◌, ◌≤◌, ◌-◌, ◌↔◌, ℕ, List, length, IsNone, IsOk, IfSome, IsSomeAnd, IfErr};
ghost use Rattle.std.specs.Str.{chars, IsUtf8};
ghost use Rattle.lol_css.specs.Tokens.{tokens};
ghost use Rattle.lol_css.specs.Reading.{selector};
ghost use Rattle.lol_css.specs.Accepting.{accept};
ghost use Rattle.lol_css.specs.Locating.{token_offset, error_location};

/// A text has no more tokens than code points.
pub fn tokens_are_no_more_than_code_points()
    ensures { (text : List ℕ) → length (tokens text) ≤ length text }
{}

/// A text has no location of an error exactly where it is accepted.
pub fn located_where_refused()
    ensures { (text : List ℕ) → (IsNone (error_location text) ↔ IsOk (accept text)) }
{}

/// The location of an error lies in the text.
pub fn locations_lie_in_the_text()
    ensures { (text : List ℕ) → IsUtf8 text → IfSome (error_location text) (λ location. location.offset ≤ length text) }
{}

/// Where a token is refused as the text is read, the location is that token's: the first of those that are left of the text there.
pub fn refused_tokens_are_located()
    ensures { (text : List ℕ) → IfErr (selector (tokens (chars text))) (λ refusal.
        IsSomeAnd (error_location text) (λ location.
        location.offset ≡ token_offset text (length (tokens (chars text)) - length refusal.left))) }
{}
