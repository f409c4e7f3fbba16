//! A text as tokens, with one token of look-ahead.

ghost use Rattle.std.specs.Prelude.{◌≡◌, List, [], length, drop, None, Some};
ghost use Rattle.std.specs.Option.{option_map};
ghost use Rattle.lol_css.specs.Points.{first_passes};
ghost use Rattle.lol_css.specs.Tokens as tokens;
ghost use Rattle.lol_css.specs.Tokens.{tokens_of, with_first};
ghost use Rattle.lol_css.specs.Rules.{skip_space, is_delim, required_token, ident_of, at_end, at_stop, block_end};
ghost use Rattle.lol_css.specs.Views.{token_of, points_of, IsFirst, nesting_of, Reads, IsRequired};
ghost use Rattle.lol_css.specs.declared.error.SelectorError.TheVariants.{UnexpectedToken};

use crate::error::{Read, SelectorError};
use crate::syntax::texts::Name;
use crate::syntax::tokens::{FirstToken, Token, count_tokens, first_token};
use std::marker::Model;

/// What is open innermost.
#[derive(Clone, Copy, Debug, PartialEq, Eq)]
pub(crate) enum Nesting {
    Outside,
    InFunction,
    InBrackets,
}

/// The tokens that are left.
#[derive(Drop)]
pub(crate) struct Reader<'a> {
    first: FirstToken<'a>,
}

impl<'a> Model for Reader<'a> {
    ghost use Rattle.std.specs.Prelude.{◌≡◌, List, [], None};
    ghost use Rattle.lol_css.specs.Tokens as tokens;

    ghost Value = { List tokens.Token };

    ghost use Rattle.std.specs.Option.{option_map};
    ghost use Rattle.lol_css.specs.Tokens.{tokens_of, with_first};
    ghost use Rattle.lol_css.specs.Views.{token_of};

    ghost view = { λ r. with_first (option_map token_of r.first.token) (tokens_of r.first.after.now) };

    ghost invariant = { λ r. (r.first.token ≡ None → tokens_of r.first.after.now ≡ [])
        × (tokens_of r.first.start.now
        ≡ with_first (option_map token_of r.first.token) (tokens_of r.first.after.now)) };
}

impl<'a> Reader<'a> {
    pub(crate) fn new(text: &'a [char]) -> Reader<'a>
        ensures { result ≡ tokens_of text.now }
    {
        Reader {
            first: first_token(text),
        }
    }

    /// The text of the tokens that are left.
    pub(crate) fn rest(&self) -> &'a [char]
        ensures { tokens_of result.now ≡ self.now }
    {
        self.first.start
    }

    pub(crate) fn count(&self) -> usize
        ensures { result ≡ length self.now }
    {
        count_tokens(self.first.start)
    }

    /// The token that comes next, which stays.
    pub(crate) fn peek(&self) -> Option<Token<'a>>
        ensures { IsFirst self.now (option_map token_of result) (drop 1 self.now) }
    {
        self.first.token
    }

    pub(crate) fn advance(&mut self)
        ensures { self.new ≡ drop 1 self.old }
    {
        self.first = first_token(self.first.after);
    }

    #[tactic(auto, using(crate::proofs::Spaces::space_steps))]
    pub(crate) fn skip_space(&mut self)
        ensures { self.new ≡ skip_space self.old }
    {
        while let Some(Token::Space) = self.peek() {
            self.advance();
        }
    }

    /// Whether what is open ends here.
    pub(crate) fn is_at_end(&self, nesting: Nesting) -> bool
        ensures { result ≡ at_end (nesting_of nesting) self.now }
    {
        match self.peek() {
            None => true,
            Some(Token::Delim(')')) => nesting == Nesting::InFunction,
            Some(Token::Delim(']')) => nesting == Nesting::InBrackets,
            _ => false,
        }
    }

    pub(crate) fn is_at_delim(&self, sign: char) -> bool
        ensures { result ≡ first_passes (is_delim sign) self.now }
    {
        matches!(self.peek(), Some(Token::Delim(c)) if c == sign)
    }

    /// Whether an item of a list ends here.
    pub(crate) fn is_at_stop(&self, nesting: Nesting) -> bool
        ensures { result ≡ at_stop (nesting_of nesting) self.now }
    {
        self.is_at_end(nesting) || self.is_at_delim(',')
    }

    /// The token that is wanted here, which stays: `UnexpectedEnd` where what is open ends.
    #[tactic(auto, unfolding(crate::specs::Rules::required_token))]
    pub(crate) fn expect(&self, nesting: Nesting) -> Read<Token<'a>>
        ensures { IsRequired (nesting_of nesting) result self.now }
    {
        if self.is_at_end(nesting) {
            return Err(SelectorError::UnexpectedEnd);
        }
        self.peek().ok_or(SelectorError::UnexpectedEnd)
    }

    /// The name that is wanted here, which is taken: `UnexpectedEnd` where what is open ends, `other` at another token.
    #[tactic(auto, unfolding(crate::specs::Rules::required_token))]
    pub(crate) fn expect_name(&mut self, nesting: Nesting, other: SelectorError) -> Read<Name<'a>>
        ensures { Reads points_of result self.new (required_token (nesting_of nesting) ident_of other self.old) }
    {
        match self.expect(nesting)? {
            Token::Ident(name) => {
                self.advance();
                Ok(name)
            }
            _ => Err(other),
        }
    }

    /// White space and the end of what is open, which is taken: `UnexpectedToken` at anything else.
    #[tactic(auto, unfolding(crate::specs::Rules::block_end))]
    pub(crate) fn close(&mut self, nesting: Nesting) -> Read<()>
        ensures { Reads (λ x. x) result self.new (block_end (nesting_of nesting) self.old) }
    {
        self.skip_space();
        if !self.is_at_end(nesting) {
            return Err(SelectorError::UnexpectedToken);
        }
        self.advance();
        Ok(())
    }
}
