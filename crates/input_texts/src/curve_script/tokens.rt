//! The tokens of a line that are still to be taken.

ghost use Rattle.std.specs.Prelude.{◌≡◌, map};
ghost use Rattle.input_texts.specs.curve_script.Lexing.{view};
ghost use Rattle.input_texts.specs.curve_script.Building.{IsTaken, next_word, next_sign, behind_if, next_number, number_behind, next_at};

use crate::curve_script::shape::{is_at, same_sign};
use crate::curve_script::token::{Sign, Token};
use fraction128::Frac;
use std::marker::Model;

/// The tokens that are left of a line, in order.
#[derive(Drop)]
pub(crate) struct Tokens<'t, 'a> {
    rest: &'t [Token<'a>],
}

impl<'t, 'a> Model for Tokens<'t, 'a> {
    ghost use Rattle.std.specs.Prelude.{List, map};
    ghost use Rattle.input_texts.specs.curve_script.Tokens.{Token};

    ghost Value = { List Token };

    ghost use Rattle.input_texts.specs.curve_script.Lexing.{view as token_view};

    ghost view = { λ t. map token_view t.rest.now };
}

impl<'t, 'a> Tokens<'t, 'a> {
    /// All of them.
    pub(crate) fn of(tokens: &'t [Token<'a>]) -> Tokens<'t, 'a>
        ensures { result ≡ map view tokens.now }
    {
        Tokens { rest: tokens }
    }

    /// Takes the next token, if it is a word.
    pub(crate) fn word(&mut self) -> Option<&'a [u8]>
        ensures { IsTaken (λ w. w.now) self.new (next_word self.old) result }
    {
        match self.rest {
            [] => None,
            [Token::Word(word), rest @ ..] => {
                self.rest = rest;
                Some(*word)
            }
            [Token::Mark(_), ..] => None,
        }
    }

    /// Takes the next token, if it is this sign.
    pub(crate) fn takes_sign(&mut self, sign: Sign) -> bool
        ensures { behind_if result self.new ≡ next_sign sign self.old }
    {
        match self.rest {
            [] => false,
            [Token::Word(_), ..] => false,
            [Token::Mark(mark), rest @ ..] => {
                if !same_sign(sign, *mark) {
                    return false;
                }
                self.rest = rest;
                true
            }
        }
    }

    /// Takes the next token, if it is the word `at`.
    pub(crate) fn takes_at(&mut self) -> bool
        ensures { behind_if result self.new ≡ next_at self.old }
    {
        let Some(word) = self.word() else {
            return false;
        };
        is_at(word)
    }

    /// Takes the next token, if it is a word that writes a number.
    pub(crate) fn number(&mut self) -> Option<Frac>
        ensures { IsTaken (λ x. x) self.new (next_number self.old) result }
    {
        let Some(word) = self.word() else {
            return None;
        };
        match Frac::parse(word) {
            Ok(number) => Some(number),
            Err(_) => None,
        }
    }

    /// Takes a sign and a number.
    pub(crate) fn number_behind(&mut self, sign: Sign) -> Option<Frac>
        ensures { IsTaken (λ x. x) self.new (number_behind sign self.old) result }
    {
        if self.takes_sign(sign) {
            self.number()
        } else {
            None
        }
    }
}
