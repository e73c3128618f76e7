//! Answers as text.

ghost use Rattle.std.specs.Prelude.{◌≡◌, ◌++◌, map, OnOk, IfOk, Some};
ghost use Rattle.std.specs.List.{flat_map};
ghost use Rattle.upp_curve.specs.affine_segment.Pieces.{Each};
ghost use Rattle.curve_lang.specs.Answers.{NumberIs, TruthIs};
ghost use Rattle.upp_curve.specs.affine_segment.Fits.{LineFitsAt};
ghost use Rattle.fraction128.specs.Text.{text_of};
ghost use Rattle.input_texts.specs.plain_text.Numbers.{number_text};
ghost use Rattle.curve_lang.specs.Texts.{word_text, truth_text, after_text, piece_text, tail_text, ranked_text, step_text, repeated_text, curve_text, answer_text, answers_text};
ghost use Rattle.curve_lang.specs.Views.{answer_view};

use crate::answer::{Answer, Word};
use fraction128::{Ext, Frac};
use rational::Extended;
use std::alloc::{AllocError, Global};
use upp_curve::affine_segment::{Line, Piece, line_value};
use upp_curve::{Curve, Tail};

fn word_text(word: Word) -> &'static str
    ensures { result.now ≡ word_text word }
{
    match word {
        Word::Value => "value",
        Word::Rate => "rate",
        Word::Delay => "delay",
        Word::Backlog => "backlog",
        Word::Equal => "equal",
        Word::Below => "below",
    }
}

fn add_text(out: &mut Vec<u8>, text: &str) -> Result<(), AllocError>
    ensures { OnOk result (out.new.items ≡ out.old.items ++ text.now) }
{
    out.extend_from_slice(text.as_bytes())
}

fn add_number(out: &mut Vec<u8>, x: Ext) -> Result<(), AllocError>
    ensures { OnOk result (out.new.items ≡ out.old.items ++ number_text x) }
{
    match x {
        Extended::Inf => add_text(out, "unbounded"),
        Extended::Fin(number) => number.print(out),
    }
}

fn add_truth(out: &mut Vec<u8>, holds: bool) -> Result<(), AllocError>
    ensures { OnOk result (out.new.items ≡ out.old.items ++ truth_text holds) }
{
    add_text(out, if holds { "true" } else { "false" })
}

fn add_line(out: &mut Vec<u8>, x: Frac, line: Line) -> Result<(), AllocError>
    requires { LineFitsAt x (Some line) }
    ensures { OnOk result (out.new.items ≡ out.old.items ++ after_text x (Some line)) }
{
    let slope = line.slope;
    add_text(out, " after ")?;
    add_number(out, line_value(Some(line), x))?;
    add_text(out, " slope ")?;
    slope.print(out)
}

// The value just after a start, and the slope of the line there.
fn add_after(out: &mut Vec<u8>, x: Frac, line: Option<Line>) -> Result<(), AllocError>
    requires { LineFitsAt x line }
    ensures { OnOk result (out.new.items ≡ out.old.items ++ after_text x line) }
{
    match line {
        None => add_text(out, " after unbounded"),
        Some(l) => add_line(out, x, l),
    }
}

fn add_piece(out: &mut Vec<u8>, piece: &Piece) -> Result<(), AllocError>
    requires { LineFitsAt piece.now.x piece.now.line }
    ensures { OnOk result (out.new.items ≡ out.old.items ++ piece_text piece.now) }
{
    add_text(out, "piece ")?;
    piece.x.print(out)?;
    add_text(out, " at ")?;
    add_number(out, piece.at)?;
    add_after(out, piece.x, piece.line)?;
    add_text(out, "\n")
}

// Words and a number.
fn add_part(out: &mut Vec<u8>, words: &str, x: &Frac) -> Result<(), AllocError>
    ensures { OnOk result (out.new.items ≡ out.old.items ++ words.now ++ text_of x.now) }
{
    add_text(out, words)?;
    x.print(out)
}

fn add_step(out: &mut Vec<u8>, period: &Frac, rise: &Frac) -> Result<(), AllocError>
    ensures { OnOk result (out.new.items ≡ out.old.items ++ step_text period.now rise.now) }
{
    add_part(out, " ", period)?;
    add_part(out, " ", rise)?;
    add_text(out, "\n")
}

fn add_repeated(
    out: &mut Vec<u8>,
    words: &str,
    rank: &Frac,
    period: &Frac,
    rise: &Frac,
) -> Result<(), AllocError>
    ensures { OnOk result (out.new.items ≡ out.old.items ++ repeated_text words.now rank.now period.now rise.now) }
{
    add_part(out, words, rank)?;
    add_step(out, period, rise)
}

fn add_ranked(out: &mut Vec<u8>, words: &str, rank: &Frac) -> Result<(), AllocError>
    ensures { OnOk result (out.new.items ≡ out.old.items ++ ranked_text words.now rank.now) }
{
    add_part(out, words, rank)?;
    add_text(out, "\n")
}

fn add_tail(out: &mut Vec<u8>, tail: &Tail) -> Result<(), AllocError>
    ensures { OnOk result (out.new.items ≡ out.old.items ++ tail_text tail.now) }
{
    match tail {
        Tail::Periodic { rank, period, rise } => add_repeated(
            out,
            "tail periodic ",
            rank,
            period,
            rise,
        ),
        Tail::Affine { rank } => add_ranked(out, "tail affine ", rank),
        Tail::Infinite { rank } => add_ranked(out, "tail infinite ", rank),
    }
}

fn add_pieces(out: &mut Vec<u8>, pieces: &[Piece]) -> Result<(), AllocError>
    requires { Each (λ p. LineFitsAt p.x p.line) pieces.now }
    ensures { OnOk result (out.new.items ≡ out.old.items ++ flat_map piece_text pieces.now) }
{
    for piece in pieces {
        add_piece(out, piece)?;
    }
    Ok(())
}

fn add_curve(out: &mut Vec<u8>, c: &Curve) -> Result<(), AllocError>
    ensures { OnOk result (out.new.items ≡ out.old.items ++ curve_text c.now) }
{
    add_pieces(out, c.pieces())?;
    add_tail(out, c.tail())
}

fn add_number_line(out: &mut Vec<u8>, word: Word, value: Ext) -> Result<(), AllocError>
    ensures { OnOk result (out.new.items ≡ out.old.items ++ answer_text (NumberIs word value)) }
{
    add_text(out, word_text(word))?;
    add_text(out, " ")?;
    add_number(out, value)?;
    add_text(out, "\n")
}

fn add_truth_line(out: &mut Vec<u8>, word: Word, holds: bool) -> Result<(), AllocError>
    ensures { OnOk result (out.new.items ≡ out.old.items ++ answer_text (TruthIs word holds)) }
{
    add_text(out, word_text(word))?;
    add_text(out, " ")?;
    add_truth(out, holds)?;
    add_text(out, "\n")
}

fn add_answer(out: &mut Vec<u8>, answer: &Answer) -> Result<(), AllocError>
    ensures { OnOk result (out.new.items ≡ out.old.items ++ answer_text (answer_view answer.now)) }
{
    match answer {
        Answer::Number { word, value } => add_number_line(out, *word, *value),
        Answer::Truth { word, holds } => add_truth_line(out, *word, *holds),
        Answer::Shown(curve) => add_curve(out, curve),
    }
}

/// The answers as text: a line each, and of a curve that is shown a line for each piece and one for its tail. Fractions
/// are in lowest terms, and infinity is `unbounded`. Refused only for want of memory.
pub fn answer_text(alloc: Global, answers: &[Answer]) -> Result<Vec<u8>, AllocError>
    ensures { IfOk result (λ v. v.items ≡ answers_text (map answer_view answers.now)) }
{
    let mut out = Vec::new(alloc);
    for answer in answers {
        add_answer(&mut out, answer)?;
    }
    Ok(out)
}
