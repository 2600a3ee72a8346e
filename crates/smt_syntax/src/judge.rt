// The loop that judges a shape, over the tokens of an S-expression.

ghost use Rattle.std.specs.Prelude.{◌≡◌, ◌∷◌, [], is_ok, reverse, IfOk};
ghost use Rattle.smt_syntax.specs.Sexps.{sign_in, signs_in};
ghost use Rattle.smt_syntax.specs.Walk.{context_in, run};
ghost use Rattle.smt_syntax.specs.ShapeReader.{shape_reader};
ghost use Rattle.smt_syntax.specs.Judging.{handed, handed_by, opened_by, step_of, stack_of, Steps};

use crate::shape::{Frame, Part, Want, closed, context, opened, taken};
use crate::words::word_part;
use smt_text::token::{Token, TokenKind};
use std::alloc::{AllocError, Global};

/// What is wanted next, under these open lists.
fn wanted(want: Want, stack: &[Frame]) -> Want
    ensures { result ≡ context_in shape_reader want (stack_of stack.now) }
{
    match stack.last() {
        None => want,
        Some(frame) => context(*frame),
    }
}

/// Hands a part to its list. `Some` is the answer that ends the reading.
fn hand(stack: &mut Vec<Frame>, part: Part) -> Result<Option<bool>, AllocError>
    ensures { Steps (handed (stack_of stack.old.items) part) result stack.new.items }
{
    let Some(frame) = stack.pop() else {
        return Ok(Some(true));
    };
    let Some(frame) = taken(frame, part) else {
        return Ok(Some(false));
    };
    stack.push(frame)?;
    Ok(None)
}

fn hand_some(stack: &mut Vec<Frame>, part: Option<Part>) -> Result<Option<bool>, AllocError>
    ensures { Steps (handed_by (stack_of stack.old.items) part) result stack.new.items }
{
    match part {
        Some(part) => hand(stack, part),
        None => Ok(Some(false)),
    }
}

fn open_list(stack: &mut Vec<Frame>, frame: Option<Frame>) -> Result<Option<bool>, AllocError>
    ensures { Steps (opened_by frame (stack_of stack.old.items)) result stack.new.items }
{
    let Some(frame) = frame else {
        return Ok(Some(false));
    };
    stack.push(frame)?;
    Ok(None)
}

/// One token more.
fn step(want: Want, stack: &mut Vec<Frame>, token: &Token<'_>) -> Result<Option<bool>, AllocError>
    ensures { Steps (step_of want (stack_of stack.old.items) (sign_in token.now)) result
        stack.new.items }
{
    match token.kind {
        TokenKind::Open => {
            let frame = opened(wanted(want, stack));
            open_list(stack, frame)
        }
        TokenKind::Close => match stack.pop() {
            None => Ok(Some(false)),
            Some(frame) => hand_some(stack, closed(frame)),
        },
        _ => {
            let part = word_part(wanted(want, stack), token.kind, token.text);
            hand_some(stack, part)
        }
    }
}

/// Whether the tokens are of the shape that is wanted.
pub fn is_shape(alloc: Global, want: Want, tokens: &[Token<'_>]) -> Result<bool, AllocError>
    ensures { IfOk result (λ b. b ≡ is_ok (run shape_reader want [] tt (signs_in tokens.now))) }
{
    let mut stack: Vec<Frame> = Vec::new(alloc);
    for token in tokens {
        match step(want, &mut stack, token)? {
            Some(answer) => return Ok(answer),
            None => {}
        }
    }
    Ok(false)
}
