//! The expressions that words describe, one function a form.

ghost use Rattle.naga_text.specs.LineWords.{lines_after, words_left};
ghost use Rattle.naga_text.specs.Words.{handle_of};
ghost use Rattle.naga_text.specs.ExpressionReaders.{binary_of, compose_of, constant_expression_of, expression_of, fixed_expression_readers, literal_expression_of, override_expression_of, splat_of, unary_of, zero_value_of};
ghost use Rattle.naga_text.specs.WordForms.{read_by, read_each};
ghost use Rattle.std.specs.Prelude.{◌≡◌, IfOk, map};

use crate::line_words::LineWords;
use crate::literals::literal;
use crate::number::handle;
use crate::words::{binary_operator, equals, size, unary_operator};
use naga_ir::OutOfMemory;
use naga_ir::expression::Expression;
use naga_ir::handle::Handle;
use naga_ir::list::List;
use naga_ir::tags::ExpressionTag;
use std::alloc::Global;

/// The most words after the form of an expression other than `compose`: a binary operation has as many.
const MOST_WORDS: usize = 3;

fn literal_expression(words: &[&[u8]]) -> Option<Expression>
    ensures { result ≡ literal_expression_of (map (λ w. w.now) words.now) }
{
    let [ty, value] = words else { return None };
    Some(Expression::Literal(literal(ty, value)?))
}

fn constant_expression(words: &[&[u8]]) -> Option<Expression>
    ensures { result ≡ constant_expression_of (map (λ w. w.now) words.now) }
{
    let [constant] = words else { return None };
    Some(Expression::Constant(handle(constant)?))
}

fn override_expression(words: &[&[u8]]) -> Option<Expression>
    ensures { result ≡ override_expression_of (map (λ w. w.now) words.now) }
{
    let [id] = words else { return None };
    Some(Expression::Override(handle(id)?))
}

fn zero_value(words: &[&[u8]]) -> Option<Expression>
    ensures { result ≡ zero_value_of (map (λ w. w.now) words.now) }
{
    let [ty] = words else { return None };
    Some(Expression::ZeroValue(handle(ty)?))
}

fn splat(words: &[&[u8]]) -> Option<Expression>
    ensures { result ≡ splat_of (map (λ w. w.now) words.now) }
{
    let [components, value] = words else {
        return None
    };
    Some(Expression::Splat {
        size: size(components)?,
        value: handle(value)?,
    })
}

fn unary(words: &[&[u8]]) -> Option<Expression>
    ensures { result ≡ unary_of (map (λ w. w.now) words.now) }
{
    let [op, value] = words else { return None };
    Some(Expression::Unary {
        op: unary_operator(op)?,
        expr: handle(value)?,
    })
}

fn binary(words: &[&[u8]]) -> Option<Expression>
    ensures { result ≡ binary_of (map (λ w. w.now) words.now) }
{
    let [op, left, right] = words else {
        return None
    };
    Some(Expression::Binary {
        op: binary_operator(op)?,
        left: handle(left)?,
        right: handle(right)?,
    })
}

/// The components of the words that are left, if each is one.
fn components(
    alloc: Global,
    words: &mut LineWords,
) -> Result<Option<List<Handle<ExpressionTag>>>, OutOfMemory>
    ensures read { IfOk result (λ read. read ≡ read_each handle_of (words_left words.old)) }
    ensures lines { lines_after words.new ≡ lines_after words.old }
{
    let mut components = List::new(alloc);
    while let Some(word) = words.next() {
        match handle(word) {
            Some(component) => components.push(component)?,
            None => return Ok(None),
        }
    }
    Ok(Some(components))
}

/// The expression of the words after `compose`.
///
/// # Errors
///
/// `OutOfMemory` if a request for memory was refused.
pub fn compose(alloc: Global, words: &mut LineWords) -> Result<Option<Expression>, OutOfMemory>
    ensures read { IfOk result (λ read. read ≡ compose_of (words_left words.old)) }
    ensures lines { lines_after words.new ≡ lines_after words.old }
{
    let Some(ty) = words.next() else {
        return Ok(None);
    };
    let Some(ty) = handle(ty) else {
        return Ok(None);
    };
    match components(alloc, words)? {
        Some(components) => Ok(Some(Expression::Compose { ty, components })),
        None => Ok(None),
    }
}

/// The expression of a form other than `compose`, and of the words after it.
pub fn fixed_expression(form: &[u8], words: &[&[u8]]) -> Option<Expression>
    ensures { result ≡ read_by fixed_expression_readers form.now (map (λ w. w.now) words.now) }
{
    match form {
        _ if equals(form, b"lit") => literal_expression(words),
        _ if equals(form, b"const") => constant_expression(words),
        _ if equals(form, b"override") => override_expression(words),
        _ if equals(form, b"zero") => zero_value(words),
        _ if equals(form, b"splat") => splat(words),
        _ if equals(form, b"unary") => unary(words),
        _ if equals(form, b"binary") => binary(words),
        _ => None,
    }
}

/// The expression of a form other than `compose`, and of the words after it, of which only so many are read as such a
/// form has.
fn short_expression(form: &[u8], words: &mut LineWords) -> Option<Expression>
    ensures read { result ≡ read_by fixed_expression_readers form.now (words_left words.old) }
    ensures lines { lines_after words.new ≡ lines_after words.old }
{
    let mut room: [&[u8]; MOST_WORDS] = [&[]; MOST_WORDS];
    fixed_expression(form, words.all(&mut room)?)
}

/// The expression of the words after `expr`. Only the components of a composition take memory.
///
/// # Errors
///
/// `OutOfMemory` if a request for memory was refused.
pub fn expression(alloc: Global, words: &mut LineWords) -> Result<Option<Expression>, OutOfMemory>
    ensures read { IfOk result (λ read. read ≡ expression_of (words_left words.old)) }
    ensures lines { lines_after words.new ≡ lines_after words.old }
{
    let Some(form) = words.next() else {
        return Ok(None);
    };
    if equals(form, b"compose") {
        compose(alloc, words)
    } else {
        Ok(short_expression(form, words))
    }
}
