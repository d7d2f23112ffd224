//! A form with a cursor, and what the characters of a graph do to it.
//!
//! The characters on each side of the cursor are a stack whose top is beside the cursor, so each
//! operator takes one step. `specs/Strokes.antt` has the table of the operators.

ghost use Rattle.std.specs.Prelude.{◌≡◌, Some, IfOk, chars, map, option_map};
ghost use Rattle.ux_inflect.specs.Strokes.{all_stroked, also, at_end, stroked};
ghost use Rattle.ux_inflect.specs.Places.{cursor_of, outlined, stroke_by};
ghost use Rattle.ux_inflect.specs.declared.stroke.Stroke.TheVariants.{Back, Copy, Delete, Forth, Write};

use crate::stroke::{Detail, Stroke, Taking, kept, stroke_from};
use std::alloc::Global;
use ux_base::Mem;

/// A form with a cursor.
#[derive(PartialEq, Eq, Hash, Drop)]
pub(crate) struct Form {
    /// The characters on the left of the cursor, the nearest last.
    pub left: Vec<char>,
    /// Those on its right, the nearest last too.
    pub right: Vec<char>,
}

/// The lemma with the cursor at its right end.
pub(crate) fn form_of(alloc: Global, lemma: &str, detail: Detail) -> Mem<Form>
    ensures { IfOk result (λ form. cursor_of form ≡ outlined detail (at_end lemma.now)) }
{
    let mut left = Vec::with_capacity(alloc, lemma.len())?;
    for c in lemma.chars() {
        left.push(kept(detail, c))?;
    }
    Ok(Form {
        left,
        right: Vec::new(alloc),
    })
}

/// A copy of the form.
pub(crate) fn copy_of(alloc: Global, form: &Form) -> Mem<Form>
    ensures { IfOk result (λ copy. cursor_of copy ≡ cursor_of form.now) }
{
    let left = Vec::from_slice(alloc, form.left.as_slice())?;
    let right = Vec::from_slice(alloc, form.right.as_slice())?;
    Ok(Form { left, right })
}

/// The form after each character of the text has done what it does; none where one can't.
pub(crate) fn take_text(form: Form, text: &str, taking: Taking, detail: Detail) -> Mem<Option<Form>>
    ensures { IfOk result (λ after. option_map cursor_of after ≡
        all_stroked (map (stroke_by taking detail) (chars text.now)) (Some (cursor_of form))) }
{
    let mut form = Some(form);
    for c in text.chars() {
        form = take_stroke(form, stroke_from(taking, detail, c))?;
    }
    Ok(form)
}

/// The form, if there is one, after the stroke; none where it can't be done.
fn take_stroke(form: Option<Form>, stroke: Stroke) -> Mem<Option<Form>>
    ensures { IfOk result (λ after.
        option_map cursor_of after ≡ also stroke (option_map cursor_of form)) }
{
    match form {
        Some(form) => done(form, stroke),
        None => Ok(None),
    }
}

/// The form after the stroke; none where it can't be done.
fn done(form: Form, stroke: Stroke) -> Mem<Option<Form>>
    ensures { IfOk result (λ after.
        option_map cursor_of after ≡ stroked stroke (cursor_of form).left (cursor_of form).right) }
{
    match stroke {
        Stroke::Back => back(form),
        Stroke::Forth => forth(form),
        Stroke::Copy => copied(form),
        Stroke::Delete => Ok(deleted(form)),
        Stroke::Write(c) => written(form, c),
    }
}

/// The form with the cursor one left.
fn back(form: Form) -> Mem<Option<Form>>
    ensures { IfOk result (λ after.
        option_map cursor_of after ≡ stroked Back (cursor_of form).left (cursor_of form).right) }
{
    let Form { left, right } = form;
    let mut left = left;
    let mut right = right;
    let Some(c) = left.pop() else {
        return Ok(None);
    };
    right.push(c)?;
    Ok(Some(Form { left, right }))
}

/// The form with the cursor one right.
fn forth(form: Form) -> Mem<Option<Form>>
    ensures { IfOk result (λ after.
        option_map cursor_of after ≡ stroked Forth (cursor_of form).left (cursor_of form).right) }
{
    let Form { left, right } = form;
    let mut left = left;
    let mut right = right;
    match right.pop() {
        Some(c) => left.push(c)?,
        None => return Ok(None),
    }
    Ok(Some(Form { left, right }))
}

/// The form with a copy of what is on the right put on the left.
fn copied(form: Form) -> Mem<Option<Form>>
    ensures { IfOk result (λ after.
        option_map cursor_of after ≡ stroked Copy (cursor_of form).left (cursor_of form).right) }
{
    let Form { left, right } = form;
    let mut left = left;
    let Some(c) = right.last() else {
        return Ok(None);
    };
    left.push(*c)?;
    Ok(Some(Form { left, right }))
}

/// The form without what is on the left.
fn deleted(form: Form) -> Option<Form>
    ensures { option_map cursor_of result ≡ stroked Delete (cursor_of form).left (cursor_of form).right }
{
    let Form { left, right } = form;
    let mut left = left;
    left.pop()?;
    Some(Form { left, right })
}

/// The form with the character written.
fn written(form: Form, c: char) -> Mem<Option<Form>>
    ensures { IfOk result (λ after.
        option_map cursor_of after ≡ stroked (Write c) (cursor_of form).left (cursor_of form).right) }
{
    let Form { left, right } = form;
    let mut left = left;
    let mut right = right;
    right.pop();
    left.push(c)?;
    Ok(Some(Form { left, right }))
}
