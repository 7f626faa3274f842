//! Who answers which query.

ghost use Rattle.naga_query.specs.Accepted.{AreHandlesRight, IsAcceptedModule};

use crate::answers::declarations::add_declarations;
use crate::answers::exchange::add_exchange;
use crate::answers::functions::{add_functions, add_last};
use crate::answers::leaves::{add_leaf_at, add_leaves};
use crate::answers::modules::{
    add_error, add_fault, add_handles, add_not_applicable, add_order, check_handles,
};
use crate::answers::overloads::add_overloads;
use crate::answers::shaders::{add_callable, add_callables};
use crate::answers::slots::{add_of_type, add_range, add_size, add_through};
use crate::answers::texts::{add_read, add_run, add_unreadable, bytes_of};
use crate::answers::types::{
    add_compose, add_expressions, add_literal, add_type, add_types, add_width,
};
use crate::answers::typing::{
    add_index, add_inferred_types, add_kind, add_last_typed, add_length, add_same,
    add_size as add_size_in_bytes,
};
use crate::query::{
    AcceptedQuery, ChangeQuery, FunctionQuery, HandleQuery, ModuleQuery, Query, TextQuery,
    needs_module, query_of,
};
use crate::session::{Session, Sessions};
use naga_module_text::declarations::Callable;
use naga_module_text::draft::Draft;
use naga_module_text::items::only_word;
use naga_module_text::labels::Labels;
use naga_text::number::index;
use naga_valid::{FullTyping, Module, ModuleInfo, OutOfMemory, PlainTyping};
use std::alloc::{AllocError, Global};

/// A case: its lines without labels, its labels, and the module that the lines describe.
#[derive(Drop)]
pub struct Case {
    pub text: String,
    pub labels: Labels,
    pub draft: Draft,
}

/// The words of a text, which single spaces part.
fn words_of(alloc: Global, text: &str) -> Result<Vec<&[u8]>, AllocError> {
    if text.is_empty() {
        return Ok(Vec::new(alloc));
    }
    text.as_bytes().split(|byte| *byte == b' ').collect(alloc)
}

/// Adds the answer to a query about bytes.
fn add_on_bytes(
    alloc: Global,
    answer: &mut String,
    query: TextQuery,
    bytes: &[u8],
) -> Result<(), OutOfMemory> {
    match query {
        TextQuery::Run => Ok(add_run(alloc, answer, bytes)?),
        TextQuery::Read => match str::from_utf8(bytes) {
            Ok(text) => add_read(alloc, answer, text),
            Err(_) => Ok(add_not_applicable(answer, "not UTF-8")?),
        },
    }
}

/// Adds the answer to a query about the bytes that a text in quotes stands for.
fn add_on_text(
    alloc: Global,
    answer: &mut String,
    query: TextQuery,
    quoted: &str,
) -> Result<(), OutOfMemory> {
    match bytes_of(alloc, quoted)? {
        Some(bytes) => add_on_bytes(alloc, answer, query, &bytes),
        None => Ok(add_not_applicable(answer, "no text in quotes")?),
    }
}

/// Adds the answer to a query about any module.
fn add_on_module(
    session: &mut Session<PlainTyping>,
    answer: &mut String,
    query: ModuleQuery,
    words: &[&[u8]],
    draft: &Draft,
) -> Result<(), OutOfMemory> {
    let alloc = session.alloc();
    match query {
        ModuleQuery::Handles => Ok(add_handles(alloc, answer, &draft.module)?),
        ModuleQuery::Order => Ok(add_order(alloc, answer, &draft.module)?),
        ModuleQuery::Literal => Ok(add_literal(session, answer, draft.settings, words)?),
        ModuleQuery::Width => Ok(add_width(session, answer, draft.settings, words)?),
        ModuleQuery::Range => Ok(add_range(answer, words)?),
        ModuleQuery::Exchange => add_exchange(alloc, answer, &draft.module, words),
    }
}

/// Adds the answer to a query about a module whose handles are right.
fn add_on_right_handles(
    alloc: Global,
    answer: &mut String,
    query: HandleQuery,
    words: &[&[u8]],
    draft: &Draft,
) -> Result<(), OutOfMemory>
    requires { AreHandlesRight draft.now.«module» }
{
    let module = &draft.module;
    match query {
        HandleQuery::Leaves => add_leaves(alloc, answer, module, words),
        HandleQuery::Leaf => Ok(add_leaf_at(alloc, answer, module, words)?),
        HandleQuery::TypeSlots => Ok(add_of_type(answer, module, words)?),
        HandleQuery::PointerSlots => Ok(add_through(answer, module, words)?),
        HandleQuery::Kind => add_kind(alloc, answer, draft, words),
        HandleQuery::Length => Ok(add_length(answer, module, words)?),
        HandleQuery::Size => Ok(add_size_in_bytes(answer, module, words)?),
        HandleQuery::Same => Ok(add_same(answer, module, words)?),
        HandleQuery::Index => Ok(add_index(answer, module, words)?),
        HandleQuery::Infer => add_inferred_types(alloc, answer, module, words),
        HandleQuery::Overloads => add_overloads(alloc, answer, module, words),
    }
}

/// Adds the answer to a query about a module if its handles are right, or which handle is wrong.
fn add_on_handles(
    alloc: Global,
    answer: &mut String,
    query: HandleQuery,
    words: &[&[u8]],
    draft: &Draft,
) -> Result<(), OutOfMemory> {
    match check_handles(alloc, &draft.module) {
        Ok(()) => add_on_right_handles(alloc, answer, query, words, draft),
        Err(fault) => Ok(add_fault(answer, &fault)?),
    }
}

/// Adds the answer to a query about an accepted module.
fn add_on_accepted(
    session: &Session<PlainTyping>,
    answer: &mut String,
    query: AcceptedQuery,
    words: &[&[u8]],
    accepted: (&Module, &ModuleInfo),
) -> Result<(), OutOfMemory>
    requires { IsAcceptedModule accepted.0.now session.now.validator.infos accepted.1.now.lists }
{
    let (module, info) = accepted;
    match query {
        AcceptedQuery::Validate => Ok(answer.push_str("ok\n")?),
        AcceptedQuery::Types => add_types(session, answer, module),
        AcceptedQuery::Type => add_type(session, answer, module, words),
        AcceptedQuery::Expressions => Ok(add_expressions(answer, info)?),
        AcceptedQuery::Compose => add_compose(session.alloc(), answer, module, info, words),
        AcceptedQuery::ImmediateSize => Ok(add_size(answer, module)?),
    }
}

/// Adds the answer to a query about a module if it is accepted, or why it isn't.
fn add_on_validated(
    session: &mut Session<PlainTyping>,
    answer: &mut String,
    query: AcceptedQuery,
    words: &[&[u8]],
    draft: &Draft,
) -> Result<(), OutOfMemory> {
    match session.validate(draft) {
        Ok(info) => add_on_accepted(session, answer, query, words, (&draft.module, &info)),
        Err(error) => add_error(answer, &error),
    }
}

/// The function or entry point of a query.
fn callable_of(query: FunctionQuery, words: &[&[u8]]) -> Option<Callable> {
    let index = index(only_word(words)?)?;
    Some(match query {
        FunctionQuery::Function => Callable::Function(index),
        FunctionQuery::EntryPoint => Callable::EntryPoint(index),
    })
}

/// Adds what is known of a function or an entry point.
fn add_on_function(
    session: &mut Session<FullTyping>,
    answer: &mut String,
    query: FunctionQuery,
    words: &[&[u8]],
    draft: &Draft,
) -> Result<(), OutOfMemory> {
    match callable_of(query, words) {
        Some(callable) => add_callable(session, answer, draft, callable),
        None => Ok(add_not_applicable(answer, "not an index")?),
    }
}

/// The lines of a case with another form in the line of a label.
fn with_form(alloc: Global, case: &Case, words: &str) -> Result<Option<String>, AllocError> {
    let Some((label, form)) = words.split_once(' ') else {
        return Ok(None);
    };
    let Some(place) = case.labels.line(label) else {
        return Ok(None);
    };
    let mut text = String::new(alloc);
    for (number, line) in case.text.as_str().lines().enumerate() {
        if number == place {
            write!(text, "f {form}\n")?;
        } else {
            write!(text, "{line}\n")?;
        }
    }
    Ok(Some(text))
}

/// The lines of a case with the change that a query names.
fn changed(
    alloc: Global,
    query: ChangeQuery,
    case: &Case,
    words: &str,
) -> Result<Option<String>, AllocError> {
    let text = case.text.as_str();
    match query {
        ChangeQuery::Functions => Ok(Some(String::from_str(alloc, text)?)),
        ChangeQuery::Form | ChangeQuery::Typing => {
            Ok(Some(format!(in alloc; "{text}f {words}\n")?))
        }
        ChangeQuery::With => with_form(alloc, case, words),
    }
}

/// Adds the answer to a query about a module with a change.
fn add_on_changed(
    sessions: &mut Sessions,
    answer: &mut String,
    query: ChangeQuery,
    draft: &Draft,
) -> Result<(), OutOfMemory> {
    if draft.unreadable.is_some() {
        return Ok(add_not_applicable(answer, "not a form")?);
    }
    match query {
        ChangeQuery::Functions => add_functions(&mut sessions.plain, answer, draft),
        ChangeQuery::Form => add_last(&mut sessions.plain, answer, draft),
        ChangeQuery::Typing => add_last_typed(sessions.alloc, answer, draft),
        ChangeQuery::With => match draft.declarations.last {
            Some(last) => add_callable(&mut sessions.full, answer, draft, last),
            None => Ok(add_not_applicable(answer, "no function")?),
        },
    }
}

/// Whether a query needs literals in the place of arguments that a function doesn't have.
fn needs_stand_ins(query: ChangeQuery) -> bool {
    match query {
        ChangeQuery::Functions | ChangeQuery::Form => true,
        ChangeQuery::Typing | ChangeQuery::With => false,
    }
}

/// Adds the answer to a query about the module of a text, which is a case with a change.
fn add_on_changed_text(
    sessions: &mut Sessions,
    answer: &mut String,
    query: ChangeQuery,
    text: &str,
) -> Result<(), OutOfMemory> {
    let draft = sessions.draft(text, needs_stand_ins(query))?;
    add_on_changed(sessions, answer, query, &draft)
}

/// Adds the answer to a query about the module of a case, read once more with a change.
fn add_on_change(
    sessions: &mut Sessions,
    answer: &mut String,
    query: ChangeQuery,
    words: &str,
    case: &Case,
) -> Result<(), OutOfMemory> {
    match changed(sessions.alloc, query, case, words)? {
        Some(text) => add_on_changed_text(sessions, answer, query, text.as_str()),
        None => Ok(add_not_applicable(answer, "no label and form")?),
    }
}

/// Adds the answer to a query about a case.
fn add_on_case(
    sessions: &mut Sessions,
    answer: &mut String,
    query: Query,
    rest: &str,
    case: &Case,
) -> Result<(), OutOfMemory> {
    let alloc = sessions.alloc;
    let resolved = case.labels.replaced(rest)?;
    let words = words_of(alloc, resolved.as_str())?;
    let draft = &case.draft;
    let plain = &mut sessions.plain;
    match query {
        Query::Report => Ok(add_run(alloc, answer, case.text.as_bytes())?),
        Query::Text(asked) => add_on_text(alloc, answer, asked, rest),
        Query::Module(asked) => add_on_module(plain, answer, asked, &words, draft),
        Query::Handle(asked) => add_on_handles(alloc, answer, asked, &words, draft),
        Query::Accepted(asked) => add_on_validated(plain, answer, asked, &words, draft),
        Query::Function(asked) => {
            add_on_function(&mut sessions.full, answer, asked, &words, draft)
        }
        Query::Callables => add_callables(&mut sessions.full, answer, draft),
        Query::Declaration(asked) => add_declarations(&mut sessions.full, answer, draft, asked),
        Query::Change(asked) => add_on_change(sessions, answer, asked, resolved.as_str(), case),
    }
}

/// Adds the answer to a query, in lines that end with a line feed each.
pub fn add_answer(
    sessions: &mut Sessions,
    answer: &mut String,
    query: &str,
    case: &Case,
) -> Result<(), OutOfMemory> {
    let (word, rest) = query.split_once(' ').unwrap_or((query, ""));
    let Some(asked) = query_of(word.as_bytes()) else {
        return Ok(add_not_applicable(answer, "no such query")?);
    };
    if let Some(line) = case.draft.unreadable
        && needs_module(asked)
    {
        return Ok(add_unreadable(answer, line)?);
    }
    add_on_case(sessions, answer, asked, rest, case)
}
