//! The words of queries.

use naga_text::words::chosen;

/// Queries about any bytes, also bytes that describe no module.
#[derive(Clone, Copy)]
pub enum TextQuery {
    Run,
    Read,
}

/// Queries about any module, and under any settings.
#[derive(Clone, Copy)]
pub enum ModuleQuery {
    Handles,
    Order,
    Literal,
    Width,
    Range,
    Exchange,
}

/// Queries about a module whose handles are right.
#[derive(Clone, Copy)]
pub enum HandleQuery {
    Leaves,
    Leaf,
    TypeSlots,
    PointerSlots,
    Kind,
    Length,
    Size,
    Same,
    Index,
    Infer,
    Overloads,
}

/// Queries about an accepted module.
#[derive(Clone, Copy)]
pub enum AcceptedQuery {
    Validate,
    Types,
    Type,
    Expressions,
    Compose,
    ImmediateSize,
}

/// Queries about a function or an entry point by its index.
#[derive(Clone, Copy)]
pub enum FunctionQuery {
    Function,
    EntryPoint,
}

/// Queries about what a module declares besides types and values.
#[derive(Clone, Copy)]
pub enum DeclarationQuery {
    Variables,
    Interfaces,
    Declarations,
}

/// Queries about a module that is read once more, with a change.
#[derive(Clone, Copy)]
pub enum ChangeQuery {
    Functions,
    Form,
    Typing,
    With,
}

/// What a query is about.
#[derive(Clone, Copy)]
pub enum Query {
    Report,
    Text(TextQuery),
    Module(ModuleQuery),
    Handle(HandleQuery),
    Accepted(AcceptedQuery),
    Function(FunctionQuery),
    Callables,
    Declaration(DeclarationQuery),
    Change(ChangeQuery),
}

/// The query of a word.
pub fn query_of(word: &[u8]) -> Option<Query> {
    let queries = [
        ("report", Query::Report),
        ("run", Query::Text(TextQuery::Run)),
        ("read", Query::Text(TextQuery::Read)),
        ("handles", Query::Module(ModuleQuery::Handles)),
        ("order", Query::Module(ModuleQuery::Order)),
        ("literal", Query::Module(ModuleQuery::Literal)),
        ("width", Query::Module(ModuleQuery::Width)),
        ("range", Query::Module(ModuleQuery::Range)),
        ("exchange", Query::Module(ModuleQuery::Exchange)),
        ("leaves", Query::Handle(HandleQuery::Leaves)),
        ("leaf", Query::Handle(HandleQuery::Leaf)),
        ("typeslots", Query::Handle(HandleQuery::TypeSlots)),
        ("pointerslots", Query::Handle(HandleQuery::PointerSlots)),
        ("kind", Query::Handle(HandleQuery::Kind)),
        ("length", Query::Handle(HandleQuery::Length)),
        ("size", Query::Handle(HandleQuery::Size)),
        ("same", Query::Handle(HandleQuery::Same)),
        ("index", Query::Handle(HandleQuery::Index)),
        ("infer", Query::Handle(HandleQuery::Infer)),
        ("overloads", Query::Handle(HandleQuery::Overloads)),
        ("validate", Query::Accepted(AcceptedQuery::Validate)),
        ("types", Query::Accepted(AcceptedQuery::Types)),
        ("type", Query::Accepted(AcceptedQuery::Type)),
        ("expressions", Query::Accepted(AcceptedQuery::Expressions)),
        ("compose", Query::Accepted(AcceptedQuery::Compose)),
        (
            "immediatesize",
            Query::Accepted(AcceptedQuery::ImmediateSize),
        ),
        ("function", Query::Function(FunctionQuery::Function)),
        ("entry", Query::Function(FunctionQuery::EntryPoint)),
        ("callables", Query::Callables),
        ("variables", Query::Declaration(DeclarationQuery::Variables)),
        (
            "interfaces",
            Query::Declaration(DeclarationQuery::Interfaces),
        ),
        (
            "declarations",
            Query::Declaration(DeclarationQuery::Declarations),
        ),
        ("functions", Query::Change(ChangeQuery::Functions)),
        ("form", Query::Change(ChangeQuery::Form)),
        ("typing", Query::Change(ChangeQuery::Typing)),
        ("with", Query::Change(ChangeQuery::With)),
    ];
    chosen(&queries, word)
}

/// Whether a query is about the module of a case.
pub fn needs_module(query: Query) -> bool {
    match query {
        Query::Report | Query::Text(_) => false,
        Query::Module(_)
        | Query::Handle(_)
        | Query::Accepted(_)
        | Query::Function(_)
        | Query::Callables
        | Query::Declaration(_)
        | Query::Change(_) => true,
    }
}
