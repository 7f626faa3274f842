//! The stages of a validation: which item breaks a rule.

ghost use Rattle.naga_error_text.specs.Stages.{stage_cause, stage_parts, stages};
ghost use Rattle.naga_error_text.specs.Numbers.{numbered};
ghost use Rattle.naga_error_text.specs.steps.Pieces.{are_short, piece_text};
ghost use Rattle.std.specs.Prelude.{◌≡◌, IsTrue, map};

use crate::families::Family;
use crate::names::Names;
use crate::numbers::numbered;
use crate::pieces::Piece::{Name, Number, Words};
use crate::pieces::Place::{Expression, Index, Kind};
use crate::pieces::{Piece, Values};

/// Which item breaks a rule.
#[derive(Clone, Copy, Debug, PartialEq)]
pub enum Stage {
    /// A handle or range is not right.
    Handle,
    /// A type has no layout.
    Layout,
    /// A type breaks its rule.
    Type_,
    /// A global expression breaks its rule.
    GlobalExpression,
    /// A constant breaks its rule.
    Constant,
    /// An override breaks its rule.
    Override,
    /// An expression of a function breaks its rule.
    Function,
    /// An expression of an entry point breaks its rule.
    EntryPoint,
    /// The module as a whole breaks a rule. No call returns it.
    Module,
    /// A global variable breaks its rule.
    GlobalVariable,
    /// A function declares what it may not.
    Declarations,
    /// An entry point breaks its rule.
    Interface,
}

/// The stage of a number, if there is one.
pub(crate) fn stage_of(number: u32) -> Option<Stage>
    ensures { result ≡ numbered stages number }
{
    numbered(
        &[
            Stage::Handle,
            Stage::Layout,
            Stage::Type_,
            Stage::GlobalExpression,
            Stage::Constant,
            Stage::Override,
            Stage::Function,
            Stage::EntryPoint,
            Stage::Module,
            Stage::GlobalVariable,
            Stage::Declarations,
            Stage::Interface,
        ],
        number,
    )
}

/// The pieces of the text of a stage.
pub(crate) fn stage_pieces(stage: Stage) -> &'static [Piece]
    ensures text { (values : Values) → map (piece_text values) result.now ≡ stage_parts stage values }
    ensures short { IsTrue (are_short result.now) }
{
    match stage {
        Stage::Handle => &[
            Words("Handle or range ["),
            Number(Index),
            Words("] of "),
            Name(Names::ItemKinds, Kind),
            Words(" is invalid: "),
        ],
        Stage::Layout => &[
            Words("Error laying out type ["),
            Number(Index),
            Words("]: "),
        ],
        Stage::Type_ => &[Words("Type ["), Number(Index), Words("] is invalid: ")],
        Stage::GlobalExpression => &[
            Words("Constant expression ["),
            Number(Index),
            Words("] is invalid: "),
        ],
        Stage::Constant => &[Words("Constant ["), Number(Index), Words("] is invalid: ")],
        Stage::Override => &[Words("Override ["), Number(Index), Words("] is invalid: ")],
        Stage::Function => &[
            Words("Expression ["),
            Number(Expression),
            Words("] of function ["),
            Number(Index),
            Words("] is invalid: "),
        ],
        Stage::EntryPoint => &[
            Words("Expression ["),
            Number(Expression),
            Words("] of entry point ["),
            Number(Index),
            Words("] is invalid: "),
        ],
        Stage::Module => &[Words("The module is invalid: ")],
        Stage::GlobalVariable => &[
            Words("Global variable ["),
            Number(Index),
            Words("] is invalid: "),
        ],
        Stage::Declarations => &[Words("Function ["), Number(Index), Words("] is invalid: ")],
        Stage::Interface => &[
            Words("Entry point ["),
            Number(Index),
            Words("] is invalid: "),
        ],
    }
}

/// What the error of a stage is one of.
pub(crate) fn stage_cause(stage: Stage) -> Family
    ensures { result ≡ stage_cause stage }
{
    match stage {
        Stage::Handle => Family::Handle,
        Stage::Layout => Family::Layout,
        Stage::Type_ => Family::Type_,
        Stage::GlobalExpression => Family::ConstExpression,
        Stage::Constant => Family::Constant,
        Stage::Override => Family::Override,
        Stage::Function | Stage::EntryPoint => Family::Expression,
        Stage::Module => Family::Module,
        Stage::GlobalVariable => Family::GlobalVariable,
        Stage::Declarations => Family::FunctionDeclaration,
        Stage::Interface => Family::EntryPoint,
    }
}
