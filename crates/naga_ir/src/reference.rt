//! What items refer to.

use naga_arena::handle::Handle;
use naga_arena::range::Range;
use naga_arena::tags::{
    ConstantTag, DiagnosticFilterNodeTag, ExpressionTag, FunctionTag, GlobalVariableTag,
    LocalVariableTag, OverrideTag, TypeTag,
};

/// What a type, an expression, a statement or another item refers to. It may be dangling.
#[derive(Clone, Copy, Debug, PartialEq, Eq)]
pub enum Reference {
    /// A type of the module.
    Type_(Handle<TypeTag>),
    /// A constant of the module.
    Constant(Handle<ConstantTag>),
    /// An override of the module.
    Override(Handle<OverrideTag>),
    /// A variable of the module.
    GlobalVariable(Handle<GlobalVariableTag>),
    /// An expression: of the same function, or outside of functions a global one.
    Expression(Handle<ExpressionTag>),
    /// A variable of the same function.
    LocalVariable(Handle<LocalVariableTag>),
    /// A function of the module.
    Function(Handle<FunctionTag>),
    /// A diagnostic filter of the module.
    DiagnosticFilterNode(Handle<DiagnosticFilterNodeTag>),
    /// The expressions of a range, which a statement emits.
    Emit(Range<ExpressionTag>),
}
