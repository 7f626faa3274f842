//! What an error is one of.

/// What an error is one of.
#[derive(Clone, Copy, Debug, PartialEq)]
pub enum Family {
    /// The stages of a validation.
    Stage,
    /// Errors of handles.
    Handle,
    /// Errors of layouts.
    Layout,
    /// Errors of types.
    Type_,
    /// Errors of global expressions.
    ConstExpression,
    /// Errors of constants.
    Constant,
    /// Errors of overrides.
    Override,
    /// Errors of expressions of functions and entry points.
    Expression,
    /// Errors of a module as a whole.
    Module,
    /// Why an input or output is refused, or why a struct can't have its blend sources.
    Varying,
    /// Why a literal is refused.
    Literal,
    /// Why a width is refused.
    Width,
    /// Why a value can't be composed.
    Compose,
    /// Why an expression has no type.
    Resolve,
    /// Why a value has no length.
    IndexableLength,
    /// Errors of global variables.
    GlobalVariable,
    /// Errors of local variables.
    LocalVariable,
    /// Errors of what functions declare.
    FunctionDeclaration,
    /// Errors of entry points.
    EntryPoint,
    /// Why immediates can't hold a type.
    Immediate,
    /// Why a type has no layout in an address space.
    Disalignment,
}
