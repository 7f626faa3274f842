//! The items that errors name.

use naga_valid::{
    ComposeError, ConstExpressionError, ExpressionError, ExpressionTag, FwdDepError,
    GlobalVariableError, Handle, InvalidHandleError, LocalVariableError, OverrideError, TypeError,
    TypeInner, TypeTag, VaryingError,
};
use naga_verdict::item::{Item, Owner};

/// The items that an error names: at most four.
#[derive(Clone, Copy, Default)]
pub struct Names {
    pub first: Option<Item>,
    pub second: Option<Item>,
    pub third: Option<Item>,
    pub fourth: Option<Item>,
}

/// One item.
fn one(item: Item) -> Names {
    Names {
        first: Some(item),
        ..Names::default()
    }
}

/// Two items.
fn two(first: Item, second: Item) -> Names {
    Names {
        first: Some(first),
        second: Some(second),
        ..Names::default()
    }
}

/// A type.
fn of_type(ty: &Handle<TypeTag>) -> Item {
    Item::Type_(ty.index())
}

/// A global expression.
fn of_global(expression: &Handle<ExpressionTag>) -> Item {
    Item::GlobalExpression(expression.index())
}

/// The item of a kind, if items of the kind stand in the module itself.
fn of_kind(kind: &str, index: usize) -> Option<Item> {
    match kind {
        "Type" => Some(Item::Type_(index)),
        "Constant" => Some(Item::Constant(index)),
        "Override" => Some(Item::Override(index)),
        "GlobalVariable" => Some(Item::GlobalVariable(index)),
        "Function" => Some(Item::Function(index)),
        "DiagnosticFilterNode" => Some(Item::DiagnosticFilter(index)),
        _ => None,
    }
}

/// The item that depends on one which doesn't precede it.
pub fn subject_of(error: &FwdDepError) -> Option<Item> {
    of_kind(error.subject_kind(), error.subject())
}

/// The type that another type is made of, or that a pointer points to.
fn base_of(inner: &TypeInner) -> Option<Item> {
    match inner {
        TypeInner::Pointer { base, .. }
        | TypeInner::Array { base, .. }
        | TypeInner::BindingArray { base, .. } => Some(of_type(base)),
        _ => None,
    }
}

/// The items that an error of handles names besides its subject.
pub fn of_handle_error(error: &InvalidHandleError) -> Names {
    match error {
        InvalidHandleError::ForwardDependency(error) => Names {
            first: of_kind(error.depends_on_kind(), error.depends_on()),
            ..Names::default()
        },
        InvalidHandleError::BadHandle(_) | InvalidHandleError::BadRange(_) => Names::default(),
    }
}

/// The types that an error of inputs, outputs or blend sources names.
pub fn of_varying_error(error: &VaryingError) -> Names {
    match error {
        VaryingError::BlendSrcOutputTypeMismatch {
            blend_src_0_type,
            blend_src_1_type,
        } => two(of_type(blend_src_0_type), of_type(blend_src_1_type)),
        VaryingError::InvalidType(ty) | VaryingError::NotIOShareableType(ty) => one(of_type(ty)),
        _ => Names::default(),
    }
}

/// The items that an error of a type names.
pub fn of_type_error(error: &TypeError) -> Names {
    match error {
        TypeError::InvalidPointerBase(ty)
        | TypeError::InvalidPointerToUnsized { base: ty, .. }
        | TypeError::InvalidData(ty)
        | TypeError::InvalidArrayBaseType(ty)
        | TypeError::InvalidDynamicArray(_, ty)
        | TypeError::BindingArrayBaseTypeNotStruct(ty)
        | TypeError::UnresolvedOverride(ty)
        | TypeError::InvalidArraySize(ty) => one(of_type(ty)),
        TypeError::UnsupportedSpecializedArrayLength(constant) => {
            one(Item::Constant(constant.index()))
        }
        TypeError::InvalidBlendSrc(error) => of_varying_error(error),
        _ => Names::default(),
    }
}

/// The type that an error of a composition names.
fn of_compose_error(error: &ComposeError) -> Names {
    match error {
        ComposeError::Type_(ty) => one(of_type(ty)),
        ComposeError::ComponentCount { .. } | ComposeError::ComponentType { .. } => {
            Names::default()
        }
    }
}

/// The items that an error of a global expression names.
pub fn of_const_expression_error(error: &ConstExpressionError) -> Names {
    match error {
        ConstExpressionError::Compose(error) => of_compose_error(error),
        ConstExpressionError::InvalidSplatType(operand) => one(of_global(operand)),
        _ => Names::default(),
    }
}

/// The items that an error of an override names.
pub fn of_override_error(error: &OverrideError) -> Names {
    match error {
        OverrideError::ConstExpression { handle, .. } => one(of_global(handle)),
        _ => Names::default(),
    }
}

/// The type that an error of a variable of a module names.
pub fn of_global_variable_error(error: &GlobalVariableError) -> Names {
    match error {
        GlobalVariableError::Alignment(_, ty, _) | GlobalVariableError::InvalidBindingArray(ty) => {
            one(of_type(ty))
        }
        _ => Names::default(),
    }
}

/// The type that an error of a local variable names.
pub fn of_local_variable_error(error: &LocalVariableError) -> Names {
    match error {
        LocalVariableError::InvalidType(ty) => one(of_type(ty)),
        LocalVariableError::InitializerType | LocalVariableError::NonConstOrOverrideInitializer => {
            Names::default()
        }
    }
}

/// The operand that an error of an expression names.
fn operand_of(error: &ExpressionError) -> Option<Handle<ExpressionTag>> {
    match error {
        ExpressionError::InvalidBaseType(operand)
        | ExpressionError::InvalidIndexType(operand)
        | ExpressionError::NegativeIndex(operand)
        | ExpressionError::IndexOutOfBounds(operand, _)
        | ExpressionError::InvalidPointerType(operand)
        | ExpressionError::InvalidArrayType(operand)
        | ExpressionError::InvalidRayQueryType(operand)
        | ExpressionError::InvalidSplatType(operand)
        | ExpressionError::InvalidVectorType(operand)
        | ExpressionError::InvalidUnaryOperandType(_, operand)
        | ExpressionError::InvalidBooleanVector(operand)
        | ExpressionError::InvalidFloatArgument(operand)
        | ExpressionError::InvalidImageArrayIndexType(operand)
        | ExpressionError::InvalidImageOtherIndexType(operand)
        | ExpressionError::InvalidImageCoordinateType(_, operand)
        | ExpressionError::InvalidSampleOffset(_, operand)
        | ExpressionError::InvalidDepthReference(operand)
        | ExpressionError::InvalidSampleLevelExactType(operand)
        | ExpressionError::InvalidSampleLevelBiasType(operand)
        | ExpressionError::InvalidSampleLevelGradientType(_, operand)
        | ExpressionError::InvalidArgumentType(_, _, operand)
        | ExpressionError::InvalidCooperativeOperand(operand) => Some(*operand),
        _ => None,
    }
}

/// The type that an error of an expression names.
fn type_of(error: &ExpressionError) -> Option<Handle<TypeTag>> {
    match error {
        ExpressionError::InvalidZeroValue(ty)
        | ExpressionError::ExpectedBindingArrayType(ty)
        | ExpressionError::ExpectedImageType(ty)
        | ExpressionError::ExpectedSamplerType(ty)
        | ExpressionError::InvalidWorkGroupUniformLoadResultType(ty) => Some(*ty),
        _ => None,
    }
}

/// The items that an error of an expression of a function or an entry point names.
pub fn of_expression_error(error: &ExpressionError, owner: Owner) -> Names {
    if let Some(operand) = operand_of(error) {
        return one(Item::Expression(owner, operand.index()));
    }
    if let Some(ty) = type_of(error) {
        return one(of_type(&ty));
    }
    match error {
        ExpressionError::Compose(error) => of_compose_error(error),
        ExpressionError::InvalidBinaryOperandTypes {
            lhs_expr,
            lhs_type,
            rhs_expr,
            rhs_type,
            ..
        } => Names {
            first: Some(Item::Expression(owner, lhs_expr.index())),
            second: base_of(lhs_type),
            third: Some(Item::Expression(owner, rhs_expr.index())),
            fourth: base_of(rhs_type),
        },
        ExpressionError::SelectValuesTypeMismatch { accept, reject } => Names {
            first: base_of(accept),
            second: base_of(reject),
            ..Names::default()
        },
        ExpressionError::SelectConditionNotABool { actual } => Names {
            first: base_of(actual),
            ..Names::default()
        },
        ExpressionError::ShiftAmountTooLarge { lhs_type, rhs_expr } => Names {
            first: base_of(lhs_type),
            second: Some(Item::Expression(owner, rhs_expr.index())),
            ..Names::default()
        },
        _ => Names::default(),
    }
}
