//! The kinds of items that handles name.

use crate::handle::Kind;
use crate::text::StaticText;

/// The kind of a module's types.
#[derive(Clone, Copy)]
pub struct TypeTag;

impl Kind for TypeTag {
    ghost use Rattle.std.specs.Prelude.{codes};

    ghost kind_name = { codes "Type" };

    fn name() -> StaticText {
        StaticText::new("Type")
    }
}

/// The kind of a module's constants.
#[derive(Clone, Copy)]
pub struct ConstantTag;

impl Kind for ConstantTag {
    ghost use Rattle.std.specs.Prelude.{codes};

    ghost kind_name = { codes "Constant" };

    fn name() -> StaticText {
        StaticText::new("Constant")
    }
}

/// The kind of a module's overrides.
#[derive(Clone, Copy)]
pub struct OverrideTag;

impl Kind for OverrideTag {
    ghost use Rattle.std.specs.Prelude.{codes};

    ghost kind_name = { codes "Override" };

    fn name() -> StaticText {
        StaticText::new("Override")
    }
}

/// The kind of a module's variables.
#[derive(Clone, Copy)]
pub struct GlobalVariableTag;

impl Kind for GlobalVariableTag {
    ghost use Rattle.std.specs.Prelude.{codes};

    ghost kind_name = { codes "GlobalVariable" };

    fn name() -> StaticText {
        StaticText::new("GlobalVariable")
    }
}

/// The kind of expressions, of a module or of a function.
#[derive(Clone, Copy)]
pub struct ExpressionTag;

impl Kind for ExpressionTag {
    ghost use Rattle.std.specs.Prelude.{codes};

    ghost kind_name = { codes "Expression" };

    fn name() -> StaticText {
        StaticText::new("Expression")
    }
}

/// The kind of a function's variables.
#[derive(Clone, Copy)]
pub struct LocalVariableTag;

impl Kind for LocalVariableTag {
    ghost use Rattle.std.specs.Prelude.{codes};

    ghost kind_name = { codes "LocalVariable" };

    fn name() -> StaticText {
        StaticText::new("LocalVariable")
    }
}

/// The kind of a module's functions.
#[derive(Clone, Copy)]
pub struct FunctionTag;

impl Kind for FunctionTag {
    ghost use Rattle.std.specs.Prelude.{codes};

    ghost kind_name = { codes "Function" };

    fn name() -> StaticText {
        StaticText::new("Function")
    }
}

/// The kind of a module's diagnostic filters.
#[derive(Clone, Copy)]
pub struct DiagnosticFilterNodeTag;

impl Kind for DiagnosticFilterNodeTag {
    ghost use Rattle.std.specs.Prelude.{codes};

    ghost kind_name = { codes "DiagnosticFilterNode" };

    fn name() -> StaticText {
        StaticText::new("DiagnosticFilterNode")
    }
}
