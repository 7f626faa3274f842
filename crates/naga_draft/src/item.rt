//! What an item says.

use naga_flags::flags::{Capabilities, ValidationFlags};
use naga_ir::expression::Expression;
use naga_ir::handle::Handle;
use naga_ir::ir::{
    Constant, DiagnosticFilterNode, EarlyDepthTest, FunctionArgument, FunctionResult,
    GlobalVariable, LocalVariable, MeshStageInfo, Override, ShaderStage,
};
use naga_ir::statement::{Statement, SwitchValue};
use naga_ir::tags::{
    ConstantTag, DiagnosticFilterNodeTag, ExpressionTag, FunctionTag, GlobalVariableTag, TypeTag,
};
use naga_ir::text::Text;
use naga_ir::types::Type;

/// What a comment is on. Its texts are not in the words.
#[derive(Drop)]
pub enum Commented {
    Type_(Handle<TypeTag>),
    /// A member of a struct, by its index.
    Member(Handle<TypeTag>, usize),
    Function(Handle<FunctionTag>),
    /// An entry point, by its index.
    EntryPoint(usize),
    Constant(Handle<ConstantTag>),
    GlobalVariable(Handle<GlobalVariableTag>),
}

/// What an item says of a case of a switch.
#[derive(Clone, Copy)]
pub struct CaseHead {
    /// When it is executed, if that is said.
    pub value: Option<SwitchValue>,
    /// Whether the next case is executed after it.
    pub fall_through: bool,
}

/// What an item says of the stage of an entry point.
#[derive(Clone, Copy)]
pub struct EntryStage {
    pub stage: Option<ShaderStage>,
    /// Of a fragment shader, whether depths are tested before it runs.
    pub early_depth_test: Option<EarlyDepthTest>,
}

/// What an item says of the body of a function: a statement that has no blocks, or where the blocks of a statement
/// begin and end.
#[derive(Drop)]
pub enum Mark {
    Statement(Statement),
    /// Opens a block.
    Block,
    /// Opens the block that is executed if a condition is true.
    If(Handle<ExpressionTag>),
    /// Ends that block, and opens the other one.
    Else,
    /// Begins a switch, by its selector.
    Switch(Handle<ExpressionTag>),
    /// Ends the case before, if there is one, and opens a case.
    Case(CaseHead),
    /// Opens the body of a loop.
    Loop,
    /// Ends the body, and opens the block that is executed after it.
    Continuing,
    /// Ends a block, an `else`, or a switch with its last case.
    End,
    /// Ends a loop, with the condition on which it ends.
    EndOfLoop(Option<Handle<ExpressionTag>>),
}

/// What an item says of a function or entry point.
#[derive(Drop)]
pub enum Part {
    Argument(FunctionArgument),
    LocalVariable(LocalVariable),
    Result(FunctionResult),
    NamedExpression(Handle<ExpressionTag>, Text),
    /// The innermost diagnostic filter of the function.
    FilterLeaf(Handle<DiagnosticFilterNodeTag>),
    /// The overrides of the sizes of an entry point's workgroup.
    WorkgroupSizes([Option<Handle<ExpressionTag>>; 3]),
    /// The stage of an entry point.
    Stage(EntryStage),
    /// The sizes of an entry point's workgroup.
    WorkgroupSize([u32; 3]),
    /// The variable that an entry point hands to its mesh shaders.
    TaskPayload(Handle<GlobalVariableTag>),
    /// The output of an entry point that is a mesh shader.
    MeshOutput(MeshStageInfo),
    Expression(Expression),
    Mark(Mark),
}

/// What an item says.
#[derive(Drop)]
pub enum Item {
    /// Which parts of the module are validated.
    Flags(ValidationFlags),
    /// What the module may use.
    Capabilities(Capabilities),
    /// Overrides have to have their values.
    Resolved,
    /// The types that some built-in functions take or return.
    SpecialTypes {
        ray_desc: Option<Handle<TypeTag>>,
        ray_intersection: Option<Handle<TypeTag>>,
        ray_vertex_return: Option<Handle<TypeTag>>,
    },
    /// The type of the result of a built-in function.
    PredeclaredType(Handle<TypeTag>),
    /// A diagnostic filter.
    Filter(DiagnosticFilterNode),
    /// The innermost diagnostic filter of the module.
    FilterLeaf(Handle<DiagnosticFilterNodeTag>),
    Comment(Commented),
    Type_(Type),
    Constant(Constant),
    Override(Override),
    GlobalVariable(GlobalVariable),
    /// A global expression.
    Expression(Expression),
    /// Begins a function.
    Function(Option<Text>),
    /// Begins an entry point.
    EntryPoint(Text),
    /// Belongs to the last function or entry point before it.
    Part(Part),
}
