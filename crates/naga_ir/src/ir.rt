//! A shader module and what it holds besides types, expressions and statements.

ghost use Rattle.std.specs.Prelude.{◌≡◌, [], None};
ghost use Rattle.naga_ir.specs.OnlyTypes.{HasNoComments, HasNoSpecialTypes, HasOnlyTypes};

use crate::expression::Expression;
use crate::statement::Block;
use crate::types::{AddressSpace, Binding};
use crate::unique_arena::UniqueArena;
use naga_arena::arena::Arena;
use naga_arena::handle::Handle;
use naga_arena::list::List;
use naga_arena::tags::{
    ConstantTag, DiagnosticFilterNodeTag, ExpressionTag, FunctionTag, GlobalVariableTag,
    LocalVariableTag, OverrideTag, TypeTag,
};
use naga_arena::text::Text;
use std::alloc::Global;

/// The number of items for which an arena has room.
pub const MOST_ITEMS: usize = u32::MAX as usize;

/// The most blocks that are open at a time in a body that is read, as in the texts that naga's front end for WGSL reads.
/// So passes over a body that is read can call themselves for each block in a block.
pub const MOST_NESTED: usize = 127;

/// A value with a name, known when the shader is compiled.
#[derive(Debug, Drop)]
pub struct Constant {
    pub name: Option<Text>,
    pub ty: Handle<TypeTag>,
    /// A global expression.
    pub init: Handle<ExpressionTag>,
}

/// A value that is given when a pipeline is made, by its name or its number.
#[derive(Debug, Drop)]
pub struct Override {
    pub name: Option<Text>,
    /// The number by which a pipeline may give the value (WGSL, "id").
    pub id: Option<u16>,
    pub ty: Handle<TypeTag>,
    /// The value if the pipeline gives none: a global expression.
    pub init: Option<Handle<ExpressionTag>>,
}

/// Where a pipeline binds a resource (WGSL, "Resource Interface").
#[derive(Clone, Copy, Debug, PartialEq, Eq, Hash)]
pub struct ResourceBinding {
    /// The number of the bind group.
    pub group: u32,
    /// The number of the binding in its group.
    pub binding: u32,
}

/// What holds of each access to a variable in a buffer (naga, `MemoryDecorations`).
#[derive(Clone, Copy, Debug, PartialEq, Eq)]
pub struct MemoryDecorations {
    /// Other invocations see what is written.
    pub coherent: bool,
    /// The value may change at any time.
    pub is_volatile: bool,
}

impl MemoryDecorations {
    /// Nothing more than of any variable.
    pub const NONE: MemoryDecorations = MemoryDecorations {
        coherent: false,
        is_volatile: false,
    };
}

/// A variable of the module.
#[derive(Debug, Drop)]
pub struct GlobalVariable {
    pub name: Option<Text>,
    /// Where the variable is kept.
    pub space: AddressSpace,
    /// Where a pipeline binds it, of a resource.
    pub binding: Option<ResourceBinding>,
    pub ty: Handle<TypeTag>,
    /// The first value: a global expression.
    pub init: Option<Handle<ExpressionTag>>,
    /// What holds of each access to it.
    pub memory_decorations: MemoryDecorations,
}

/// A variable of a function.
#[derive(Debug, Drop)]
pub struct LocalVariable {
    pub name: Option<Text>,
    pub ty: Handle<TypeTag>,
    /// The first value: an expression of the function.
    pub init: Option<Handle<ExpressionTag>>,
}

/// An argument of a function.
#[derive(Debug, Drop)]
pub struct FunctionArgument {
    pub name: Option<Text>,
    pub ty: Handle<TypeTag>,
    /// Of an entry point, where the value comes from or goes to.
    pub binding: Option<Binding>,
}

/// What a function returns.
#[derive(Debug, Drop)]
pub struct FunctionResult {
    pub ty: Handle<TypeTag>,
    /// Of an entry point, where the value comes from or goes to.
    pub binding: Option<Binding>,
}

/// A function: its arguments, its result, and its body.
#[derive(Debug, Drop)]
pub struct Function {
    pub name: Option<Text>,
    pub arguments: List<FunctionArgument>,
    pub result: Option<FunctionResult>,
    pub local_variables: Arena<LocalVariable, LocalVariableTag>,
    /// Each follows its operands.
    pub expressions: Arena<Expression, ExpressionTag>,
    /// Names that the source gives to expressions.
    pub named_expressions: List<(Handle<ExpressionTag>, Text)>,
    pub body: Block,
    /// The innermost of the filters that apply to the function.
    pub diagnostic_filter_leaf: Option<Handle<DiagnosticFilterNodeTag>>,
}

impl Function {
    /// A function without name, arguments and result, whose body is empty.
    pub fn new(alloc: Global) -> Function
        ensures name { result.name ≡ None }
        ensures arguments { result.arguments ≡ [] }
        ensures no_result { result.result ≡ None }
        ensures local_variables { result.local_variables ≡ [] }
        ensures expressions { result.expressions ≡ [] }
        ensures named_expressions { result.named_expressions ≡ [] }
        ensures body { result.body.body.items ≡ [] }
        ensures filter { result.diagnostic_filter_leaf ≡ None }
    {
        Function {
            name: None,
            arguments: List::new(alloc),
            result: None,
            local_variables: Arena::new(alloc),
            expressions: Arena::new(alloc),
            named_expressions: List::new(alloc),
            body: Block::new(alloc),
            diagnostic_filter_leaf: None,
        }
    }
}

/// What the primitives of a mesh shader are (naga, `MeshOutputTopology`).
#[derive(Clone, Copy, Debug, PartialEq, Eq)]
pub enum MeshOutputTopology {
    Points,
    Lines,
    Triangles,
}

/// The output of a mesh shader.
#[derive(Clone, Copy, Debug, PartialEq, Eq)]
pub struct MeshStageInfo {
    /// What its primitives are.
    pub topology: MeshOutputTopology,
    /// The greatest number of vertices, unless overrides decide it.
    pub max_vertices: u32,
    /// The greatest number of primitives, unless overrides decide it.
    pub max_primitives: u32,
    /// The variable that it writes its output to.
    pub output_variable: Handle<GlobalVariableTag>,
    pub vertex_output_type: Handle<TypeTag>,
    pub primitive_output_type: Handle<TypeTag>,
    /// The greatest number of vertices, if overrides decide it: a global expression.
    pub max_vertices_override: Option<Handle<ExpressionTag>>,
    /// The greatest number of primitives, if overrides decide it: a global expression.
    pub max_primitives_override: Option<Handle<ExpressionTag>>,
}

/// A stage of a pipeline (naga, `ShaderStage`).
#[derive(Clone, Copy, Debug, PartialEq, Eq)]
pub enum ShaderStage {
    Vertex,
    Task,
    Mesh,
    Fragment,
    Compute,
    RayGeneration,
    Miss,
    AnyHit,
    ClosestHit,
}

/// What a fragment shader that writes depths promises of them (naga, `ConservativeDepth`).
#[derive(Clone, Copy, Debug, PartialEq, Eq)]
pub enum ConservativeDepth {
    /// None is less than that of the primitive.
    GreaterEqual,
    /// None is greater than that of the primitive.
    LessEqual,
    /// Each is that of the primitive.
    Unchanged,
}

/// Whether depths are tested before a fragment shader runs (naga, `EarlyDepthTest`).
#[derive(Clone, Copy, Debug, PartialEq, Eq)]
pub enum EarlyDepthTest {
    /// They are, whatever it writes.
    Force,
    /// They may be, since it keeps a promise.
    Allow { conservative: ConservativeDepth },
}

/// A function that a pipeline calls first in one of its stages.
#[derive(Debug, Drop)]
pub struct EntryPoint {
    pub name: Text,
    /// The stage, if it is known.
    pub stage: Option<ShaderStage>,
    /// Of a fragment shader, whether depths are tested before it runs.
    pub early_depth_test: Option<EarlyDepthTest>,
    /// The sizes of a workgroup in three dimensions, of a shader that has workgroups; else three times 0.
    pub workgroup_size: [u32; 3],
    /// The sizes of a workgroup in three dimensions, if overrides decide them: global expressions.
    pub workgroup_size_overrides: Option<[Option<Handle<ExpressionTag>>; 3]>,
    pub function: Function,
    /// The variable that a task shader hands to its mesh shaders.
    pub task_payload: Option<Handle<GlobalVariableTag>>,
    /// The output, of a mesh shader.
    pub mesh_info: Option<MeshStageInfo>,
}

/// A filter of diagnostics (WGSL, "Filtering Diagnostics"), which applies together with its parents.
#[derive(Clone, Copy, Debug, PartialEq, Eq)]
pub struct DiagnosticFilterNode {
    /// The filter of the enclosing scope.
    pub parent: Option<Handle<DiagnosticFilterNodeTag>>,
}

/// Types that some built-in functions take or return.
#[derive(Debug, Drop)]
pub struct SpecialTypes {
    /// The descriptor that begins a ray query.
    pub ray_desc: Option<Handle<TypeTag>>,
    /// What a ray query says of an intersection.
    pub ray_intersection: Option<Handle<TypeTag>>,
    /// The corners of a triangle that a ray has hit.
    pub ray_vertex_return: Option<Handle<TypeTag>>,
    /// The types of the results of built-in functions.
    pub others: List<Handle<TypeTag>>,
}

impl SpecialTypes {
    /// No special types.
    pub fn new(alloc: Global) -> SpecialTypes
        ensures { HasNoSpecialTypes result }
    {
        SpecialTypes {
            ray_desc: None,
            ray_intersection: None,
            ray_vertex_return: None,
            others: List::new(alloc),
        }
    }
}

/// Comments of the source that document items, each with what it is about.
#[derive(Debug, Drop)]
pub struct DocComments {
    /// Of the module itself.
    pub module: List<Text>,
    pub types: List<(Handle<TypeTag>, List<Text>)>,
    /// Of a member of a struct, by the type and the index of the member.
    pub struct_members: List<((Handle<TypeTag>, usize), List<Text>)>,
    /// Of an entry point, by its index.
    pub entry_points: List<(usize, List<Text>)>,
    pub functions: List<(Handle<FunctionTag>, List<Text>)>,
    pub constants: List<(Handle<ConstantTag>, List<Text>)>,
    pub global_variables: List<(Handle<GlobalVariableTag>, List<Text>)>,
}

impl DocComments {
    /// No comments.
    pub fn new(alloc: Global) -> DocComments
        ensures { HasNoComments result }
    {
        DocComments {
            module: List::new(alloc),
            types: List::new(alloc),
            struct_members: List::new(alloc),
            entry_points: List::new(alloc),
            functions: List::new(alloc),
            constants: List::new(alloc),
            global_variables: List::new(alloc),
        }
    }
}

/// A shader module. docs/LIBRARY.md shows how one is built.
///
/// Nothing is known of a module that was built by hand or read from outside: a validator decides
/// whether it keeps the rules.
#[derive(Debug, Drop)]
pub struct Module {
    /// The types, of which no two are equal.
    pub types: UniqueArena,
    pub special_types: SpecialTypes,
    pub constants: Arena<Constant, ConstantTag>,
    pub overrides: Arena<Override, OverrideTag>,
    pub global_variables: Arena<GlobalVariable, GlobalVariableTag>,
    /// The initialisers of constants, overrides and variables, and their operands. Each follows its
    /// operands.
    pub global_expressions: Arena<Expression, ExpressionTag>,
    /// Each follows all functions that it calls.
    pub functions: Arena<Function, FunctionTag>,
    pub entry_points: List<EntryPoint>,
    /// Each follows its parent.
    pub diagnostic_filters: Arena<DiagnosticFilterNode, DiagnosticFilterNodeTag>,
    /// The innermost of the filters that apply to the module.
    pub diagnostic_filter_leaf: Option<Handle<DiagnosticFilterNodeTag>>,
    pub doc_comments: DocComments,
}

impl Module {
    /// An empty module, which takes its memory from `alloc`.
    pub fn new(alloc: Global) -> Module
        ensures types { result.types ≡ [] }
        ensures nothing_else { HasOnlyTypes result }
    {
        Module {
            types: UniqueArena::new(alloc),
            special_types: SpecialTypes::new(alloc),
            constants: Arena::new(alloc),
            overrides: Arena::new(alloc),
            global_variables: Arena::new(alloc),
            global_expressions: Arena::new(alloc),
            functions: Arena::new(alloc),
            entry_points: List::new(alloc),
            diagnostic_filters: Arena::new(alloc),
            diagnostic_filter_leaf: None,
            doc_comments: DocComments::new(alloc),
        }
    }
}
