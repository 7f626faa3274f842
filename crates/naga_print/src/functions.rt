//! Functions and entry points as items.

use crate::expressions::Place;
use crate::printer::{PrintError, Printer};
use naga_ir::handle::Handle;
use naga_ir::ir::{
    ConservativeDepth, EarlyDepthTest, EntryPoint, Function, FunctionArgument, FunctionResult,
    LocalVariable, MeshOutputTopology, MeshStageInfo, ShaderStage,
};
use naga_ir::tags::ExpressionTag;
use naga_ir::text::Text;

/// Whether the sizes of an entry point's workgroup are said.
fn is_sized(entry_point: &EntryPoint) -> bool {
    !matches!(entry_point.workgroup_size, [0, 0, 0])
}

/// The number of a stage.
fn stage_number(stage: ShaderStage) -> u32 {
    stage as u32 + 1
}

/// The number and the name of an early depth test.
fn early_choice(test: EarlyDepthTest) -> (u32, &'static str) {
    let EarlyDepthTest::Allow { conservative } = test else {
        return (1, "early");
    };
    match conservative {
        ConservativeDepth::GreaterEqual => (2, "early:greaterequal"),
        ConservativeDepth::LessEqual => (3, "early:lessequal"),
        ConservativeDepth::Unchanged => (4, "early:unchanged"),
    }
}

impl Printer {
    fn argument(&mut self, argument: &FunctionArgument) -> Result<(), PrintError> {
        self.begin(40, "arg")?;
        self.name(&argument.name)?;
        self.index(argument.ty)?;
        self.binding(argument.binding)?;
        self.end()
    }

    fn local_variable(&mut self, variable: &LocalVariable) -> Result<(), PrintError> {
        self.begin(41, "local")?;
        self.name(&variable.name)?;
        self.index(variable.ty)?;
        self.optional(variable.init)?;
        self.end()
    }

    fn result(&mut self, returned: &FunctionResult) -> Result<(), PrintError> {
        self.begin(42, "result")?;
        self.index(returned.ty)?;
        self.binding(returned.binding)?;
        self.end()
    }

    fn named_expression(
        &mut self,
        expression: Handle<ExpressionTag>,
        name: &Text,
    ) -> Result<(), PrintError> {
        self.begin(43, "named")?;
        if !name.as_str().is_empty() {
            self.cannot_say("the name of an expression");
        }
        self.text_words(name.as_str())?;
        self.index(expression)?;
        self.end()
    }

    fn workgroup_sizes(
        &mut self,
        sizes: &[Option<Handle<ExpressionTag>>],
    ) -> Result<(), PrintError> {
        self.begin(45, "wgsizes")?;
        for size in sizes {
            self.optional(*size)?;
        }
        self.end()
    }

    fn mesh_output(&mut self, mesh: &MeshStageInfo) -> Result<(), PrintError> {
        self.begin(47, "mesh")?;
        self.index(mesh.output_variable)?;
        self.index(mesh.vertex_output_type)?;
        self.index(mesh.primitive_output_type)?;
        self.optional(mesh.max_vertices_override)?;
        self.optional(mesh.max_primitives_override)?;
        let MeshStageInfo {
            topology,
            max_vertices,
            max_primitives,
            ..
        } = *mesh;
        if topology != MeshOutputTopology::Points || max_vertices != 0 || max_primitives != 0 {
            self.variant_choice(topology as u32, topology)?;
            self.number(max_vertices)?;
            self.number(max_primitives)?;
        }
        self.end()
    }

    /// Prints what comes before the expressions of a function.
    fn declarations(&mut self, function: &Function) -> Result<(), PrintError> {
        for argument in function.arguments.as_slice() {
            self.argument(argument)?;
        }
        for variable in function.local_variables.as_slice() {
            self.local_variable(variable)?;
        }
        match &function.result {
            Some(returned) => self.result(returned),
            None => Ok(()),
        }
    }

    /// Prints what belongs to a function.
    fn parts(&mut self, function: &Function) -> Result<(), PrintError> {
        self.declarations(function)?;
        for expression in function.expressions.as_slice() {
            self.expression(Place::Function, expression)?;
        }
        for (expression, name) in function.named_expressions.as_slice() {
            self.named_expression(*expression, name)?;
        }
        if let Some(leaf) = function.diagnostic_filter_leaf {
            self.begin(44, "leaf")?;
            self.index(leaf)?;
            self.end()?;
        }
        self.block(&function.body)
    }

    /// Prints a function. The text says of each that all stages may use its result.
    pub(crate) fn function(&mut self, function: &Function) -> Result<(), PrintError> {
        self.begin(35, "fn 511")?;
        self.name(&function.name)?;
        self.end()?;
        self.parts(function)
    }

    /// Adds to the line of an entry point its stage, the sizes of its workgroup and its early depth test.
    fn entry_head(&mut self, entry_point: &EntryPoint) -> Result<(), PrintError> {
        let is_sized = is_sized(entry_point);
        if entry_point.stage.is_none() && entry_point.early_depth_test.is_none() && !is_sized {
            return Ok(());
        }
        self.part(" ")?;
        match entry_point.stage {
            Some(stage) => self.variant(stage)?,
            None => self.part("-")?,
        }
        if is_sized {
            for size in entry_point.workgroup_size {
                self.part(" ")?;
                self.decimal(u64::from(size))?;
            }
        }
        if let Some(test) = entry_point.early_depth_test {
            self.part(" ")?;
            self.part(early_choice(test).1)?;
        }
        Ok(())
    }

    /// Prints the items of what the line of an entry point says besides.
    fn entry_words(&mut self, entry_point: &EntryPoint) -> Result<(), PrintError> {
        if entry_point.stage.is_some() || entry_point.early_depth_test.is_some() {
            self.begin(48, "stage")?;
            match entry_point.stage {
                Some(stage) => self.variant_choice(stage_number(stage), stage)?,
                None => self.choice((0, "-"))?,
            }
            match entry_point.early_depth_test {
                Some(test) => self.choice(early_choice(test))?,
                None => self.word(0)?,
            }
            self.end_words()?;
        }
        if is_sized(entry_point) {
            self.begin(49, "size")?;
            for size in entry_point.workgroup_size {
                self.number(size)?;
            }
            self.end_words()?;
        }
        Ok(())
    }

    /// Prints an entry point.
    pub(crate) fn entry_point(&mut self, entry_point: &EntryPoint) -> Result<(), PrintError> {
        self.begin(36, "entry")?;
        let name = entry_point.name.as_str();
        self.text_words(name)?;
        if !name.is_empty() {
            self.name_line(name)?;
        }
        self.entry_head(entry_point)?;
        self.end()?;
        self.entry_words(entry_point)?;
        if let Some(sizes) = &entry_point.workgroup_size_overrides {
            self.workgroup_sizes(sizes)?;
        }
        if let Some(payload) = entry_point.task_payload {
            self.begin(46, "payload")?;
            self.index(payload)?;
            self.end()?;
        }
        if let Some(mesh) = &entry_point.mesh_info {
            self.mesh_output(mesh)?;
        }
        self.parts(&entry_point.function)
    }
}
