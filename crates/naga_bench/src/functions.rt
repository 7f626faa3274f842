//! The functions of a made module.

use crate::build::append;
use crate::random::Random;
use crate::ring::Ring;
use crate::types::{Shape, Types};
use crate::values::Variables;
use naga_valid::{
    BinaryOperator, Block, Expression, ExpressionTag, Function, FunctionArgument, FunctionResult,
    FunctionTag, Handle, List, Literal, LocalVariable, LocalVariableTag, MathFunction, Module,
    OutOfMemory, SampleLevel, ScalarKind, Statement, SwizzleComponent, UnaryOperator, VectorSize,
};
use std::alloc::Global;

/// How deep blocks of statements are nested at most.
const MOST_DEPTH: u32 = 6;

/// A function as it is made: it begins with a value of each shape, and goes on with groups of expressions that
/// use what came last.
#[derive(Drop)]
struct Draft<'a> {
    alloc: Global,
    types: &'a Types,
    variables: Variables,
    function: Function,
    /// The statements of the block that is made.
    block: Block,
    floats: Ring,
    uints: Ring,
    bools: Ring,
    vectors3: Ring,
    vectors4: Ring,
    matrices: Ring,
    local: Handle<LocalVariableTag>,
    callee: Option<Handle<FunctionTag>>,
}

impl Draft<'_> {
    fn add(&mut self, expression: Expression) -> Result<Handle<ExpressionTag>, OutOfMemory> {
        append(&mut self.function.expressions, expression)
    }

    fn binary(
        &mut self,
        op: BinaryOperator,
        left: Handle<ExpressionTag>,
        right: Handle<ExpressionTag>,
    ) -> Result<Handle<ExpressionTag>, OutOfMemory> {
        self.add(Expression::Binary { op, left, right })
    }

    fn math(
        &mut self,
        fun: MathFunction,
        arg: Handle<ExpressionTag>,
        arg1: Option<Handle<ExpressionTag>>,
        arg2: Option<Handle<ExpressionTag>>,
    ) -> Result<Handle<ExpressionTag>, OutOfMemory> {
        let arg3 = None;
        self.add(Expression::Math {
            fun,
            arg,
            arg1,
            arg2,
            arg3,
        })
    }

    /// A load of a member of the material.
    fn load_member(&mut self, random: &mut Random) -> Result<(), OutOfMemory> {
        let index = random.from_to(0, self.types.members.len().min(1000) as u32);
        let shape = self.types.members.get(index as usize).copied();
        let base = self.add(Expression::GlobalVariable(self.variables.material))?;
        let pointer = self.add(Expression::AccessIndex { base, index })?;
        let value = self.add(Expression::Load { pointer })?;
        match shape {
            Some(Shape::Float) => self.floats.push(value),
            Some(Shape::Uint) => self.uints.push(value),
            Some(Shape::Vector3) => self.vectors3.push(value),
            Some(Shape::Vector4) => self.vectors4.push(value),
            Some(Shape::Matrix) => self.matrices.push(value),
            Some(Shape::Other) | None => {}
        }
        Ok(())
    }

    /// A load of a vector at a computed index.
    fn load_element(&mut self, random: &mut Random) -> Result<(), OutOfMemory> {
        let index = self.uints.any(random);
        let base = self.add(Expression::GlobalVariable(self.variables.vectors))?;
        let pointer = self.add(Expression::Access { base, index })?;
        let value = self.add(Expression::Load { pointer })?;
        self.vectors4.push(value);
        Ok(())
    }

    /// A load of a local variable and a store.
    fn use_local(&mut self, random: &mut Random) -> Result<(), OutOfMemory> {
        let pointer = self.add(Expression::LocalVariable(self.local))?;
        let value = self.vectors4.any(random);
        self.block.push(Statement::Store { pointer, value })?;
        let value = self.add(Expression::Load { pointer })?;
        self.vectors4.push(value);
        Ok(())
    }

    /// An operator on two numbers.
    fn combine_floats(&mut self, random: &mut Random) -> Result<(), OutOfMemory> {
        let op = operator(random);
        let (left, right) = (self.floats.any(random), self.floats.any(random));
        let value = self.binary(op, left, right)?;
        self.floats.push(value);
        Ok(())
    }

    /// An operator on two vectors, or on a matrix or a number and a vector.
    fn combine_vectors(&mut self, random: &mut Random) -> Result<(), OutOfMemory> {
        let right = self.vectors4.any(random);
        let value = match random.below(4) {
            0 => {
                let left = self.matrices.any(random);
                self.binary(BinaryOperator::Multiply, left, right)?
            }
            1 => {
                let left = self.floats.any(random);
                self.binary(BinaryOperator::Multiply, left, right)?
            }
            _ => {
                let left = self.vectors4.any(random);
                self.binary(operator(random), left, right)?
            }
        };
        self.vectors4.push(value);
        Ok(())
    }

    /// A swizzle, and a component of it.
    fn take_apart(&mut self, random: &mut Random) -> Result<(), OutOfMemory> {
        let vector = self.vectors4.any(random);
        let size = VectorSize::Tri;
        let pattern = [
            component(random),
            component(random),
            component(random),
            SwizzleComponent::X,
        ];
        let part = self.add(Expression::Swizzle {
            size,
            vector,
            pattern,
        })?;
        self.vectors3.push(part);
        let index = random.below(3);
        let value = self.add(Expression::AccessIndex { base: part, index })?;
        self.floats.push(value);
        Ok(())
    }

    /// A vector from a shorter one and a number, or from one number.
    fn compose(&mut self, random: &mut Random) -> Result<(), OutOfMemory> {
        let value = self.floats.any(random);
        let size = VectorSize::Quad;
        let expression = if random.below(3) == 0 {
            Expression::Splat { size, value }
        } else {
            let mut components = List::new(self.alloc);
            components.push(self.vectors3.any(random))?;
            components.push(value)?;
            Expression::Compose {
                ty: self.types.vector4,
                components,
            }
        };
        let value = self.add(expression)?;
        self.vectors4.push(value);
        Ok(())
    }

    /// A comparison, and one of two values by it.
    fn select(&mut self, random: &mut Random) -> Result<(), OutOfMemory> {
        let (left, right) = (self.floats.any(random), self.floats.any(random));
        let condition = self.binary(BinaryOperator::Less, left, right)?;
        self.bools.push(condition);
        let (accept, reject) = (self.floats.any(random), self.floats.any(random));
        let value = self.add(Expression::Select {
            condition,
            accept,
            reject,
        })?;
        self.floats.push(value);
        Ok(())
    }

    /// A mathematical function that gives a number.
    fn compute(&mut self, random: &mut Random) -> Result<(), OutOfMemory> {
        let arg = self.floats.any(random);
        let arg1 = Some(self.floats.any(random));
        let arg2 = Some(self.floats.any(random));
        let value = match random.below(6) {
            0 => self.math(MathFunction::Max, arg, arg1, None)?,
            1 => self.math(MathFunction::Clamp, arg, arg1, arg2)?,
            2 => self.math(MathFunction::Sqrt, arg, None, None)?,
            3 => self.math(MathFunction::Mix, arg, arg1, arg2)?,
            4 => {
                let left = self.vectors3.any(random);
                let right = Some(self.vectors3.any(random));
                self.math(MathFunction::Dot, left, right, None)?
            }
            _ => {
                let vector = self.vectors3.any(random);
                self.math(MathFunction::Length, vector, None, None)?
            }
        };
        self.floats.push(value);
        Ok(())
    }

    /// A mathematical function that gives a vector.
    fn compute_vector(&mut self, random: &mut Random) -> Result<(), OutOfMemory> {
        let arg = self.vectors3.any(random);
        let arg1 = Some(self.vectors3.any(random));
        let value = match random.below(3) {
            0 => self.math(MathFunction::Normalize, arg, None, None)?,
            1 => self.math(MathFunction::Reflect, arg, arg1, None)?,
            _ => self.math(MathFunction::Cross, arg, arg1, None)?,
        };
        self.vectors3.push(value);
        Ok(())
    }

    /// A conversion of a number.
    fn convert(&mut self, random: &mut Random) -> Result<(), OutOfMemory> {
        let convert = Some(4);
        if random.below(2) == 0 {
            let expr = self.uints.any(random);
            let kind = ScalarKind::Float;
            let value = self.add(Expression::As {
                expr,
                kind,
                convert,
            })?;
            self.floats.push(value);
        } else {
            let expr = self.floats.any(random);
            let kind = ScalarKind::Uint;
            let value = self.add(Expression::As {
                expr,
                kind,
                convert,
            })?;
            self.uints.push(value);
        }
        Ok(())
    }

    /// A sample of the image.
    fn sample(&mut self, random: &mut Random) -> Result<(), OutOfMemory> {
        let image = self.add(Expression::GlobalVariable(self.variables.image))?;
        let sampler = self.add(Expression::GlobalVariable(self.variables.sampler))?;
        let vector = self.vectors4.any(random);
        let size = VectorSize::Bi;
        let pattern = [
            component(random),
            component(random),
            SwizzleComponent::X,
            SwizzleComponent::X,
        ];
        let coordinate = self.add(Expression::Swizzle {
            size,
            vector,
            pattern,
        })?;
        let level = match random.below(3) {
            0 => SampleLevel::Auto,
            1 => SampleLevel::Zero,
            _ => SampleLevel::Exact(self.floats.any(random)),
        };
        let value = self.add(Expression::ImageSample {
            image,
            sampler,
            gather: None,
            coordinate,
            array_index: None,
            offset: None,
            level,
            depth_ref: None,
            clamp_to_edge: false,
        })?;
        self.vectors4.push(value);
        Ok(())
    }

    /// A call of the function before, if there is one, and else a negation.
    fn call(&mut self, random: &mut Random) -> Result<(), OutOfMemory> {
        let vector = self.vectors4.any(random);
        let Some(function) = self.callee else {
            let op = UnaryOperator::Negate;
            let value = self.add(Expression::Unary { op, expr: vector })?;
            self.vectors4.push(value);
            return Ok(());
        };
        let result = self.add(Expression::CallResult(function))?;
        let mut arguments = List::new(self.alloc);
        arguments.push(vector)?;
        arguments.push(self.floats.any(random))?;
        self.block.push(Statement::Call {
            function,
            arguments,
            result: Some(result),
        })?;
        self.vectors4.push(result);
        Ok(())
    }

    /// A literal.
    fn literal(&mut self, random: &mut Random) -> Result<(), OutOfMemory> {
        if random.below(3) == 0 {
            let literal = Literal::U32(random.below(64));
            let value = self.add(Expression::Literal(literal))?;
            self.uints.push(value);
        } else {
            let literal = Literal::F32(random.below(0x7f00_0000));
            let value = self.add(Expression::Literal(literal))?;
            self.floats.push(value);
        }
        Ok(())
    }

    /// A group of expressions of one of the forms, and a statement that evaluates it.
    fn add_group(&mut self, random: &mut Random) -> Result<(), OutOfMemory> {
        let before = self.function.expressions.len();
        match random.below(32) {
            0..5 => self.load_member(random)?,
            5..8 => self.load_element(random)?,
            8..10 => self.use_local(random)?,
            10..14 => self.combine_floats(random)?,
            14..17 => self.combine_vectors(random)?,
            17..20 => self.take_apart(random)?,
            20..22 => self.compose(random)?,
            22..24 => self.select(random)?,
            24..26 => self.compute(random)?,
            26 => self.compute_vector(random)?,
            27 => self.convert(random)?,
            28 => self.sample(random)?,
            29 => self.call(random)?,
            _ => self.literal(random)?,
        }
        self.emit(before)
    }

    /// A statement that evaluates the expressions from one on.
    fn emit(&mut self, before: usize) -> Result<(), OutOfMemory> {
        let expressions = &self.function.expressions;
        if before < expressions.len() {
            let range = expressions.range_from(before);
            self.block.push(Statement::Emit(range))?;
        }
        Ok(())
    }

    /// Puts the block that is made into a statement of a new block.
    fn enclose(&mut self, random: &mut Random) -> Result<(), OutOfMemory> {
        let inner = std::mem::replace(&mut self.block, Block::new(self.alloc));
        let condition = self.bools.any(random);
        let statement = match random.below(3) {
            0 => Statement::Loop {
                body: inner,
                continuing: Block::new(self.alloc),
                break_if: Some(condition),
            },
            1 => Statement::Block(inner),
            _ => Statement::If {
                condition,
                accept: inner,
                reject: Block::new(self.alloc),
            },
        };
        self.block.push(statement)
    }

    /// Adds groups until there are `count` expressions, in blocks that are nested up to six deep.
    fn fill(&mut self, count: usize, random: &mut Random) -> Result<(), OutOfMemory> {
        let mut depth = 0u32;
        for _ in 0..count {
            if self.function.expressions.len() >= count {
                break;
            }
            self.add_group(random)?;
            if random.below(12) == 0 && depth < MOST_DEPTH {
                self.enclose(random)?;
                depth = depth.saturating_add(1);
            }
            if random.below(40) == 0 {
                self.close()?;
                depth = 0;
            }
        }
        self.close()
    }

    /// Adds the block that is made to the body of the function.
    fn close(&mut self) -> Result<(), OutOfMemory> {
        let inner = std::mem::replace(&mut self.block, Block::new(self.alloc));
        self.function.body.push(Statement::Block(inner))
    }

    /// Ends the function, which returns a vector.
    fn finish(self, random: &mut Random) -> Result<Function, OutOfMemory> {
        let value = Some(self.vectors4.any(random));
        let mut function = self.function;
        function.body.push(Statement::Return { value })?;
        Ok(function)
    }
}

fn operator(random: &mut Random) -> BinaryOperator {
    match random.below(4) {
        0 => BinaryOperator::Add,
        1 => BinaryOperator::Subtract,
        2 => BinaryOperator::Divide,
        _ => BinaryOperator::Multiply,
    }
}

fn component(random: &mut Random) -> SwizzleComponent {
    match random.below(4) {
        0 => SwizzleComponent::X,
        1 => SwizzleComponent::Y,
        2 => SwizzleComponent::Z,
        _ => SwizzleComponent::W,
    }
}

/// A function with two arguments, a result and some local variables.
fn begin(alloc: Global, types: &Types, locals: u32) -> Result<Function, OutOfMemory> {
    let mut function = Function::new(alloc);
    for ty in [types.vector4, types.float] {
        function.arguments.push(FunctionArgument {
            name: None,
            ty,
            binding: None,
        })?;
    }
    function.result = Some(FunctionResult {
        ty: types.vector4,
        binding: None,
    });
    for _ in 0..locals {
        let variable = LocalVariable {
            name: None,
            ty: types.vector4,
            init: None,
        };
        append(&mut function.local_variables, variable)?;
    }
    Ok(function)
}

/// Makes a function of about `count` expressions.
fn make_function(
    alloc: Global,
    types: &Types,
    variables: Variables,
    callee: Option<Handle<FunctionTag>>,
    count: u32,
    random: &mut Random,
) -> Result<Function, OutOfMemory> {
    let locals = random.below(28) + 2;
    let mut function = begin(alloc, types, locals)?;
    let expressions = &mut function.expressions;
    let vector = append(expressions, Expression::FunctionArgument(0))?;
    let float = append(expressions, Expression::FunctionArgument(1))?;
    let uint = append(expressions, Expression::Literal(Literal::U32(1)))?;
    let yes = append(expressions, Expression::Literal(Literal::Bool(true)))?;
    let vector3 = append(expressions, Expression::ZeroValue(types.vector3))?;
    let matrix = append(expressions, Expression::ZeroValue(types.matrix))?;
    let mut draft = Draft {
        alloc,
        types,
        variables,
        function,
        block: Block::new(alloc),
        floats: Ring::new(float),
        uints: Ring::new(uint),
        bools: Ring::new(yes),
        vectors3: Ring::new(vector3),
        vectors4: Ring::new(vector),
        matrices: Ring::new(matrix),
        local: Handle::new(random.below(locals)),
        callee,
    };
    draft.fill(count as usize, random)?;
    draft.finish(random)
}

/// Adds functions of about `count` expressions each, of which each may call the one before.
pub fn add_functions(
    alloc: Global,
    module: &mut Module,
    types: &Types,
    variables: Variables,
    functions: u32,
    count: u32,
    random: &mut Random,
) -> Result<(), OutOfMemory> {
    let mut callee = None;
    for _ in 0..functions {
        let count = random.from_to(30, count.saturating_mul(2));
        let function = make_function(alloc, types, variables, callee, count, random)?;
        callee = Some(append(&mut module.functions, function)?);
    }
    Ok(())
}
