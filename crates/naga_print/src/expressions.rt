//! Expressions as items.

ghost use Rattle.std.specs.Prelude.{◌<◌};

use crate::math::math_number;
use crate::operands::{component, kind, role};
use crate::printer::{NONE, PrintError, Printer};
use naga_ir::expression::{
    BinaryOperator, CooperativeShape, Expression, ImageQuery, Literal, RelationalFunction,
    SampleLevel, SwizzleComponent, UnaryOperator,
};
use naga_ir::handle::Handle;
use naga_ir::tags::ExpressionTag;
use naga_ir::types::ScalarKind;

/// Where an expression is.
#[derive(Clone, Copy)]
pub enum Place {
    Module,
    Function,
}

/// The number of an expression's form, and its word.
fn form_of(expression: &Expression) -> (u32, &'static str)
    ensures { result.0 < 64 }
{
    match expression {
        Expression::Literal(_) => (0, "lit"),
        Expression::Constant(_) => (1, "const"),
        Expression::Override(_) => (2, "override"),
        Expression::ZeroValue(_) => (3, "zero"),
        Expression::Compose { .. } => (4, "compose"),
        Expression::Access { .. } => (5, "access"),
        Expression::AccessIndex { .. } => (6, "accessindex"),
        Expression::Splat { .. } => (7, "splat"),
        Expression::Swizzle { .. } => (8, "swizzle"),
        Expression::FunctionArgument(_) => (9, "argument"),
        Expression::GlobalVariable(_) => (10, "global"),
        Expression::LocalVariable(_) => (11, "local"),
        Expression::Load { .. } => (12, "load"),
        Expression::ImageSample { .. } => (13, "sample"),
        Expression::ImageLoad { .. } => (14, "imageload"),
        Expression::ImageQuery { .. } => (15, "imagequery"),
        Expression::Unary { .. } => (16, "unary"),
        Expression::Binary { .. } => (17, "binary"),
        Expression::Select { .. } => (18, "select"),
        Expression::Derivative { .. } => (19, "derivative"),
        Expression::Relational { .. } => (20, "relational"),
        Expression::Math { .. } => (21, "math"),
        Expression::As { .. } => (22, "as"),
        Expression::CallResult(_) => (23, "callresult"),
        Expression::AtomicResult { .. } => (24, "atomicresult"),
        Expression::WorkGroupUniformLoadResult { .. } => (25, "workgroupload"),
        Expression::ArrayLength(_) => (26, "arraylength"),
        Expression::RayQueryProceedResult => (27, "proceedresult"),
        Expression::RayQueryGetIntersection { .. } => (28, "getintersection"),
        Expression::RayQueryVertexPositions { .. } => (29, "vertexpositions"),
        Expression::SubgroupBallotResult => (30, "ballotresult"),
        Expression::SubgroupOperationResult { .. } => (31, "subgroupresult"),
        Expression::CooperativeLoad { .. } => (32, "coopload"),
        Expression::CooperativeMultiplyAdd { .. } => (33, "coopmuladd"),
    }
}

/// The number and the word of a kind of literals.
fn literal_kind(literal: Literal) -> (u32, &'static str) {
    match literal {
        Literal::F64(_) => (0, "f64"),
        Literal::F32(_) => (1, "f32"),
        Literal::F16(_) => (2, "f16"),
        Literal::U16(_) => (3, "u16"),
        Literal::I16(_) => (4, "i16"),
        Literal::U32(_) => (5, "u32"),
        Literal::I32(_) => (6, "i32"),
        Literal::U64(_) => (7, "u64"),
        Literal::I64(_) => (8, "i64"),
        Literal::Bool(_) => (9, "bool"),
        Literal::AbstractInt(_) => (10, "aint"),
        Literal::AbstractFloat(_) => (11, "afloat"),
    }
}

/// The bits of a literal's value, in two's complement if it is signed.
fn bits_of(literal: Literal) -> u64 {
    match literal {
        Literal::F64(value) => value,
        Literal::F32(value) => u64::from(value),
        Literal::F16(value) => u64::from(value),
        Literal::U16(value) => u64::from(value),
        Literal::I16(value) => u64::from(value.cast_unsigned()),
        Literal::U32(value) => u64::from(value),
        Literal::I32(value) => u64::from(value.cast_unsigned()),
        Literal::U64(value) => value,
        Literal::I64(value) => value.cast_unsigned(),
        Literal::Bool(value) => u64::from(value),
        Literal::AbstractInt(value) => value.cast_unsigned(),
        Literal::AbstractFloat(value) => value,
    }
}

/// The value of a literal, if it is signed.
fn signed_value(literal: Literal) -> Option<i64> {
    match literal {
        Literal::I16(value) => Some(i64::from(value)),
        Literal::I32(value) => Some(i64::from(value)),
        Literal::I64(value) => Some(value),
        Literal::AbstractInt(value) => Some(value),
        _ => None,
    }
}

/// The number and the word of a unary operator.
fn unary_operator(op: UnaryOperator) -> (u32, &'static str) {
    match op {
        UnaryOperator::Negate => (0, "negate"),
        UnaryOperator::LogicalNot => (1, "not"),
        UnaryOperator::BitwiseNot => (2, "bitnot"),
    }
}

/// The number and the word of a binary operator.
fn binary_operator(op: BinaryOperator) -> (u32, &'static str) {
    match op {
        BinaryOperator::Add => (0, "add"),
        BinaryOperator::Subtract => (1, "sub"),
        BinaryOperator::Multiply => (2, "mul"),
        BinaryOperator::Divide => (3, "div"),
        BinaryOperator::Modulo => (4, "mod"),
        BinaryOperator::Equal => (5, "eq"),
        BinaryOperator::NotEqual => (6, "ne"),
        BinaryOperator::Less => (7, "lt"),
        BinaryOperator::LessEqual => (8, "le"),
        BinaryOperator::Greater => (9, "gt"),
        BinaryOperator::GreaterEqual => (10, "ge"),
        BinaryOperator::And => (11, "and"),
        BinaryOperator::ExclusiveOr => (12, "xor"),
        BinaryOperator::InclusiveOr => (13, "or"),
        BinaryOperator::LogicalAnd => (14, "land"),
        BinaryOperator::LogicalOr => (15, "lor"),
        BinaryOperator::ShiftLeft => (16, "shl"),
        BinaryOperator::ShiftRight => (17, "shr"),
    }
}

/// The number and the word of a relational function.
fn relational_function(fun: RelationalFunction) -> (u32, &'static str) {
    match fun {
        RelationalFunction::All => (0, "all"),
        RelationalFunction::Any => (1, "any"),
        RelationalFunction::IsNan => (2, "isnan"),
        RelationalFunction::IsInf => (3, "isinf"),
    }
}

impl Printer {
    /// Adds a literal: its kind, and its value.
    fn literal(&mut self, literal: Literal) -> Result<(), PrintError> {
        let bits = bits_of(literal);
        self.choice(literal_kind(literal))?;
        self.wide(bits)?;
        self.part(" ")?;
        match signed_value(literal) {
            Some(value) => self.signed_decimal(value),
            None => self.decimal(bits),
        }
    }

    /// Adds the indices of expressions.
    pub(crate) fn indices(&mut self, handles: &[Handle<ExpressionTag>]) -> Result<(), PrintError> {
        for handle in handles {
            self.index(*handle)?;
        }
        Ok(())
    }

    fn pattern(&mut self, pattern: [SwizzleComponent; 4]) -> Result<(), PrintError> {
        self.part(" ")?;
        for letter in pattern {
            let (number, name) = component(letter);
            self.word(number)?;
            self.part(name)?;
        }
        Ok(())
    }

    /// Adds what begins with a choice and has the index of an expression.
    pub(crate) fn choice_by(
        &mut self,
        choice: (u32, &str),
        by: Handle<ExpressionTag>,
    ) -> Result<(), PrintError> {
        self.choice(choice)?;
        self.index_at_colon(by)
    }

    /// Adds what begins with a choice and has no index of an expression.
    pub(crate) fn choice_alone(&mut self, choice: (u32, &str)) -> Result<(), PrintError> {
        self.choice(choice)?;
        self.word(0)
    }

    /// Adds the three words of a level.
    fn level(&mut self, level: SampleLevel) -> Result<(), PrintError> {
        match level {
            SampleLevel::Auto => self.choice_alone((0, "auto"))?,
            SampleLevel::Zero => self.choice_alone((1, "zero"))?,
            SampleLevel::Exact(by) => self.choice_by((2, "exact"), by)?,
            SampleLevel::Bias(by) => self.choice_by((3, "bias"), by)?,
            SampleLevel::Gradient { x, y } => {
                self.choice_by((4, "grad"), x)?;
                return self.index_at_colon(y);
            }
        }
        self.word(0)
    }

    /// Adds the component that is gathered, which stands earlier in the words than in a line.
    fn gathered_word(&mut self, gather: Option<SwizzleComponent>) -> Result<(), PrintError> {
        match gather {
            Some(letter) => self.word(component(letter).0),
            None => self.word(NONE),
        }
    }

    fn gathered_part(&mut self, gather: Option<SwizzleComponent>) -> Result<(), PrintError> {
        self.part(" ")?;
        self.part(match gather {
            Some(letter) => component(letter).1,
            None => "-",
        })
    }

    fn image_query(&mut self, query: ImageQuery) -> Result<(), PrintError> {
        match query {
            ImageQuery::Size { level: Some(by) } => self.choice_by((0, "size"), by),
            ImageQuery::Size { level: None } => {
                self.choice((0, "size"))?;
                self.word(NONE)
            }
            ImageQuery::NumLevels => self.choice_alone((1, "levels")),
            ImageQuery::NumLayers => self.choice_alone((2, "layers")),
            ImageQuery::NumSamples => self.choice_alone((3, "samples")),
        }
    }

    fn conversion(&mut self, to: ScalarKind, width: Option<u8>) -> Result<(), PrintError> {
        self.choice(kind(to))?;
        match width {
            Some(width) => self.number(u32::from(width)),
            None => self.none(),
        }
    }

    /// Adds the operands of a sample of an image.
    fn of_sample(&mut self, expression: &Expression) -> Result<(), PrintError> {
        match expression {
            Expression::ImageSample {
                image,
                sampler,
                gather,
                coordinate,
                array_index,
                offset,
                level,
                depth_ref,
                clamp_to_edge,
            } => {
                self.indices(&[*image, *sampler])?;
                self.gathered_word(*gather)?;
                self.index(*coordinate)?;
                self.gathered_part(*gather)?;
                self.optional(*array_index)?;
                self.optional(*offset)?;
                self.level(*level)?;
                self.optional(*depth_ref)?;
                self.flag(*clamp_to_edge)
            }
            _ => Ok(()),
        }
    }

    /// Adds the operands of any other expression about an image.
    fn of_image(&mut self, expression: &Expression) -> Result<(), PrintError> {
        match expression {
            Expression::ImageLoad {
                image,
                coordinate,
                array_index,
                sample,
                level,
            } => {
                self.indices(&[*image, *coordinate])?;
                self.optional(*array_index)?;
                self.optional(*sample)?;
                self.optional(*level)
            }
            Expression::ImageQuery { image, query } => {
                self.index(*image)?;
                self.image_query(*query)
            }
            _ => Ok(()),
        }
    }

    /// Adds the operands of an expression that makes a vector, or an aggregate.
    fn of_parts(&mut self, expression: &Expression) -> Result<(), PrintError> {
        match expression {
            Expression::Compose { ty, components } => {
                self.index(*ty)?;
                self.indices(components.as_slice())
            }
            Expression::AccessIndex { base, index } => {
                self.index(*base)?;
                self.number(*index)
            }
            Expression::Splat { size, value } => {
                self.size(*size)?;
                self.index(*value)
            }
            Expression::Swizzle {
                size,
                vector,
                pattern,
            } => {
                self.size(*size)?;
                self.index(*vector)?;
                self.pattern(*pattern)
            }
            _ => Ok(()),
        }
    }

    /// Adds the operands of an expression that computes something.
    fn of_operator(&mut self, expression: &Expression) -> Result<(), PrintError> {
        match expression {
            Expression::Unary { op, expr } => {
                self.choice(unary_operator(*op))?;
                self.index(*expr)
            }
            Expression::Binary { op, left, right } => {
                self.choice(binary_operator(*op))?;
                self.indices(&[*left, *right])
            }
            Expression::Relational { fun, argument } => {
                self.choice(relational_function(*fun))?;
                self.index(*argument)
            }
            Expression::Math {
                fun,
                arg,
                arg1,
                arg2,
                arg3,
            } => {
                self.variant_choice(math_number(*fun), *fun)?;
                self.index(*arg)?;
                self.optional(*arg1)?;
                self.optional(*arg2)?;
                self.optional(*arg3)
            }
            Expression::As {
                expr,
                kind,
                convert,
            } => {
                self.index(*expr)?;
                self.conversion(*kind, *convert)
            }
            _ => Ok(()),
        }
    }

    /// Adds what a cooperative matrix is, if that is said.
    fn cooperative_shape(&mut self, shape: Option<CooperativeShape>) -> Result<(), PrintError> {
        let Some(shape) = shape else { return Ok(()) };
        self.number(u32::from(shape.columns.components()))?;
        self.number(u32::from(shape.rows.components()))?;
        self.choice(role(shape.role))
    }

    /// Adds the operands of an expression whose operands are expressions alone, or a cooperative matrix in memory.
    fn of_expressions(&mut self, expression: &Expression) -> Result<(), PrintError> {
        match expression {
            Expression::Access { base, index } => self.indices(&[*base, *index]),
            Expression::Load { pointer } => self.index(*pointer),
            Expression::Select {
                condition,
                accept,
                reject,
            } => self.indices(&[*condition, *accept, *reject]),
            Expression::Derivative { expr } => self.index(*expr),
            Expression::ArrayLength(array) => self.index(*array),
            Expression::RayQueryGetIntersection { query, committed }
            | Expression::RayQueryVertexPositions { query, committed } => {
                self.index(*query)?;
                self.flag(*committed)
            }
            Expression::CooperativeLoad {
                shape,
                pointer,
                stride,
            } => {
                self.indices(&[*pointer, *stride])?;
                self.cooperative_shape(*shape)
            }
            Expression::CooperativeMultiplyAdd { a, b, c } => self.indices(&[*a, *b, *c]),
            _ => Ok(()),
        }
    }

    /// Adds the operands of an expression that is the value of something else.
    fn of_item(&mut self, expression: &Expression) -> Result<(), PrintError> {
        match expression {
            Expression::Literal(literal) => self.literal(*literal),
            Expression::Constant(constant) => self.index(*constant),
            Expression::Override(id) => self.index(*id),
            Expression::ZeroValue(ty)
            | Expression::WorkGroupUniformLoadResult { ty }
            | Expression::SubgroupOperationResult { ty } => self.index(*ty),
            Expression::FunctionArgument(number) => self.number(*number),
            Expression::GlobalVariable(variable) => self.index(*variable),
            Expression::LocalVariable(variable) => self.index(*variable),
            Expression::CallResult(function) => self.index(*function),
            Expression::AtomicResult { ty, comparison } => {
                self.index(*ty)?;
                self.flag(*comparison)
            }
            _ => Ok(()),
        }
    }

    /// Prints an expression. Each of the groups of forms adds the operands of its own, and none of another's.
    pub(crate) fn expression(
        &mut self,
        place: Place,
        expression: &Expression,
    ) -> Result<(), PrintError> {
        let (number, word) = form_of(expression);
        match place {
            Place::Module => self.begin(64 + number, "g ")?,
            Place::Function => self.begin(128 + number, "f ")?,
        }
        self.part(word)?;
        self.of_item(expression)?;
        self.of_expressions(expression)?;
        self.of_parts(expression)?;
        self.of_operator(expression)?;
        self.of_sample(expression)?;
        self.of_image(expression)?;
        self.end()
    }
}
