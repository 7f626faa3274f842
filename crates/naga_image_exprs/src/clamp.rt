//! Where coordinates can be clamped to the edges of an image.

ghost use Rattle.std.specs.Prelude.{◌≡◌};
ghost use Rattle.std.specs.Option.{is_none};
ghost use Rattle.naga_image_exprs.specs.Samples as rule;
ghost use Rattle.naga_image_exprs.specs.steps.Clamps.{IsClampResult};

use crate::resource::ImageType;
use crate::sample::Sample;
use naga_info::expression_error::ExpressionError;
use naga_ir::expression::SampleLevel;
use naga_ir::memory::OutOfMemory;
use naga_ir::types::{ImageClass, ImageDimension, ScalarKind};
use std::alloc::Global;
use std::fmt;

/// Why coordinates can't be clamped.
#[derive(Clone, Copy)]
enum ClampFault {
    Class(ImageClass),
    Dimension(ImageDimension),
    Gather,
    ArrayIndex,
    Offset,
    Level,
    DepthComparison,
}

impl fmt::Display for ClampFault {
    fn fmt<W: fmt::Write>(&self, f: &mut fmt::Formatter<W>) -> fmt::Result {
        match self {
            Self::Class(class) => write!(f, "image class `{class:?}`"),
            Self::Dimension(dim) => write!(f, "image dimension `{dim:?}`"),
            Self::Gather => f.write_str("gather"),
            Self::ArrayIndex => f.write_str("array index"),
            Self::Offset => f.write_str("offset"),
            Self::Level => f.write_str("non-zero level"),
            Self::DepthComparison => f.write_str("depth comparison"),
        }
    }
}

/// Whether images of a class hold floating-point numbers that can be filtered.
pub(crate) fn is_filtered(class: ImageClass) -> bool
    ensures { result ≡ rule.is_filtered class }
{
    match class {
        ImageClass::Sampled { kind, multi } => kind == ScalarKind::Float && !multi,
        ImageClass::Depth { .. } | ImageClass::Storage { .. } | ImageClass::External => false,
    }
}

/// The first reason, in naga's order, why coordinates in an image can't be clamped, if there is one.
fn clamp_fault(image: ImageType, sample: &Sample) -> Option<ClampFault>
    ensures { is_none result ≡ rule.can_clamp image sample.now }
{
    if !is_filtered(image.class) && image.class != ImageClass::External {
        return Some(ClampFault::Class(image.class));
    }
    if image.dim != ImageDimension::D2 {
        return Some(ClampFault::Dimension(image.dim));
    }
    if sample.gather.is_some() {
        return Some(ClampFault::Gather);
    }
    if sample.array_index.is_some() {
        return Some(ClampFault::ArrayIndex);
    }
    if sample.offset.is_some() {
        return Some(ClampFault::Offset);
    }
    if sample.level != SampleLevel::Zero {
        return Some(ClampFault::Level);
    }
    if sample.depth_ref.is_some() {
        return Some(ClampFault::DepthComparison);
    }
    None
}

/// The text of a fault, in memory of its own.
fn text_of(alloc: Global, fault: ClampFault) -> Result<String, OutOfMemory> {
    Ok(format!(in alloc; "{fault}")?)
}

/// Checks that coordinates are clamped only if that is possible.
pub(crate) fn check_clamp(
    alloc: Global,
    image: ImageType,
    sample: &Sample,
) -> Result<(), ExpressionError>
    ensures { IsClampResult image sample.now result }
{
    if !sample.clamp_to_edge {
        return Ok(());
    }
    match clamp_fault(image, sample) {
        Some(fault) => Err(ExpressionError::InvalidSampleClampCoordinateToEdge(text_of(
            alloc, fault,
        )?)),
        None => Ok(()),
    }
}
