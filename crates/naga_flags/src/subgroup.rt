//! The groups of subgroup operations that statements need.

ghost use Rattle.std.specs.Prelude.{◌≡◌};
ghost use Rattle.naga_flags.specs.Subgroups as spec;

use crate::flags::SubgroupOperationSet;
use naga_ir::statement::{GatherMode, SubgroupOperation};

/// The group of operations that a collective operation needs, by naga's
/// `SubgroupOperation::required_operations`.
pub fn required_operations(op: SubgroupOperation) -> SubgroupOperationSet
    ensures { result ≡ record { 0 = spec.required_operations op } }
{
    match op {
        SubgroupOperation::All | SubgroupOperation::Any => SubgroupOperationSet::VOTE,
        SubgroupOperation::Add
        | SubgroupOperation::Mul
        | SubgroupOperation::Min
        | SubgroupOperation::Max
        | SubgroupOperation::And
        | SubgroupOperation::Or
        | SubgroupOperation::Xor => SubgroupOperationSet::ARITHMETIC,
    }
}

/// The group of operations that a gather needs, by naga's `GatherMode::required_operations`.
pub fn required_operations_of_gather(mode: GatherMode) -> SubgroupOperationSet
    ensures { result ≡ record { 0 = spec.required_operations_of_gather mode } }
{
    match mode {
        GatherMode::BroadcastFirst | GatherMode::Broadcast(_) => SubgroupOperationSet::BALLOT,
        GatherMode::Shuffle(_) | GatherMode::ShuffleXor(_) => SubgroupOperationSet::SHUFFLE,
        GatherMode::ShuffleUp(_) | GatherMode::ShuffleDown(_) => {
            SubgroupOperationSet::SHUFFLE_RELATIVE
        }
        GatherMode::QuadBroadcast(_) | GatherMode::QuadSwap => {
            SubgroupOperationSet::QUAD_FRAGMENT_COMPUTE
        }
    }
}
