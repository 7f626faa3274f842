//! The formats of storage images.

ghost use Rattle.std.specs.Prelude.{◌≡◌};
ghost use Rattle.naga_ir.specs.StorageFormats.{format_scalar};

use crate::types::Scalar;

/// The format of the texels of a storage image (WGSL, "Texel Formats"; naga, `StorageFormat`).
#[derive(Clone, Copy, Debug, PartialEq, Eq, Hash)]
pub enum StorageFormat {
    R8Unorm,
    R8Snorm,
    R8Uint,
    R8Sint,
    R16Uint,
    R16Sint,
    R16Float,
    Rg8Unorm,
    Rg8Snorm,
    Rg8Uint,
    Rg8Sint,
    R32Uint,
    R32Sint,
    R32Float,
    Rg16Uint,
    Rg16Sint,
    Rg16Float,
    Rgba8Unorm,
    Rgba8Snorm,
    Rgba8Uint,
    Rgba8Sint,
    Bgra8Unorm,
    Rgb10a2Uint,
    Rgb10a2Unorm,
    Rg11b10Ufloat,
    R64Uint,
    Rg32Uint,
    Rg32Sint,
    Rg32Float,
    Rgba16Uint,
    Rgba16Sint,
    Rgba16Float,
    Rgba32Uint,
    Rgba32Sint,
    Rgba32Float,
    R16Unorm,
    R16Snorm,
    Rg16Unorm,
    Rg16Snorm,
    Rgba16Unorm,
    Rgba16Snorm,
}

impl StorageFormat {
    /// The scalar of which the shader sees a texel made (WGSL, "Channel Formats"): the integers of a format of integers,
    /// of eight bytes for the one of 64 bits, and floating-point numbers for all other formats.
    pub fn scalar(self) -> Scalar
        ensures { result ≡ format_scalar self }
    {
        match self {
            StorageFormat::R8Unorm
            | StorageFormat::R8Snorm
            | StorageFormat::R16Float
            | StorageFormat::Rg8Unorm
            | StorageFormat::Rg8Snorm
            | StorageFormat::R32Float
            | StorageFormat::Rg16Float
            | StorageFormat::Rgba8Unorm
            | StorageFormat::Rgba8Snorm
            | StorageFormat::Bgra8Unorm
            | StorageFormat::Rgb10a2Unorm
            | StorageFormat::Rg11b10Ufloat
            | StorageFormat::Rg32Float
            | StorageFormat::Rgba16Float
            | StorageFormat::Rgba32Float
            | StorageFormat::R16Unorm
            | StorageFormat::R16Snorm
            | StorageFormat::Rg16Unorm
            | StorageFormat::Rg16Snorm
            | StorageFormat::Rgba16Unorm
            | StorageFormat::Rgba16Snorm => Scalar::F32,
            StorageFormat::R8Uint
            | StorageFormat::R16Uint
            | StorageFormat::Rg8Uint
            | StorageFormat::R32Uint
            | StorageFormat::Rg16Uint
            | StorageFormat::Rgba8Uint
            | StorageFormat::Rgb10a2Uint
            | StorageFormat::Rg32Uint
            | StorageFormat::Rgba16Uint
            | StorageFormat::Rgba32Uint => Scalar::U32,
            StorageFormat::R8Sint
            | StorageFormat::R16Sint
            | StorageFormat::Rg8Sint
            | StorageFormat::R32Sint
            | StorageFormat::Rg16Sint
            | StorageFormat::Rgba8Sint
            | StorageFormat::Rg32Sint
            | StorageFormat::Rgba16Sint
            | StorageFormat::Rgba32Sint => Scalar::I32,
            StorageFormat::R64Uint => Scalar::U64,
        }
    }
}
