//! What queries are answered.

pub mod declarations;
pub mod exchange;
pub mod functions;
pub mod leaves;
pub mod modules;
pub mod overloads;
pub mod shaders;
pub mod slots;
pub mod texts;
pub mod types;
pub mod typing;
