//! A module while it is built out of items, for the readers of words and of texts.
#![tactic(auto)]

pub mod adding;
pub mod blocks;
pub mod draft;
pub mod functions;
pub mod item;
pub mod unread;
