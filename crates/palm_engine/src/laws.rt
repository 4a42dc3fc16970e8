//! The laws of settlings, and of what they ask.

pub mod settling;
pub mod work;
