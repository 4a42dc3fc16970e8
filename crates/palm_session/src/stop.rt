//! Why a session stops before its text ends.
pub use palm_lang::WriteStop as Stop;
