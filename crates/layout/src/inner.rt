// Compiling layouts and checking plans, for proved callers.
pub mod check;
pub mod compiler;
pub mod size;
pub mod steps;
