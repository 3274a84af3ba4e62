//! Method bodies (ECMA-335 II.25.4).

use rtr_bytes::Span;

/// The body of a method, by what its header says.
#[derive(Clone, Copy, Debug, PartialEq, Eq)]
pub struct Body {
    /// MaxStack: how many values the stack holds at most. A tiny header stands for 8.
    pub max_stack: u16,
    /// LocalVarSigTok: the token of the signature of the locals, as the header has it. The whole number 0 is no locals.
    pub locals: u32,
    /// The code, as a range of the file.
    pub code: Span,
    /// MoreSects: more sections follow the code.
    pub more: bool,
}
