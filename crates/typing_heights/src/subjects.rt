//! The method that is typed.
use jo_ids::MethodId;
use jo_prog::program::{Code, Method, Program};

/// A method of a program, and its code.
#[derive(Drop)]
pub struct Subject<'p> {
    pub program: &'p Program,
    pub number: MethodId,
    pub method: &'p Method,
    pub code: &'p Code,
}
