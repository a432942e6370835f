//! The threads of a program, as a seat has them.

use std::marker::PhantomData;
use std::sync::Wait;
use std::thread::Threads;

/// That the program may start threads and may wait, as a handle says. Threads share it whatever the handle is: in a method of a
/// trait it isn't known that they share that one.
#[derive(Drop)]
pub struct Crew<R> {
    of: PhantomData<R>,
}

impl<R: Threads> Threads for Crew<R> {}

impl<R: Wait> Wait for Crew<R> {}

impl<R> Crew<R> {
    /// By this handle.
    pub fn new(_rt: &R) -> Crew<R> {
        Crew { of: PhantomData }
    }
}
