//! The descriptors 0 to 2 of a program that was started without one of them.

use std::fs;
use std::fs::File;
use std::rt::Files;

/// Holds the lowest descriptors that were free when the program began.
#[derive(Drop)]
pub struct Descriptors {
    _first: Option<File>,
    _second: Option<File>,
    _third: Option<File>,
}

/// Something that can be neither read nor written.
fn held<R: Files<File = File>>(rt: &R) -> Option<File> {
    fs::open(rt, "/").ok()
}

/// Takes the three lowest descriptors that are free. A program that was started with one of its standard streams closed
/// would else open its next file there, and write into it what is meant for the stream. What is held is a folder, opened
/// for reading: to read it is a fault, and so is to write it.
pub fn occupied<R: Files<File = File>>(rt: &R) -> Descriptors {
    Descriptors {
        _first: held(rt),
        _second: held(rt),
        _third: held(rt),
    }
}
