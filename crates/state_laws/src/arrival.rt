// An array that is about to enter the run.
use history::{ArrayInfo, Form};
use stack_driver::ArrayRef;

/// What is needed of an array to enter it: how it is opened, its form, and how views name it.
#[derive(Drop)]
pub struct NewArray {
    pub info: ArrayInfo,
    pub form: Form,
    pub array: ArrayRef,
}
