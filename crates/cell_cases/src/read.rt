// Numbers and orders of a line.
use case_lines::{Fault, member, text};
use cells::Order;
use json_forms::whole_number;
use serde_json::Value;

pub(crate) fn whole(v: &Value, name: &str) -> Result<i128, Fault> {
    whole_number(member(v, name)?).ok_or(Fault::Line)
}

pub(crate) fn order(v: &Value) -> Result<Order, Fault> {
    match text(v, "order")? {
        "C" => Ok(Order::C),
        "F" => Ok(Order::F),
        _ => Err(Fault::Line),
    }
}
