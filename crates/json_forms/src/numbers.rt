ghost use Rattle.std.specs.Prelude.{◌≡◌};
ghost use Rattle.serde_json.specs.View.{view};
ghost use Rattle.json_forms.specs.Numbers.{whole_number};

use serde_json::Value;

/// The integer, where the value is a number that is held as a signed or an unsigned integer of 64 bits. A number that
/// was written with a fraction, an exponent or as `-0`, or that is past these types, is none.
pub fn whole_number(value: &Value) -> Option<i128>
    ensures { result ≡ whole_number (view value.now) }
{
    match value.as_number() {
        Some(number) => number.as_i128(),
        None => None,
    }
}
