// Numbers for the forms of values.
ghost use Rattle.std.specs.Prelude.{◌≡◌};
ghost use Rattle.tc_stmt.specs.OperandForms.{shape_index};

use tc_lex::Shape;

/// No value.
pub(crate) const ABSENT: u8 = 0;

/// A number below 2^128.
pub(crate) const NUMBER: u8 = 1;

/// A name.
pub(crate) const WORD: u8 = 2;

/// A name plus a number.
pub(crate) const SUM: u8 = 3;

/// The upper half of an address.
pub(crate) const HIGH: u8 = 4;

/// The lower half of an address.
pub(crate) const LOW: u8 = 5;

/// None of these.
const BAD: u8 = 6;

/// A number of 2^128 or more.
pub(crate) const HUGE: u8 = 7;

/// A number for each form of an operand's value, so that forms can be compared.
#[tactic(auto, unfolding(crate::specs::OperandForms::shape_index))]
pub fn shape_index(shape: Shape) -> u8
    ensures { result ≡ shape_index shape }
{
    match shape {
        Shape::Absent => ABSENT,
        Shape::Number => NUMBER,
        Shape::Word => WORD,
        Shape::Sum => SUM,
        Shape::High => HIGH,
        Shape::Low => LOW,
        Shape::Bad => BAD,
        Shape::Huge => HUGE,
    }
}
