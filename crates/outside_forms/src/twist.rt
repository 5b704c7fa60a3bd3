//! What a link may do to a message on its way.
//! The elements of a message have 8 bytes each, the lowest first, behind a heading of 7 bytes.

ghost use Rattle.std.specs.Prelude.{◌≡◌, length};
ghost use Rattle.outside_forms.specs.Twists.{raised, twisted};

use definitions::plain_field::{MODULUS, add};

/// A change of one message. Bytes and elements are counted from 0; a message that has no such byte or element stays as it is.
#[derive(Clone, Copy, Debug, PartialEq, Eq)]
pub enum Twist {
    /// The byte at a place is this one.
    Byte {
        /// The place of the byte in the message.
        at: u32,
        /// What it becomes.
        value: u8,
    },
    /// 1 is added to an element, modulo the modulus. Eight bytes that are no element stay as they are.
    Raise {
        /// The number of the element behind the heading.
        element: u32,
    },
}

/// Adds 1 to the element that eight bytes are.
fn raise(bytes: &mut [u8])
    requires { length bytes.old ≡ 8 }
    ensures { bytes.new ≡ raised bytes.old }
{
    let mut number = [0; 8];
    number.copy_from_slice(bytes);
    let element = u64::from_le_bytes(number);
    if element < MODULUS {
        bytes.copy_from_slice(&add(element, 1).to_le_bytes());
    }
}

/// Changes a message.
pub fn change(twist: Twist, message: &mut [u8])
    ensures { message.new ≡ twisted twist message.old }
{
    match twist {
        Twist::Byte { at, value } => {
            let at = at as usize;
            if at < message.len() {
                message[at] = value;
            }
        }
        Twist::Raise { element } => {
            let at = 7 + 8 * element as usize;
            if at + 8 <= message.len() {
                raise(&mut message[at..at + 8]);
            }
        }
    }
}
