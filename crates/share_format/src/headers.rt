//! The header of a share file, its first 8 bytes.
//! It is read byte by byte, so that a refusal names the first byte at fault.

ghost use Rattle.std.specs.Prelude.{◌≡◌, ◌≤◌, ◌<◌, None, Some, length, take, slice_index, IsTrue, IfOk, IfErr};
ghost use Rattle.share_format.specs.Spelling.{header};
ghost use Rattle.share_format.specs.ShareFile.{may_stand, is_width, header_fault};

use prefix_bits::Side;

/// The bytes before the first record.
pub const HEADER_LEN: usize = 8;

/// The most bytes of a string, the width of a file.
const MOST_WIDTH: u8 = 32;

/// What the header of a share file says.
#[derive(Clone, Copy, Debug, PartialEq, Eq)]
pub struct Header {
    /// The side whose shares the file has.
    pub side: Side,
    /// The bytes of a string, 1 to 32; a share has 8 levels for each.
    pub width: u8,
}

impl Header {
    /// The bytes of the header. The width is to be 1 to 32.
    pub fn write(&self) -> [u8; HEADER_LEN]
        requires least { 1 ≤ self.now.width }
        requires most { self.now.width ≤ 32 }
        ensures bytes { result ≡ header self.now.side self.now.width }
    {
        let number = match self.side {
            Side::Zero => 0,
            Side::One => 1,
        };
        [0x50, 0x50, 0x4c, 0x52, 1, number, self.width, 0]
    }

    /// The header that the first 8 bytes are, where it is one of this side. Else the first offset whose byte is missing or
    /// wrong.
    #[tactic(auto, using(crate::proofs::HeaderSteps::header_steps))]
    pub fn read(bytes: &[u8], side: Side) -> Result<Header, u32>
        ensures side { IfOk result (λ read. read.side ≡ side) }
        ensures width { IfOk result (λ read. IsTrue (is_width read.width)) }
        ensures spelled { IfOk result (λ read. take 8 bytes.now ≡ header side read.width) }
        ensures right { IfOk result (λ read. (header_fault side bytes.now ≡ None) × (slice_index bytes.now 6 ≡ read.width)) }
        ensures refused { IfErr result (λ at. header_fault side bytes.now ≡ Some at) }
    {
        for at in 0..HEADER_LEN {
            if at >= bytes.len() || !may_stand(side, at, bytes[at]) {
                return Err(at as u32);
            }
        }
        Ok(Header {
            side,
            width: bytes[6],
        })
    }
}

/// Whether a byte may stand at an offset of the header of this side.
fn may_stand(side: Side, at: usize, byte: u8) -> bool
    requires { at < 8 }
    ensures { result ≡ may_stand side at byte }
{
    if at == 6 {
        1 <= byte && byte <= MOST_WIDTH
    } else {
        byte == Header { side, width: 1 }.write()[at]
    }
}
