//! The id of a report: 16 bytes, a tag and the number of a line.
//! Its spelling is `report_id` of the crate `definitions`, which the coins of the check also read.

ghost use Rattle.std.specs.Prelude.{◌≡◌};
ghost use Rattle.definitions.specs.ReportIds.{report_id, id_high, id_low};

use std::marker::Model;

/// The id of a report, 16 bytes. Two ids are ordered by their bytes: the first byte that differs decides.
#[derive(Clone, Copy, Debug, PartialEq, Eq, PartialOrd, Ord, Hash)]
pub struct ReportId(pub [u8; 16]);

impl Model for ReportId {
    ghost use Rattle.std.specs.Prelude.{List, ℕ};

    ghost Value = { List ℕ };

    ghost view = { λ id. id.0 };

    ghost inverse = { λ bytes. record { 0 = bytes } };
}

impl ReportId {
    /// The id of a tag and a line's number: 8 bytes of each, the highest byte first.
    pub fn of(tag: u64, line: u64) -> ReportId
        ensures { result ≡ report_id tag line }
    {
        let mut bytes = [0; 16];
        bytes[..8].copy_from_slice(&tag.to_be_bytes());
        bytes[8..].copy_from_slice(&line.to_be_bytes());
        ReportId(bytes)
    }

    /// The number of the first 8 bytes, the highest byte first.
    pub fn high(&self) -> u64
        ensures { result ≡ id_high self.now }
    {
        let [a, b, c, d, e, f, g, h, ..] = self.0;
        u64::from_be_bytes([a, b, c, d, e, f, g, h])
    }

    /// The number of the last 8 bytes, the highest byte first.
    pub fn low(&self) -> u64
        ensures { result ≡ id_low self.now }
    {
        let [.., a, b, c, d, e, f, g, h] = self.0;
        u64::from_be_bytes([a, b, c, d, e, f, g, h])
    }
}
