//! A batch of reports: three lists of one length, the ids ascending, and at each place both sides' shares of that id.
//! It is seen as the list of its reports, which are records of `walk_definitions`.

ghost use Rattle.std.specs.Prelude.{◌≡◌, length, map};
ghost use Rattle.walk_definitions.specs.Reports.{held};
ghost use Rattle.walk_definitions.specs.Laws.{IdsAscend};
ghost use Rattle.report_batch.specs.Batches.{reports_of, IsBatch};

use definitions::{Sequence, Side};
use idpf_eval::Share;
use prefix_bits::ReportId;
use std::marker::Model;

/// The reports that both sides hold without clash, ascending by id, each id once.
#[derive(Debug, Drop)]
pub struct Batch {
    ids: Sequence<ReportId>,
    zero: Sequence<Share>,
    one: Sequence<Share>,
}

impl Model for Batch {
    ghost use Rattle.std.specs.Prelude.{List};
    ghost use Rattle.walk_definitions.specs.Reports.{Report};
    ghost use Rattle.report_batch.specs.Batches.{reports_of, IsBatch};

    ghost Value = { List Report };

    ghost view = { λ b. reports_of b.ids b.zero b.one };

    ghost invariant = { λ b. IsBatch b.ids b.zero b.one };
}

impl Batch {
    /// The batch of three lists that are one.
    pub(crate) fn of_lists(
        ids: Sequence<ReportId>,
        zero: Sequence<Share>,
        one: Sequence<Share>,
    ) -> Batch
        requires { IsBatch ids zero one }
        ensures { result ≡ reports_of ids zero one }
    {
        Batch { ids, zero, one }
    }

    /// The ids, ascending by bytes, each once.
    pub fn ids(&self) -> &[ReportId]
        ensures ids { result.now ≡ map (λ r. r.id) self.now }
        ensures ascend { IdsAscend self.now }
    {
        self.ids.as_slice()
    }

    /// A side's shares, one of each report, in the order of the ids. Each has the id of its place.
    pub fn shares(&self, side: Side) -> &[Share]
        ensures shares { result.now ≡ map (λ r. held r side) self.now }
        ensures named { map (λ s. s.id) result.now ≡ map (λ r. r.id) self.now }
    {
        match side {
            Side::Zero => self.zero.as_slice(),
            Side::One => self.one.as_slice(),
        }
    }

    /// The number of reports.
    pub fn len(&self) -> usize
        ensures { result ≡ length self.now }
    {
        self.ids.len()
    }
}
