//! What holds of tiles and of every list of events, over the definitions alone, each law the contract of a function that
//! does nothing. The bodies that add up tiles and run events rest on these.

ghost use Rattle.core_definitions.specs.Laws.{CoverLaw, TilesLaw, CoreLaw};

/// Each pair of a report and a candidate is in one tile, and in no other.
pub fn tiles_cover_each_pair_once()
    ensures cover { CoverLaw }
{}

/// The sums of all tiles, each once and in any order, are the plain sums over all reports and all candidates.
pub fn tiles_add_up()
    ensures sums { TilesLaw }
{}

/// Whatever events come in whatever order: before the batch is made both logs are legal and have what was uploaded; after
/// it the batch is that of what was uploaded, and the system is at a level and phase of the one-thread walk over it, or has
/// that walk's end. Every part of the fact that each event keeps holds then.
pub fn every_list_of_events_walks()
    ensures walk { CoreLaw }
{}
