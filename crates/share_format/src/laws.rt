//! Laws of records, headers and files over the definitions alone, each the contract of a function that does nothing.
//! They say that writing and reading undo each other, so that each share has one spelling and each file of shares is read.

ghost use Rattle.share_format.specs.Laws.{SpellingLaw, ReadingLaw, HeaderLaw, FileLaw};

/// A well-formed record is the spelling of its share, and of no other share.
pub fn a_well_formed_record_is_spelled_by_its_share()
    ensures law { SpellingLaw }
{}

/// The spelling of a share has a record's length, and is read as that share.
pub fn a_spelling_is_read_as_its_share()
    ensures law { ReadingLaw }
{}

/// Bytes that begin with a header of the side asked for are without a fault in the header.
pub fn a_header_is_right()
    ensures law { HeaderLaw }
{}

/// A header and the spellings of shares behind it, where they are not too many bytes, are a whole file whose records are these
/// shares in order.
pub fn a_file_of_shares_is_read_as_them()
    ensures law { FileLaw }
{}
