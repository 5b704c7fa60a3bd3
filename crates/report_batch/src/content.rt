//! What a side has under an id: one content, or two that differ.
//! An id stands on a side where it has one content there.

ghost use Rattle.std.specs.Prelude.{◌≡◌, if◌then◌else◌};
ghost use Rattle.walk_definitions.specs.Reports.{same_share};
ghost use Rattle.report_batch.specs.declared.content.Content.TheVariants.{One, Clash};
ghost use Rattle.report_batch.specs.Contents.{met, both};

use idpf_eval::{Share, same_share};

/// What a side has under an id of which it has at least one share.
#[derive(Debug, Drop)]
pub enum Content {
    /// All shares of the id are equal to this one.
    One(Share),
    /// Two shares of the id differ.
    Clash,
}

impl Content {
    /// What a side has under an id after one more share of it, where `before` is what it had.
    pub fn met(before: Option<Content>, share: Share) -> Content
        ensures { result ≡ met before share }
    {
        match before {
            None => Content::One(share),
            Some(Content::One(held)) => one_if_equal(held, &share),
            Some(Content::Clash) => Content::Clash,
        }
    }
}

/// The content that two shares of one id make: the first of them where they are equal.
fn one_if_equal(held: Share, share: &Share) -> Content
    ensures { result ≡ (if same_share held share.now then One held else Clash) }
{
    if same_share(&held, share) {
        Content::One(held)
    } else {
        Content::Clash
    }
}

/// Both sides' shares, where each side has one content.
pub fn both(zero: Content, one: Option<Content>) -> Option<(Share, Share)>
    ensures { result ≡ both zero one }
{
    match (zero, one) {
        (Content::One(held0), Some(Content::One(held1))) => Some((held0, held1)),
        _ => None,
    }
}
