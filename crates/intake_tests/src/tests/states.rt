//! Uploads of one id in two orders: what is answered, and that each upload is an entry.
//! The replies are read off the rule: the first entry is stored, an equal one repeats, any other clashes from then on.

ghost use Rattle.std.specs.Prelude.{◌≡◌, IfOk, length};

use definitions::Sequence;
use field64::Fe;
use idpf_eval::{LevelWord, Share};
use intake_state::{IntakeState, Reply};
use prefix_bits::ReportId;
use seed_expand::Seed;
use std::alloc::{AllocError, Global};

// A share of 8 levels; its content is the byte of its root seed.
fn share_of(alloc: Global, content: u8) -> Result<Share, AllocError> {
    let word = LevelWord {
        seed: Seed([0; 32]),
        left: false,
        right: false,
        u: Fe::zero(),
        v: Fe::zero(),
        a: Fe::zero(),
        b: Fe::zero(),
    };
    Ok(Share {
        id: ReportId::of(258, 7),
        root: Seed([content; 32]),
        corr: Seed([0; 32]),
        levels: Sequence::from_vec(vec![in alloc; word; 8]?),
    })
}

// The replies to shares of these contents, uploaded in order, and the number of entries after them.
fn replies_to(alloc: Global, contents: &[u8]) -> Result<(Vec<Reply>, usize), AllocError> {
    let mut state = IntakeState::new(alloc);
    let mut replies = Vec::new(alloc);
    for content in contents {
        match state.upload(3, share_of(alloc, *content)?) {
            Ok(reply) => replies.push(reply)?,
            Err((refused, _share)) => return Err(refused),
        }
    }
    Ok((replies, state.entries().len()))
}

#[test]
fn a_content_between_two_equal_ones_clashes(rt: HostRuntime) -> Result<(), AllocError> {
    let (replies, count) = replies_to(rt.alloc(), &[1, 1, 2, 1])?;
    let expected = [Reply::Stored, Reply::Repeat, Reply::Clash, Reply::Clash];
    assert!(rt; replies.as_slice() == expected.as_slice());
    assert_eq!(rt; count, 4);
    let (replies, count) = replies_to(rt.alloc(), &[2, 1, 1, 1])?;
    let expected = [Reply::Stored, Reply::Clash, Reply::Clash, Reply::Clash];
    assert!(rt; replies.as_slice() == expected.as_slice());
    assert_eq!(rt; count, 4);
    Ok(())
}
