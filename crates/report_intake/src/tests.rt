//! What no clause says: that the calls succeed, and what threads and passes make of four uploads.
//! The replies are read off the rule: the first entry of an id is stored, an equal one repeats, any other clashes from then on.

ghost use Rattle.std.specs.Prelude.{◌≡◌, ◌<◌, ◌≤◌, IfOk, length, vec_len};
ghost use Rattle.std.specs.List.{AllByRecursion};

use crate::intake::enter;
use crate::{HeldIntake, Intake, Reply, UploadPass, seal};
use definitions::{Sequence, Side};
use field64::Fe;
use idpf_eval::{LevelWord, Share};
use intake_state::IntakeState;
use prefix_bits::ReportId;
use seed_expand::Seed;
use std::alloc::{AllocError, Global};
use std::sync::Wait;
use turn_lock::{Pass, Turn};

// A share of 8 levels under an id; its content is the byte of its root seed.
fn share_of(alloc: Global, number: u64, content: u8) -> Result<Share, AllocError> {
    let word = LevelWord {
        seed: Seed([0; 32]),
        left: false,
        right: false,
        u: Fe::zero(),
        v: Fe::zero(),
        a: Fe::zero(),
        b: Fe::zero(),
    };
    Ok(Share {
        id: ReportId::of(258, number),
        root: Seed([content; 32]),
        corr: Seed([0; 32]),
        levels: Sequence::from_vec(vec![in alloc; word; 8]?),
    })
}

// One turn at the lock: the share goes into its state.
fn visit<R: Wait>(
    rt: &R,
    turn: &Turn<HeldIntake>,
    pass: Pass<HeldIntake>,
    share: Share,
) -> Pass<HeldIntake>
    requires { pass.lock ≡ turn.now.lock }
    ensures { result.lock ≡ turn.now.lock }
{
    let (HeldIntake(mut state), held) = turn.take(rt, pass);
    let _outcome = enter(&mut state, held.number(), share);
    turn.give(HeldIntake(state), held)
}

// The state after both passes uploaded a share, the first pass before the second.
fn both_visits<R: Wait>(rt: &R, alloc: Global) -> Result<IntakeState, AllocError> {
    let (turn, mut passes) = Turn::new(alloc, HeldIntake(IntakeState::new(alloc)), 2)?;
    let Some(second) = passes.pop() else {
        unreachable!()
    };
    let Some(first) = passes.pop() else {
        unreachable!()
    };
    let first = visit(rt, &turn, first, share_of(alloc, 7, 1)?);
    let second = visit(rt, &turn, second, share_of(alloc, 8, 2)?);
    passes.push_reserved(first);
    passes.push_reserved(second);
    let HeldIntake(state) = turn.close(passes);
    Ok(state)
}

#[test]
fn two_passes_in_turn(rt: HostRuntime) -> Result<(), AllocError> {
    let state = both_visits(&rt, rt.alloc())?;
    let [first, second] = state.entries() else {
        return Err(AllocError);
    };
    assert!(rt; first.number == 0 && first.share.id == ReportId::of(258, 7));
    assert!(rt; second.number == 1 && second.share.id == ReportId::of(258, 8));
    Ok(())
}

// One upload, of which the share is given up where memory is wanting.
fn upload_by<R: Wait>(
    rt: &R,
    intake: &Intake,
    pass: UploadPass,
    share: Share,
) -> Result<(Reply, UploadPass), AllocError>
    requires { pass.lock ≡ intake.now.lock }
    ensures { IfOk result (λ done. done.1.lock ≡ intake.now.lock) }
{
    match intake.upload(rt, pass, share) {
        Ok(done) => Ok(done),
        Err((refused, _share, _pass)) => Err(refused),
    }
}

// One upload by the second of two passes, or by the first.
fn upload_by_either<R: Wait>(
    rt: &R,
    intake: &Intake,
    first: UploadPass,
    second: UploadPass,
    by_second: bool,
    share: Share,
) -> Result<(Reply, UploadPass, UploadPass), AllocError>
    requires { (first.lock ≡ intake.now.lock) × (second.lock ≡ intake.now.lock) }
    ensures { IfOk result (λ done. (done.1.lock ≡ intake.now.lock) × (done.2.lock ≡ intake.now.lock)) }
{
    if by_second {
        let (reply, second) = upload_by(rt, intake, second, share)?;
        Ok((reply, first, second))
    } else {
        let (reply, first) = upload_by(rt, intake, first, share)?;
        Ok((reply, first, second))
    }
}

// An intake after uploads of shares with these ids and contents, and the replies: upload k is the second pass's where bit k of
// `seconds` is 1, and else the first's.
fn uploads_of<R: Wait>(
    rt: &R,
    alloc: Global,
    side: Side,
    shares: &[(u64, u8)],
    seconds: u32,
) -> Result<(Intake, Vec<UploadPass>, Vec<Reply>), AllocError>
    ensures side { IfOk result (λ made. made.0.side ≡ side) }
    ensures passes { IfOk result (λ made. (vec_len made.1 ≡ made.0.passes) × AllByRecursion (λ pass. pass.lock ≡ made.0.lock) made.1.items) }
{
    let (intake, mut passes) = Intake::new(alloc, side, 2)?;
    let Some(mut second) = passes.pop() else {
        unreachable!()
    };
    let Some(mut first) = passes.pop() else {
        unreachable!()
    };
    let mut replies = Vec::new(alloc);
    let mut left = seconds;
    for (id, content) in shares {
        let share = share_of(alloc, *id, *content)?;
        let (reply, one, two) = upload_by_either(rt, &intake, first, second, left % 2 == 1, share)?;
        first = one;
        second = two;
        replies.push(reply)?;
        left /= 2;
    }
    passes.push_reserved(second);
    passes.push_reserved(first);
    Ok((intake, passes, replies))
}

// The replies to four contents under one id, uploaded by these passes, where each is an entry.
fn has_replies<R: Wait>(
    rt: &R,
    alloc: Global,
    contents: &[u8],
    seconds: u32,
    expected: &[Reply],
) -> Result<bool, AllocError> {
    let mut shares = Vec::new(alloc);
    for content in contents {
        shares.push((7, *content))?;
    }
    let (intake, passes, replies) = uploads_of(rt, alloc, Side::Zero, &shares, seconds)?;
    let state = intake.close(passes);
    Ok(replies.as_slice() == expected && state.entries().len() == contents.len())
}

#[test]
fn four_uploads_in_every_order_by_two_passes(rt: HostRuntime) -> Result<(), AllocError> {
    let alloc = rt.alloc();
    let (stored, repeat, clash) = (Reply::Stored, Reply::Repeat, Reply::Clash);
    let cases = [
        ([1, 1, 2, 1], [stored, repeat, clash, clash]),
        ([2, 1, 1, 1], [stored, clash, clash, clash]),
        ([1, 2, 1, 1], [stored, clash, clash, clash]),
        ([1, 1, 1, 2], [stored, repeat, repeat, clash]),
    ];
    for seconds in 0..16 {
        for (contents, expected) in &cases {
            assert!(rt; has_replies(&rt, alloc, contents, seconds, expected)?);
        }
    }
    Ok(())
}

#[test]
fn an_id_that_clashes_between_two_passes_is_left_out(rt: HostRuntime) -> Result<(), AllocError> {
    let alloc = rt.alloc();
    let twice = [(7, 1), (7, 1), (8, 3), (7, 2), (7, 1)];
    let once = [(7, 5), (8, 5)];
    for seconds in 0..32 {
        let (zero, passes_zero, _replies) = uploads_of(&rt, alloc, Side::Zero, &twice, seconds)?;
        let (one, passes_one, _others) = uploads_of(&rt, alloc, Side::One, &once, 1)?;
        let batch = seal(alloc, zero, one, passes_zero, passes_one)?;
        assert_eq!(rt; batch.ids(), [ReportId::of(258, 8)].as_slice());
    }
    Ok(())
}
