//! One uploader: a pass of its side's intake, and the shares that it has to upload.
//! Before each upload it asks the gate.

ghost use Rattle.std.specs.Prelude.{◌≡◌, ◌<◌, length, All, vec_len, vec_capacity};
ghost use Rattle.std.specs.List.{AllByRecursion, AllZip};
ghost use Rattle.report_collection.specs.Uploads.{HasUploaded, Seated, Served};

use definitions::Side;
use idpf_eval::Share;
use report_intake::{Intake, UploadPass};
use seats::{Site, serve_all};
use shelf_io::Gate;
use std::sync::Wait;
use std::thread::Threads;

/// An uploader with the shares that are left to it, the next one last.
#[derive(Drop)]
pub struct Uploader {
    pub pass: UploadPass,
    pub queue: Vec<Share>,
}

/// Who is asked by one thread. It is not said that threads may share it, so that a method of an `impl` can call what asks it.
pub trait Asked {
    /// Called before each upload of an uploader.
    fn ask(&self, uploader: u32);
}

/// A gate, as the uploaders of a side ask it.
#[derive(Drop)]
pub struct AtGate<'g, G> {
    pub side: Side,
    pub gate: &'g G,
}

impl<'g, G: Gate> Asked for AtGate<'g, G> {
    fn ask(&self, uploader: u32) {
        self.gate.at_upload(self.side, uploader);
    }
}

/// What the uploaders of a side share.
#[derive(Drop)]
pub struct Shared<'t, G> {
    pub intake: &'t Intake,
    pub gate: &'t G,
}

/// Uploads share after share, until none is left or one finds no memory; then that one stays among those that are left.
fn upload_all<'t, G: Asked, R: Wait>(rt: &R, shared: &Shared<'t, G>, uploader: Uploader) -> Uploader
    requires lock { uploader.pass.lock ≡ shared.now.intake.now.lock }
    ensures lock { result.pass.lock ≡ shared.now.intake.now.lock }
    ensures uploads { HasUploaded uploader.pass.own uploader.queue.items result.pass.own result.queue.items }
{
    let Uploader {
        mut pass,
        mut queue,
    } = uploader;
    let number = pass.number();
    while let Some(share) = queue.pop() {
        shared.gate.ask(number);
        match shared.intake.upload(rt, pass, share) {
            Ok((_, after)) => pass = after,
            Err((_, refused, after)) => {
                queue.push_reserved(refused);
                return Uploader { pass: after, queue };
            }
        }
    }
    Uploader { pass, queue }
}

impl<'t, G: Asked> Site<Option<Uploader>> for Shared<'t, G> {
    ghost ready = { λ shared seat. Seated shared.intake.now.lock seat };

    ghost done = { λ shared old new. Served shared.intake.now.lock old new };

    fn serve<R: Wait>(&self, rt: &R, seat: &mut Option<Uploader>) {
        let Some(uploader) = seat.take() else {
            unreachable!()
        };
        *seat = Some(upload_all(rt, self, uploader));
    }
}

/// All uploads at once, in threads of their own where these can be made.
fn all_upload<'t, G: Asked + Sync, R: Threads + Wait + Sync>(
    rt: &R,
    shared: &Shared<'t, G>,
    seats: &mut [Option<Uploader>],
)
    requires some { 0 < length seats.old }
    requires ready { All (Seated shared.now.intake.now.lock) seats.old }
    ensures done { AllZip (Served shared.now.intake.now.lock) seats.old seats.new }
{
    serve_all(rt, shared, seats);
}

/// All uploaders of an intake's side upload at once, and ask the gate.
pub fn all_upload_at<G: Gate, R: Threads + Wait + Sync>(
    rt: &R,
    intake: &Intake,
    gate: &G,
    seats: &mut Vec<Option<Uploader>>,
)
    requires some { 0 < vec_len seats.old }
    requires ready { AllByRecursion (Seated intake.now.lock) seats.old.items }
    ensures done { AllZip (Served intake.now.lock) seats.old.items seats.new.items }
    ensures same { (vec_len seats.new ≡ vec_len seats.old) × (vec_capacity seats.new ≡ vec_capacity seats.old) }
{
    let side = intake.side();
    let asked = AtGate { side, gate };
    let shared = Shared {
        intake,
        gate: &asked,
    };
    all_upload(rt, &shared, seats.as_mut_slice());
}
