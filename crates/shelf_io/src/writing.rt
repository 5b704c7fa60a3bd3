//! Writing of whole texts to a sink and to a named file.
//! Each turn takes at least one byte or ends the loop.

ghost use Rattle.std.specs.Prelude.{◌≡◌, ◌<◌, OnOk, OnErr};
ghost use Rattle.std.specs.Option.{option_map};
ghost use Rattle.shelf_io.specs.Faults.{HasCause};
ghost use Rattle.shelf_io.specs.Files.{HoldsFront, with_bytes};
ghost use Rattle.shelf_io.specs.Texts.{Grew, GrewWithin};

use crate::refused::Refused;
use crate::shelf::Shelf;
use crate::sink::Sink;

/// Writes all of a text to a sink. After a refusal a front of it was taken, and nothing else.
pub fn write_all<K: Sink>(sink: &mut K, text: &[u8]) -> Result<(), Refused>
    ensures whole { OnOk result (Grew (K.taken sink.old) (K.taken sink.new) text.now) }
    ensures part { OnErr result (GrewWithin (K.taken sink.old) (K.taken sink.new) text.now) }
    ensures cause { HasCause (K.faults sink.old) (K.faults sink.new) result }
{
    let mut done = 0;
    while done < text.len() {
        done += sink.write(&text[done..])?;
    }
    Ok(())
}

/// Lets a name hold a text, written in pieces of `piece` bytes; all other names stay. After a refusal the shelf is as before,
/// or the name holds a front of the text.
pub fn write_file<H: Shelf>(
    shelf: &mut H,
    name: &str,
    text: &[u8],
    piece: usize,
) -> Result<(), Refused>
    requires some { 0 < piece }
    ensures whole { OnOk result (H.files shelf.new ≡ option_map (with_bytes name.now text.now) (H.files shelf.old)) }
    ensures part { OnErr result (HoldsFront (H.files shelf.old) (H.files shelf.new) name.now text.now) }
    ensures cause { HasCause (H.faults shelf.old) (H.faults shelf.new) result }
{
    shelf.begin(name)?;
    let mut done = 0;
    while done < text.len() {
        let n = piece.min(text.len() - done);
        shelf.append(name, &text[done..done + n])?;
        done += n;
    }
    Ok(())
}
