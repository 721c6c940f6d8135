//! The files of commands that a run begins with.

ghost use Rattle.std.specs.Prelude.{◌≡◌, ◌++◌, map, option_map, IfOk, OnOk};
ghost use Rattle.session_state.specs.Beginning as spec;
ghost use Rattle.session_state.specs.Frames.{plain_frame, plain_frames};

use crate::frame::{Frame, Origin};
use mail_base::{Bytes, Kind, Line, NoMemory, append_utf8};
use std::alloc::Global;

/// The files of commands of a run, in the order in which they are run: the named one, or one that
/// need not be there; the commands of the command line; and the one that sets the kind of new
/// folders, where one is given.
pub fn first_frames(
    alloc: Global,
    rc: &Option<Bytes>,
    commands: &[Bytes],
    kind: Option<Kind>,
) -> Result<Vec<Frame>, NoMemory>
    ensures { IfOk result (λ frames. plain_frames frames
        ≡ spec.first_frames (option_map (λ path. path.items) rc.now)
        (map (λ text. text.items) commands.now) kind) }
{
    let mut frames = Vec::new(alloc);
    frames.push(rc_frame(alloc, rc)?)?;
    add_typed(alloc, &mut frames, commands)?;
    add_kind(alloc, &mut frames, kind)?;
    Ok(frames)
}

fn rc_frame(alloc: Global, rc: &Option<Bytes>) -> Result<Frame, NoMemory>
    ensures { IfOk result (λ frame. plain_frame frame
        ≡ spec.rc_frame (option_map (λ path. path.items) rc.now)) }
{
    let mut file = Line::new(alloc);
    match rc {
        Some(path) => {
            append_utf8(&mut file, path.as_slice())?;
            Ok(Frame::unread(alloc, file, Origin::Named, 0))
        }
        None => {
            file.append(".muttrc")?;
            Ok(Frame::unread(alloc, file, Origin::Default, 0))
        }
    }
}

fn typed_frame(alloc: Global, text: &[u8]) -> Result<Frame, NoMemory>
    ensures { IfOk result (λ frame. plain_frame frame ≡ spec.typed_frame text.now) }
{
    let mut file = Line::new(alloc);
    file.append("-e")?;
    let mut frame = Frame::unread(alloc, file, Origin::Typed, 0);
    frame.read(alloc, text)?;
    Ok(frame)
}

// Adds the commands of the command line.
fn add_typed(alloc: Global, frames: &mut Vec<Frame>, texts: &[Bytes]) -> Result<(), NoMemory>
    ensures { OnOk result (plain_frames frames.new
        ≡ plain_frames frames.old ++ map spec.typed_frame (map (λ text. text.items) texts.now)) }
{
    let mut left = texts;
    while let Some((text, rest)) = left.split_first() {
        frames.push(typed_frame(alloc, text.as_slice())?)?;
        left = rest;
    }
    Ok(())
}

// Adds the command that sets the kind of new folders, where one is given.
fn add_kind(alloc: Global, frames: &mut Vec<Frame>, kind: Option<Kind>) -> Result<(), NoMemory>
    ensures { OnOk result (plain_frames frames.new
        ≡ plain_frames frames.old ++ spec.kind_frames kind) }
{
    match kind {
        Some(kind) => frames.push(typed_frame(alloc, kind_command(kind))?)?,
        None => {}
    }
    Ok(())
}

fn kind_command(kind: Kind) -> &'static [u8]
    ensures { result.now ≡ spec.kind_command kind }
{
    match kind {
        Kind::Mbox => b"set mbox_type=mbox",
        Kind::Maildir => b"set mbox_type=Maildir",
        Kind::Mh => b"set mbox_type=MH",
        Kind::Mmdf => b"set mbox_type=MMDF",
    }
}
