//! A session: frames in, frames out.
ghost use Rattle.std.specs.Prelude.{IfOk, OnOk};
ghost use Rattle.pest_language_server.specs.Sessions.{IsSession, IsStep, RepliesToFrame, Sends, Serves};

use crate::frames::{InputFrame, read_frame, write_frame};
use crate::replies::Reply;
use crate::server::Server;
use std::alloc::{AllocError, Global};
use std::io::{self, BufRead, Write};

/// The status of a session that ends without `shutdown` and `exit`.
const FAILED: u8 = 1;

/// Answers frames up to the notification `exit`, the input's end, or a failed read or write. Returns the
/// status with which the process is to end: 0 if `shutdown` and `exit` came, else 1. Any read or write may
/// fail, so no clause refuses a session that ends early, with status 1.
pub fn run<R: BufRead, W: Write>(alloc: Global, input: &mut R, out: &mut W) -> u8
    ensures { IsSession (R.remaining input.old) (W.contents out.old) result }
{
    let mut server = Server::new(alloc);
    serve(alloc, &mut server, input, out)
}

/// Answers frames. Returns the status with which the process is to end.
fn serve<R: BufRead, W: Write>(alloc: Global, server: &mut Server, input: &mut R, out: &mut W) -> u8
    ensures { Serves server.old (R.remaining input.old) (W.contents out.old) result }
{
    for _ in 0..u64::MAX {
        match step(alloc, server, input, out) {
            Ok(None) => {}
            Ok(Some(status)) => return status,
            Err(_) => return FAILED,
        }
    }
    FAILED
}

/// Answers one frame. Returns the status with which the process is to end, if it is to.
fn step<R: BufRead, W: Write>(
    alloc: Global,
    server: &mut Server,
    input: &mut R,
    out: &mut W,
) -> io::Result<Option<u8>>
    ensures { IfOk result (IsStep server.old server.new (R.remaining input.old)
        (R.remaining input.new) (W.contents out.old) (W.contents out.new)) }
{
    let frame = read_frame(alloc, input)?;
    if matches!(frame, InputFrame::End) {
        return Ok(Some(FAILED));
    }
    // If there is no memory even for an error, nothing is sent.
    let Ok(reply) = reply_to(alloc, server, &frame) else {
        return Ok(None);
    };
    send(alloc, &reply, out)?;
    Ok(reply.exit)
}

/// Returns the reply to a frame.
fn reply_to(alloc: Global, server: &mut Server, frame: &InputFrame) -> Result<Reply, AllocError>
    ensures { IfOk result (RepliesToFrame server.old server.new frame.now) }
{
    match frame {
        InputFrame::Body(body) => server.handle(alloc, body),
        InputFrame::TooLarge => server.refuse_body(alloc),
        InputFrame::Invalid | InputFrame::End => server.refuse_frame(alloc),
    }
}

/// Writes the message of a reply. One for which there is no memory is not sent.
fn send<W: Write>(alloc: Global, reply: &Reply, out: &mut W) -> io::Result<()>
    ensures { OnOk result (Sends (W.contents out.old) (W.contents out.new) reply.now.body) }
{
    match &reply.body {
        Some(body) => write_frame(alloc, out, body.as_str()),
        None => Ok(()),
    }
}
