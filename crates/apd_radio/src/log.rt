//! What a recording writes: each line by one call of its writer, so that a process which is killed leaves whole lines.
ghost use Rattle.std.specs.Prelude.{◌≡◌, false, OnOk};
ghost use Rattle.std.specs.Io.KnownBytes.{Appends};
ghost use Rattle.apd_base.specs.Text.{with_newline};
ghost use Rattle.apd_radio.specs.Recordings.{Records};
ghost use Rattle.apd_radio.specs.Calls.{line_of};
ghost use Rattle.apd_radio.specs.declared.call.Call.TheVariants as calls;

use apd_base::Addr;
use std::alloc::Global;
use std::io;
use std::io::Write;

fn write_received<W: Write>(alloc: Global, writer: &mut W, frame: &[u8]) -> io::Result<()>
    ensures { OnOk result
        (Appends (W.contents writer.old) (W.contents writer.new) (with_newline (line_of (calls.Received frame.now)))) }
{
    let digits = hex::encode(alloc, frame)?;
    let line = format!(in alloc; "rx {digits}\n")?;
    writer.write_all(line.as_bytes())
}

fn write_sent<W: Write>(alloc: Global, writer: &mut W, frame: &[u8]) -> io::Result<()>
    ensures { OnOk result
        (Appends (W.contents writer.old) (W.contents writer.new) (with_newline (line_of (calls.Sent frame.now)))) }
{
    let digits = hex::encode(alloc, frame)?;
    let line = format!(in alloc; "tx {digits}\n")?;
    writer.write_all(line.as_bytes())
}

fn write_installed<W: Write>(alloc: Global, writer: &mut W, addr: Addr, aid: u16) -> io::Result<()>
    ensures { OnOk result
        (Appends (W.contents writer.old) (W.contents writer.new) (with_newline (line_of (calls.Installed addr aid)))) }
{
    let line = format!(in alloc; "install {addr} {aid}\n")?;
    writer.write_all(line.as_bytes())
}

fn write_removed<W: Write>(writer: &mut W, addr: Addr) -> io::Result<()>
    ensures { OnOk result
        (Appends (W.contents writer.old) (W.contents writer.new) (with_newline (line_of (calls.Removed addr)))) }
{
    let mut line = *b"remove ..:..:..:..:..:..\n";
    line[7..24].copy_from_slice(&addr.text());
    writer.write_all(&line)
}

fn write_down<W: Write>(writer: &mut W) -> io::Result<()>
    ensures { OnOk result
        (Appends (W.contents writer.old) (W.contents writer.new) (with_newline (line_of calls.Down))) }
{
    writer.write_all(b"down\n")
}

/// Writes the lines of a recording, until a write fails.
#[derive(Drop)]
pub struct Log<W: Write + Drop> {
    writer: W,
    ended: bool,
    alloc: Global,
}

impl<W: Write + Drop> Log<W> {
    pub fn new(alloc: Global, writer: W) -> Log<W>
        ensures writer { result.writer ≡ writer }
        ensures begun { result.ended ≡ false }
    {
        Log {
            writer,
            ended: false,
            alloc,
        }
    }

    pub fn write_received(&mut self, frame: &[u8])
        ensures { Records self.old.ended (W.contents self.old.writer) (calls.Received frame.now) self.new.ended
            (W.contents self.new.writer) }
    {
        if !self.ended {
            self.ended = write_received(self.alloc, &mut self.writer, frame).is_err();
        }
    }

    pub fn write_installed(&mut self, addr: Addr, aid: u16)
        ensures { Records self.old.ended (W.contents self.old.writer) (calls.Installed addr aid) self.new.ended
            (W.contents self.new.writer) }
    {
        if !self.ended {
            self.ended = write_installed(self.alloc, &mut self.writer, addr, aid).is_err();
        }
    }

    pub fn write_removed(&mut self, addr: Addr)
        ensures { Records self.old.ended (W.contents self.old.writer) (calls.Removed addr) self.new.ended
            (W.contents self.new.writer) }
    {
        if !self.ended {
            self.ended = write_removed(&mut self.writer, addr).is_err();
        }
    }

    pub fn write_sent(&mut self, frame: &[u8])
        ensures { Records self.old.ended (W.contents self.old.writer) (calls.Sent frame.now) self.new.ended
            (W.contents self.new.writer) }
    {
        if !self.ended {
            self.ended = write_sent(self.alloc, &mut self.writer, frame).is_err();
        }
    }

    pub fn write_down(&mut self)
        ensures { Records self.old.ended (W.contents self.old.writer) (calls.Down) self.new.ended
            (W.contents self.new.writer) }
    {
        if !self.ended {
            self.ended = write_down(&mut self.writer).is_err();
        }
    }
}
